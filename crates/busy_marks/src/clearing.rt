//! Taking away what a stopped mailer left.
ghost use Rattle.std.specs.Prelude.{◌≡◌, ℕ, List, Some, length, option_map, IfErr, IfOk};
ghost use Rattle.disk_model.specs.Causes.{HasCause};
ghost use Rattle.disk_model.specs.Changes.{Every, Same};
ghost use Rattle.disk_model.specs.Moments.{Leaves};
ghost use Rattle.disk_model.specs.declared.answers.Hit.{Hit};
ghost use Rattle.busy_marks.specs.Causes.{ClearsWithCause};
ghost use Rattle.busy_marks.specs.Ends.{ChangesNothing};
ghost use Rattle.busy_marks.specs.Undoing.{ClearsAs, MayUndo, Undoes, noted_path};

use crate::fault::ClearFault;
use crate::unmarking::{remove_note, unmark_addr};
use disk_model::{Disk, Name, Yard};
use ftn_addr::{Bytes, Failed};
use std::alloc::Global;

/// Removes the mark whose path the note holds, where it holds exactly the text, and then the note. An empty
/// note names no mark, and where no note stands nothing changes.
pub fn clear_note<D: Yard>(
    alloc: Global,
    disk: &mut D,
    own: &Name,
    text: &Bytes,
) -> Result<(), ClearFault>
    // At every moment where that mark stands its note is as it was. At Ok neither stands, and that lasts.
    ensures undoes { Every (D.files disk.old) (λ w. (hit : Hit) → ClearsAs hit (noted_path own.now w) text.now.list w → Undoes D.files D.moment D.images result (w.own own.now) hit own.now (noted_path own.now w) disk.old disk.new) }

    // Nothing but the note and at most one outside file ever changes.
    ensures stop { Leaves D.moment D.images (λ d c. (path : List ℕ) × MayUndo own.now path d c) disk.old disk.new }

    // Where no memory was found nothing did.
    ensures no_memory { IfErr result (λ fault. fault ≡ ClearFault.NoMemory → ChangesNothing D.files D.moment D.images disk.old disk.new) }
    ensures cause { ClearsWithCause (D.fault_count disk.old) (D.fault_count disk.new) result }
{
    match read_note(alloc, disk, own) {
        Ok(path) => match undo(disk, &path, own, text) {
            Ok(()) => Ok(()),
            Err(_) => Err(ClearFault::Failed),
        },
        Err(fault) => Err(fault),
    }
}

// Undoes the mark at a path and its note. An empty path is that of no mark.
fn undo<D: Yard>(disk: &mut D, path: &Bytes, own: &Name, text: &Bytes) -> Result<(), Failed>
    ensures undoes { Every (D.files disk.old) (λ w. (hit : Hit) → ClearsAs hit path.now.list text.now.list w → Undoes D.files D.moment D.images result (w.own own.now) hit own.now path.now.list disk.old disk.new) }
    ensures stop { Leaves D.moment D.images (MayUndo own.now path.now.list) disk.old disk.new }
    ensures cause { HasCause (D.fault_count disk.old) (D.fault_count disk.new) result }
{
    if path.is_empty() {
        remove_note(disk, own)
    } else {
        unmark_addr(disk, path, own, text)
    }
}

// The path that a note holds, or nothing where none stands.
fn read_note<D: Disk>(alloc: Global, disk: &mut D, own: &Name) -> Result<Bytes, ClearFault>
    ensures path { IfOk result (λ path. Every (D.files disk.old) (λ w. path.list ≡ noted_path own.now w)) }
    ensures read { Every (D.files disk.new) (D.files disk.old) }
    ensures stop { Leaves D.moment D.images Same disk.old disk.new }
    ensures cause { ClearsWithCause (D.fault_count disk.old) (D.fault_count disk.new) result }
{
    match disk.stat(own) {
        Ok(Some(len)) => read_path(alloc, disk, own, len),
        Ok(None) => Ok(Bytes::new(alloc)),
        Err(_) => Err(ClearFault::Failed),
    }
}

// What a note of so many bytes holds.
fn read_path<D: Disk>(
    alloc: Global,
    disk: &mut D,
    own: &Name,
    len: u64,
) -> Result<Bytes, ClearFault>
    requires { Every (D.files disk.old) (λ w. Some len ≡ option_map length (w.own own.now)) }
    ensures path { IfOk result (λ path. Every (D.files disk.old) (λ w. path.list ≡ noted_path own.now w)) }
    ensures read { Every (D.files disk.new) (D.files disk.old) }
    ensures stop { Leaves D.moment D.images Same disk.old disk.new }
    ensures cause { ClearsWithCause (D.fault_count disk.old) (D.fault_count disk.new) result }
{
    let Ok(mut bytes) = vec![in alloc; 0; len as usize] else {
        return Err(ClearFault::NoMemory);
    };
    match disk.read_at(own, 0, &mut bytes) {
        Ok(()) => match Bytes::from_slice(alloc, &bytes) {
            Ok(path) => Ok(path),
            Err(_) => Err(ClearFault::NoMemory),
        },
        Err(_) => Err(ClearFault::Failed),
    }
}

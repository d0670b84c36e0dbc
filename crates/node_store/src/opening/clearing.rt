//! Marks that a stop of this mailer left are taken away, and then their notes.
ghost use Rattle.std.specs.Prelude.{◌≡◌, ◌⊎◌, IfErr, OnOk, true};
ghost use Rattle.disk_model.specs.Changes.{Every, Follows, IsFree, Stands};
ghost use Rattle.disk_model.specs.Moments.{Leaves};
ghost use Rattle.node_store.specs.Clearing.{ClearsNotes, HasNoNote, HasNotesAmong, SameButNotes, SameOut};
ghost use Rattle.node_store.specs.Keeping.{Beside, HasReason};
ghost use Rattle.node_store.specs.Names.{is_note};
ghost use Rattle.node_store.specs.declared.opening.fault.StoreOpenFault.TheVariants.{Disk as DiskFailed, NoMemory as OutOfMemory};

use crate::names::is_note;
use crate::opening::fault::StoreOpenFault;
use crate::opening::tidying::list_names;
use busy_marks::{ClearFault, clear_note};
use disk_model::{Name, Yard};
use ftn_addr::Bytes;
use std::alloc::Global;

// Takes away the mark that a note names, where it holds the text, and then the note. The note is made durable first, so that a
// stop leaves what was read of it.
fn clear_standing<D: Yard>(
    alloc: Global,
    disk: &mut D,
    name: &Name,
    text: &Bytes,
) -> Result<(), StoreOpenFault>
    requires note { is_note name.now ≡ true }
    requires stands { Every (D.files disk.old) (Stands name.now 0) }
    requires outside { Beside D.files D.moment D.images SameOut disk.old }
    ensures outside { OnOk result (Beside D.files D.moment D.images SameOut disk.new) }
    ensures gone { OnOk result (Every (D.files disk.new) (IsFree name.now)) }
    ensures read { Follows (ClearsNotes text.now.list) (D.files disk.old) (D.files disk.new) }
    ensures stop { D.tells ≡ true → Leaves D.moment D.images (ClearsNotes text.now.list) disk.old disk.new }
    ensures aside { Leaves D.moment D.images SameButNotes disk.old disk.new }
    ensures fault { IfErr result (λ fault. (fault ≡ DiskFailed) ⊎ (fault ≡ OutOfMemory)) }
    ensures reason { HasReason (D.fault_count disk.old) (D.fault_count disk.new) result }
{
    match disk.sync(name) {
        Ok(()) => (),
        Err(_) => return Err(StoreOpenFault::Disk),
    }
    match clear_note(alloc, disk, name, text) {
        Ok(()) => Ok(()),
        Err(ClearFault::Failed) => Err(StoreOpenFault::Disk),
        Err(ClearFault::NoMemory) => Err(StoreOpenFault::NoMemory),
    }
}

// The same of a file of any name, where it is a note and stands.
fn clear_if_note<D: Yard>(
    alloc: Global,
    disk: &mut D,
    name: &Name,
    text: &Bytes,
) -> Result<(), StoreOpenFault>
    requires outside { Beside D.files D.moment D.images SameOut disk.old }
    ensures outside { OnOk result (Beside D.files D.moment D.images SameOut disk.new) }
    ensures gone { OnOk result (is_note name.now ≡ true → Every (D.files disk.new) (IsFree name.now)) }
    ensures read { Follows (ClearsNotes text.now.list) (D.files disk.old) (D.files disk.new) }
    ensures stop { D.tells ≡ true → Leaves D.moment D.images (ClearsNotes text.now.list) disk.old disk.new }
    ensures aside { Leaves D.moment D.images SameButNotes disk.old disk.new }
    ensures fault { IfErr result (λ fault. (fault ≡ DiskFailed) ⊎ (fault ≡ OutOfMemory)) }
    ensures reason { HasReason (D.fault_count disk.old) (D.fault_count disk.new) result }
{
    if !is_note(name) {
        return Ok(());
    }
    match disk.stat(name) {
        Ok(Some(_)) => clear_standing(alloc, disk, name, text),
        Ok(None) => Ok(()),
        Err(_) => Err(StoreOpenFault::Disk),
    }
}

// The same of each of these names, among which are those of all notes.
fn clear_each<D: Yard>(
    alloc: Global,
    disk: &mut D,
    names: &[Name],
    text: &Bytes,
) -> Result<(), StoreOpenFault>
    requires outside { Beside D.files D.moment D.images SameOut disk.old }
    requires among { Every (D.files disk.old) (HasNotesAmong names.now) }
    ensures outside { OnOk result (Beside D.files D.moment D.images SameOut disk.new) }
    ensures none { OnOk result (Every (D.files disk.new) HasNoNote) }
    ensures read { Follows (ClearsNotes text.now.list) (D.files disk.old) (D.files disk.new) }
    ensures stop { D.tells ≡ true → Leaves D.moment D.images (ClearsNotes text.now.list) disk.old disk.new }
    ensures aside { Leaves D.moment D.images SameButNotes disk.old disk.new }
    ensures fault { IfErr result (λ fault. (fault ≡ DiskFailed) ⊎ (fault ≡ OutOfMemory)) }
    ensures reason { HasReason (D.fault_count disk.old) (D.fault_count disk.new) result }
{
    for name in names {
        match clear_if_note(alloc, disk, name, text) {
            Ok(()) => (),
            Err(fault) => return Err(fault),
        }
    }
    Ok(())
}

/// Takes away the marks with that text whose paths notes hold, and then the notes.
pub(crate) fn clear_notes<D: Yard>(
    alloc: Global,
    disk: &mut D,
    text: &Bytes,
) -> Result<(), StoreOpenFault>
    requires outside { Beside D.files D.moment D.images SameOut disk.old }
    ensures outside { OnOk result (Beside D.files D.moment D.images SameOut disk.new) }
    ensures none { OnOk result (Every (D.files disk.new) HasNoNote) }
    ensures read { Follows (ClearsNotes text.now.list) (D.files disk.old) (D.files disk.new) }
    ensures stop { D.tells ≡ true → Leaves D.moment D.images (ClearsNotes text.now.list) disk.old disk.new }
    ensures aside { Leaves D.moment D.images SameButNotes disk.old disk.new }
    ensures fault { IfErr result (λ fault. (fault ≡ DiskFailed) ⊎ (fault ≡ OutOfMemory)) }
    ensures reason { HasReason (D.fault_count disk.old) (D.fault_count disk.new) result }
{
    let names = match list_names(disk) {
        Ok(names) => names,
        Err(fault) => return Err(fault),
    };
    clear_each(alloc, disk, names.as_slice(), text)
}

//! A nodelist's text and the index of its nodes, before either is in its place.
ghost use Rattle.std.specs.Prelude.{◌≡◌, ◌⊎◌, ◌≤◌, Err, IfErr, IfOk, IsErrOf, OnOk};
ghost use Rattle.disk_model.specs.Changes.{Every, Follows, Only};
ghost use Rattle.disk_model.specs.Moments.{Now, Leaves};
ghost use Rattle.ftn_addr.specs.Counts.{Increased};
ghost use Rattle.nodelist_comp.specs.List.{compiled};
ghost use Rattle.nodelist_files.specs.Compiling.{MayCome, counted, judged, text_at};
ghost use Rattle.nodelist_files.specs.Files.{new_name};
ghost use Rattle.nodelist_files.specs.Staging.{IsCopied, IsPrepared, IsStaged};

use crate::CompileFault;
use crate::list_files::new_file;
use crate::reading::read_whole;
use disk_model::{Copied, Yard};
use ftn_addr::Bytes;
use nodelist_comp::{ListCause, compile, index_bytes};
use std::alloc::Global;

/// The most bytes of a nodelist.
const MOST_BYTES: u64 = 16_777_216;

/// The index of a text's nodes, and how many they are.
#[derive(Drop)]
pub(crate) struct Prepared {
    pub index: Bytes,
    pub count: u32,
}

// Copies the file and makes the copy durable. It answers the number of bytes.
fn copy_text<D: Yard>(disk: &mut D, path: &Bytes) -> Result<u64, CompileFault>
    ensures copied { IfOk result (λ len. Follows (IsCopied path.now.list len) (D.files disk.old) (Now D.moment D.images disk.new)) }
    ensures fault { IfErr result (λ fault. (fault ≡ CompileFault.Disk) ⊎ Every (D.files disk.old) (λ w. judged (text_at path.now.list w) ≡ Err fault)) }
    ensures disk { IsErrOf result CompileFault.Disk → Increased (D.fault_count disk.old) (D.fault_count disk.new) }
    ensures faults { D.fault_count disk.old ≤ D.fault_count disk.new }
    ensures calm { OnOk result (D.fault_count disk.new ≡ D.fault_count disk.old) }
    ensures stop { Leaves D.moment D.images (Only new_name) disk.old disk.new }
    ensures read { Follows (Only new_name) (D.files disk.old) (D.files disk.new) }
{
    let name = new_file();
    match disk.copy(path, &name, MOST_BYTES)? {
        Copied::Copied(stat) => {
            // The list is to be whole on the disk before it takes its place.
            disk.sync(&name)?;
            Ok(stat.size)
        }
        Copied::Absent => Err(CompileFault::NoFile),
        Copied::Over => Err(CompileFault::NoFile),
    }
}

// The index of a text's nodes. What a text is refused for is the first line that can't be taken.
fn prepare(alloc: Global, text: &[u8]) -> Result<Prepared, CompileFault>
    ensures ok { IfOk result (λ made. IsPrepared text.now made.index.list made.count) }
    ensures err { IfErr result (λ fault. (fault ≡ CompileFault.NoMemory) ⊎ (counted (compiled text.now) ≡ Err fault)) }
{
    let nodes = match compile(alloc, text) {
        Ok(nodes) => nodes,
        Err(fault) if fault.cause == ListCause::NoMemory => return Err(CompileFault::NoMemory),
        Err(fault) => return Err(CompileFault::ListBad(fault)),
    };
    let index = index_bytes(alloc, nodes.as_slice())?;
    Ok(Prepared {
        index,
        count: nodes.len() as u32,
    })
}

/// Copies a file's text, and makes the index of its nodes in memory. List and index stay as they are.
pub(crate) fn stage<D: Yard>(
    alloc: Global,
    disk: &mut D,
    path: &Bytes,
) -> Result<Prepared, CompileFault>
    ensures staged { IfOk result (λ made. IsStaged (D.files disk.old) (Now D.moment D.images disk.new) path.now.list made.index.list made.count) }
    ensures fault { IfErr result (λ fault. MayCome fault ⊎ Every (D.files disk.old) (λ w. judged (text_at path.now.list w) ≡ Err fault)) }
    ensures disk { IsErrOf result CompileFault.Disk → Increased (D.fault_count disk.old) (D.fault_count disk.new) }
    ensures faults { D.fault_count disk.old ≤ D.fault_count disk.new }
    ensures calm { OnOk result (D.fault_count disk.new ≡ D.fault_count disk.old) }
    ensures stop { Leaves D.moment D.images (Only new_name) disk.old disk.new }
    ensures read { Follows (Only new_name) (D.files disk.old) (D.files disk.new) }
{
    let len = copy_text(disk, path)?;
    let text = read_whole(alloc, disk, &new_file(), len)?;
    prepare(alloc, &text)
}

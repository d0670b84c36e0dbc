//! Compiling a nodelist into the own folder.
ghost use Rattle.std.specs.Prelude.{◌≡◌, ◌⊎◌, ◌≤◌, IfErr, IsErrOf, OnOk};
ghost use Rattle.disk_model.specs.Changes.{Every, Follows, Only};
ghost use Rattle.disk_model.specs.Moments.{Now, Leaves};
ghost use Rattle.ftn_addr.specs.Counts.{Increased};
ghost use Rattle.ftn_addr.specs.Outcomes.{GivesUnless};
ghost use Rattle.nodelist_files.specs.Compiling.{Clears, Compiles, IsCompiled, MayCome, judged, text_at};
ghost use Rattle.nodelist_files.specs.Files.{new_name};

use crate::CompileFault;
use crate::replacing::{clear, replace};
use crate::staging::stage;
use disk_model::Yard;
use ftn_addr::Bytes;
use std::alloc::Global;

/// Compiles the outside file under a path: the list of the own folder is its text, and the index that of its nodes. It answers
/// the number of nodes.
///
/// The text is copied and read whole, and the index is made in memory, before the list takes its place. After any refusal but
/// `Disk` list and index are as before. After `Disk` the next call mends what it left.
pub fn compile_list<D: Yard>(alloc: Global, disk: &mut D, path: &Bytes) -> Result<u32, CompileFault>
    // The answer is what the file comes to, but that the disk may fail and memory run out.
    ensures answer { Every (D.files disk.old) (λ w. GivesUnless MayCome (λ count. count) result (judged (text_at path.now.list w))) }
    ensures disk { IsErrOf result CompileFault.Disk → Increased (D.fault_count disk.old) (D.fault_count disk.new) }
    ensures faults { D.fault_count disk.old ≤ D.fault_count disk.new }
    ensures calm { OnOk result (D.fault_count disk.new ≡ D.fault_count disk.old) }

    // At every moment list and index are as before, or the new list stands with the old or the new index.
    ensures stop { Leaves D.moment D.images (Compiles (D.files disk.old) path.now.list) disk.old disk.new }
    ensures read { Follows (Compiles (D.files disk.old) path.now.list) (D.files disk.old) (D.files disk.new) }

    // Compiled, both are the file's, and a stop leaves them.
    ensures compiled { OnOk result (Every (D.files disk.new) (IsCompiled (D.files disk.old) path.now.list)) }
    ensures durable { OnOk result (Every (Now D.moment D.images disk.new) (IsCompiled (D.files disk.old) path.now.list)) }

    // Refused, both are as before, at every moment.
    ensures kept { IfErr result (λ fault. (fault ≡ CompileFault.Disk) ⊎ Leaves D.moment D.images (Only new_name) disk.old disk.new) }
    ensures cleared { IfErr result (λ fault. (fault ≡ CompileFault.Disk) ⊎ Follows Clears (D.files disk.old) (D.files disk.new)) }
{
    match stage(alloc, disk, path) {
        Ok(made) => {
            replace(disk, made.index.as_slice())?;
            Ok(made.count)
        }
        Err(CompileFault::Disk) => Err(CompileFault::Disk),
        Err(fault) => {
            clear(disk)?;
            Err(fault)
        }
    }
}

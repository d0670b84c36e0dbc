//! The calls that read own files.
ghost use Rattle.std.specs.Prelude.{◌≡◌, ◌+◌, ◌-◌, ℕ, List, None, Some, min, length, take, drop, IfOk};
ghost use Rattle.disk_model.specs.Causes.{HasCause};
ghost use Rattle.disk_model.specs.Changes.{Every, Same, Stands};
ghost use Rattle.disk_model.specs.Moments.{Steps};
ghost use Rattle.node_model.specs.StoreWords.{size_of_entry, size_of_receipt};
ghost use Rattle.node_model.specs.Stores.{IsKept, IsLive, Read_part, Read_source, StoreKept, read_answer};
ghost use Rattle.node_store.specs.Stored.{stand_of};

use crate::NodeStore;
use crate::lookups::{entry_of, receipt_of};
use crate::names::{in_file, out_file};
use disk_model::{Disk, Name};
use ftn_addr::Failed;
use node_model::StoreFault;

/// Reads a file of that size from a place on, as many bytes as fit.
pub(crate) fn read_some<D: Disk>(
    disk: &mut D,
    name: &Name,
    size: u64,
    at: u64,
    out: &mut [u8],
) -> Result<usize, Failed>
    requires stands { Every (D.files disk.old) (Stands name.now size) }
    ensures length { IfOk result (λ count. count ≡ min (length out.old) (size - at)) }
    ensures told { IfOk result (λ count. Every (D.files disk.old) (λ w. (b : List ℕ) → w.own name.now ≡ Some b → length b ≡ size → take count out.new ≡ take (length out.old) (drop at b))) }
    ensures read { Every (D.files disk.new) (D.files disk.old) }
    ensures stop { Steps D.moment D.images Same disk.old disk.new }
    ensures cause { HasCause (D.fault_count disk.old) (D.fault_count disk.new) result }
{
    let count = size.saturating_sub(at).min(out.len() as u64) as usize;
    if count == 0 {
        return Ok(0);
    }
    disk.read_at(name, at, &mut out[..count])?;
    Ok(count)
}

impl<D: Disk> NodeStore<D> {
    /// Reads the bytes of a live entry from a place on, as many as fit. It takes no memory.
    pub fn read_source(&mut self, number: u32, at: u64, out: &mut [u8]) -> Result<usize, StoreFault>
        requires whole { self.old.memory.broken ≡ None }
        requires live { IsLive number (stand_of D.tells D.content D.fault_count D.moment D.images self.old).state }
        ensures kept { StoreKept (stand_of D.tells D.content D.fault_count D.moment D.images self.old) (Read_source number at (length out.old)) (read_answer out.new result) (stand_of D.tells D.content D.fault_count D.moment D.images self.new) }
        ensures length { IfOk result (λ count. count ≡ min (length out.old) (size_of_entry number (stand_of D.tells D.content D.fault_count D.moment D.images self.old).state.stock.state.queue - at)) }
    {
        let folded = self.books.folded();
        let size = entry_of(number, folded.queue_start(number), folded.queue())
            .key
            .size;
        match read_some(&mut self.disk, &out_file(number), size, at, out) {
            Ok(count) => Ok(count),
            Err(_) => Err(StoreFault::Read),
        }
    }

    /// Reads the bytes of a received file that wasn't given from a place on, as many as fit. It takes no memory.
    pub fn part_read(&mut self, receipt: u32, at: u64, out: &mut [u8]) -> Result<usize, StoreFault>
        requires whole { self.old.memory.broken ≡ None }
        requires kept { IsKept receipt (stand_of D.tells D.content D.fault_count D.moment D.images self.old).state }
        ensures kept { StoreKept (stand_of D.tells D.content D.fault_count D.moment D.images self.old) (Read_part receipt at (length out.old)) (read_answer out.new result) (stand_of D.tells D.content D.fault_count D.moment D.images self.new) }
        ensures length { IfOk result (λ count. count ≡ min (length out.old) (size_of_receipt receipt (stand_of D.tells D.content D.fault_count D.moment D.images self.old).state.stock.state.inbox - at)) }
    {
        let folded = self.books.folded();
        let size = receipt_of(receipt, folded.inbox_start(receipt), folded.inbox())
            .key
            .size;
        match read_some(&mut self.disk, &in_file(receipt), size, at, out) {
            Ok(count) => Ok(count),
            Err(_) => {
                self.broken = Some(self.disk.faults());
                Err(StoreFault::Disk)
            }
        }
    }
}

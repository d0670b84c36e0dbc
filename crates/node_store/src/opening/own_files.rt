//! The own files of a fold: those of live entries, of marks, and of receipts that weren't given.
ghost use Rattle.std.specs.Prelude.{◌≡◌, ◌⊎◌, [], ◌∷◌, ◌++◌, map, IfErr, IfOk, OnOk};
ghost use Rattle.std.specs.List.{AllByRecursion};
ghost use Rattle.disk_model.specs.Changes.{Every};
ghost use Rattle.ledger_rec.specs.Items.{entry, receipt, part_mark};
ghost use Rattle.node_store.specs.Keeping.{AreReceipts, Beside, Finds, HasBadEntry, HasBadMark, HasBadReceipt, HasReason, IsKeptEntry, IsKeptMark, IsKeptReceipt, IsKeptState, IsUntouched, given_in};
ghost use Rattle.node_store.specs.Worlds.{IsBadFile};
ghost use Rattle.node_store.specs.declared.opening.fault.StoreOpenFault.TheVariants.{NoMemory as OutOfMemory};

use crate::names::{in_file, out_file};
use crate::opening::fault::StoreOpenFault;
use crate::opening::keeping::{keep_front, keep_if_there, keep_whole};
use disk_model::Disk;
use ledger_rec::{Folded, InboxItem, MarkItem, QueueItem};
use std::alloc::Global;

fn keep_entry<D: Disk>(disk: &mut D, item: &QueueItem) -> Result<(), StoreOpenFault>
    ensures untouched { IsUntouched D.files D.moment D.images disk.old disk.new }
    ensures kept { OnOk result (Beside D.files D.moment D.images (IsKeptEntry (entry item.now)) disk.new) }
    ensures bad { IfErr result (Finds (HasBadEntry (D.files disk.new) (entry item.now ∷ []))) }
    ensures reason { HasReason (D.fault_count disk.old) (D.fault_count disk.new) result }
{
    if !item.live {
        return Ok(());
    }
    keep_whole(disk, &out_file(item.number), item.key.size)
}

/// Makes the files of all live entries durable.
pub(crate) fn keep_queue<D: Disk>(disk: &mut D, queue: &[QueueItem]) -> Result<(), StoreOpenFault>
    ensures untouched { IsUntouched D.files D.moment D.images disk.old disk.new }
    ensures kept { OnOk result (Beside D.files D.moment D.images (λ f c. AllByRecursion (λ e. IsKeptEntry e f c) (map entry queue.now)) disk.new) }
    ensures bad { IfErr result (Finds (HasBadEntry (D.files disk.new) (map entry queue.now))) }
    ensures reason { HasReason (D.fault_count disk.old) (D.fault_count disk.new) result }
{
    for item in queue {
        match keep_entry(disk, item) {
            Ok(()) => (),
            Err(fault) => return Err(fault),
        }
    }
    Ok(())
}

/// Makes the files of all marks durable.
pub(crate) fn keep_marks<D: Disk>(disk: &mut D, marks: &[MarkItem]) -> Result<(), StoreOpenFault>
    ensures untouched { IsUntouched D.files D.moment D.images disk.old disk.new }
    ensures kept { OnOk result (Beside D.files D.moment D.images (λ f c. AllByRecursion (λ m. IsKeptMark m f c) (map part_mark marks.now)) disk.new) }
    ensures bad { IfErr result (Finds (HasBadMark (D.files disk.new) (map part_mark marks.now))) }
    ensures reason { HasReason (D.fault_count disk.old) (D.fault_count disk.new) result }
{
    for mark in marks {
        match keep_front(disk, &in_file(mark.part), mark.len) {
            Ok(()) => (),
            Err(fault) => return Err(fault),
        }
    }
    Ok(())
}

// Makes the file of a receipt durable, or notes its number where it doesn't stand.
fn keep_receipt<D: Disk>(
    disk: &mut D,
    item: &InboxItem,
    given: &mut Vec<u32>,
) -> Result<(), StoreOpenFault>
    ensures untouched { IsUntouched D.files D.moment D.images disk.old disk.new }
    ensures given { OnOk result (Every (D.files disk.new) (λ f. given.new.items ≡ given.old.items ++ given_in f (receipt item.now ∷ []))) }
    ensures noted { OnOk result ((given.new.items ≡ given.old.items) ⊎ (given.new.items ≡ given.old.items ++ item.now.receipt ∷ [])) }
    ensures kept { OnOk result (Beside D.files D.moment D.images (IsKeptReceipt (receipt item.now)) disk.new) }
    ensures bad { IfErr result (λ fault. (fault ≡ OutOfMemory) ⊎ Finds (HasBadReceipt (D.files disk.new) (receipt item.now ∷ [])) fault) }
    ensures reason { HasReason (D.fault_count disk.old) (D.fault_count disk.new) result }
{
    match keep_if_there(disk, &in_file(item.receipt), item.key.size) {
        Ok(true) => Ok(()),
        Ok(false) => match given.push(item.receipt) {
            Ok(()) => Ok(()),
            Err(_) => Err(StoreOpenFault::NoMemory),
        },
        Err(fault) => Err(fault),
    }
}

/// Makes the files of all receipts durable that stand, and gives the numbers of the others.
pub(crate) fn keep_inbox<D: Disk>(
    alloc: Global,
    disk: &mut D,
    inbox: &[InboxItem],
) -> Result<Vec<u32>, StoreOpenFault>
    ensures untouched { IsUntouched D.files D.moment D.images disk.old disk.new }
    ensures given { IfOk result (λ given. Every (D.files disk.new) (λ f. given.items ≡ given_in f (map receipt inbox.now))) }
    ensures receipts { IfOk result (λ given. AreReceipts given.items (map receipt inbox.now)) }
    ensures kept { OnOk result (Beside D.files D.moment D.images (λ f c. AllByRecursion (λ r. IsKeptReceipt r f c) (map receipt inbox.now)) disk.new) }
    ensures bad { IfErr result (λ fault. (fault ≡ OutOfMemory) ⊎ Finds (HasBadReceipt (D.files disk.new) (map receipt inbox.now)) fault) }
    ensures reason { HasReason (D.fault_count disk.old) (D.fault_count disk.new) result }
{
    let mut given = Vec::new(alloc);
    for item in inbox {
        match keep_receipt(disk, item, &mut given) {
            Ok(()) => (),
            Err(fault) => return Err(fault),
        }
    }
    Ok(given)
}

/// Makes all files of a fold durable, and gives the numbers of the receipts whose files don't stand.
pub(crate) fn keep_files<D: Disk>(
    alloc: Global,
    disk: &mut D,
    folded: &Folded,
) -> Result<Vec<u32>, StoreOpenFault>
    ensures untouched { IsUntouched D.files D.moment D.images disk.old disk.new }
    ensures given { IfOk result (λ given. Every (D.files disk.new) (λ f. given.items ≡ given_in f folded.now.state.inbox)) }
    ensures receipts { IfOk result (λ given. AreReceipts given.items folded.now.state.inbox) }
    ensures kept { OnOk result (Beside D.files D.moment D.images (IsKeptState folded.now.state) disk.new) }
    ensures bad { IfErr result (λ fault. (fault ≡ OutOfMemory) ⊎ Finds (λ name. Every (D.files disk.new) (λ f. IsBadFile folded.now.state f name)) fault) }
    ensures reason { HasReason (D.fault_count disk.old) (D.fault_count disk.new) result }
{
    match keep_queue(disk, folded.queue()) {
        Ok(()) => (),
        Err(fault) => return Err(fault),
    }
    match keep_marks(disk, folded.marks()) {
        Ok(()) => (),
        Err(fault) => return Err(fault),
    }
    match keep_inbox(alloc, disk, folded.inbox()) {
        Ok(given) => Ok(given),
        Err(fault) => Err(fault),
    }
}

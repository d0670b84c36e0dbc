//! Own files that belong to nothing are removed.
ghost use Rattle.std.specs.Prelude.{◌≡◌, ◌⊎◌, ◌↔◌, ◌==◌, ◌&&◌, Bool, IfErr, IfOk, IsTrue, OnOk, map};
ghost use Rattle.std.specs.List.{list_any};
ghost use Rattle.disk_model.specs.Changes.{Every, Follows, Stands};
ghost use Rattle.disk_model.specs.Folders.{ListsFiles};
ghost use Rattle.disk_model.specs.Moments.{Leaves};
ghost use Rattle.ledger_rec.specs.Fold.{is_among};
ghost use Rattle.ledger_rec.specs.Items.{entry, part_mark, receipt};
ghost use Rattle.node_store.specs.Clearing.{Restores};
ghost use Rattle.node_store.specs.Keeping.{HasReason};
ghost use Rattle.node_store.specs.Strays.{HasNoStray, IsStray, IsStrayIn, IsStrayOut, IsTaken, IsWork};
ghost use Rattle.node_store.specs.Tending.{HasCutParts, HasRest, IsTended, Tidies};
ghost use Rattle.node_store.specs.declared.opening.fault.StoreOpenFault.TheVariants.{Disk as DiskFailed};

use crate::books::Books;
use crate::names::{queued_number, received_number, take_number};
use crate::opening::fault::StoreOpenFault;
use crate::opening::numbers::count;
use disk_model::{Disk, Name};
use ledger_rec::{Folded, InboxItem, MarkItem, QueueItem};

fn is_queued(number: u32, queue: &[QueueItem]) -> bool
    ensures { result ≡ list_any (λ e. e.live && e.number == number) queue.now }
{
    queue.iter().any(|item| item.live && item.number == number)
}

fn is_marked(number: u32, marks: &[MarkItem]) -> bool
    ensures { result ≡ list_any (λ m. m.part == number) marks.now }
{
    marks.iter().any(|mark| mark.part == number)
}

fn is_received(number: u32, inbox: &[InboxItem]) -> bool
    ensures { result ≡ list_any (λ r. r.receipt == number) inbox.now }
{
    inbox.iter().any(|item| item.receipt == number)
}

/// Whether a take is recorded.
pub(crate) fn is_recorded(take: u32, takes: &[u32]) -> bool
    ensures { result ≡ is_among take takes.now }
{
    takes.iter().any(|recorded| *recorded == take)
}

fn is_work(name: &Name) -> bool
    ensures { IsTrue result ↔ IsWork name.now }
{
    let bytes = name.as_slice();
    bytes == b"ledger.new".as_slice() || bytes == b"nodelist.new".as_slice()
}

fn is_stray_out(name: &Name, queue: &[QueueItem]) -> bool
    ensures { IsTrue result ↔ IsStrayOut (map entry queue.now) name.now }
{
    match queued_number(name) {
        Some(number) => !is_queued(number, queue),
        None => false,
    }
}

fn is_stray_in(name: &Name, marks: &[MarkItem], inbox: &[InboxItem]) -> bool
    ensures { IsTrue result ↔ IsStrayIn (map part_mark marks.now) (map receipt inbox.now) name.now }
{
    match received_number(name) {
        Some(number) => !is_marked(number, marks) && !is_received(number, inbox),
        None => false,
    }
}

fn is_taken(name: &Name, takes: &[u32]) -> bool
    ensures { IsTrue result ↔ IsTaken takes.now name.now }
{
    match take_number(name) {
        Some(take) => is_recorded(take, takes),
        None => false,
    }
}

fn is_stray(name: &Name, folded: &Folded) -> bool
    ensures { IsTrue result ↔ IsStray folded.now.state name.now }
{
    is_work(name)
        || is_stray_out(name, folded.queue())
        || is_stray_in(name, folded.marks(), folded.inbox())
        || is_taken(name, folded.takes())
}

// Removes a file that is a stray, and says whether it was one.
fn remove_if_stray<D: Disk>(
    disk: &mut D,
    name: &Name,
    books: &Books,
) -> Result<bool, StoreOpenFault>
    requires tended { IsTended D.files D.moment D.images books.now.payloads books.now.folding.state disk.old }
    requires stands { Every (D.files disk.old) (Stands name.now 0) }
    ensures tended { OnOk result (IsTended D.files D.moment D.images books.now.payloads books.now.folding.state disk.new) }
    ensures tidied { IfOk result (λ removed. Follows (Tidies books.now.folding.state name.now removed) (D.files disk.old) (D.files disk.new)) }
    ensures stop { Leaves D.moment D.images Restores disk.old disk.new }
    ensures read { Follows Restores (D.files disk.old) (D.files disk.new) }
    ensures fault { IfErr result (λ fault. fault ≡ DiskFailed) }
    ensures reason { HasReason (D.fault_count disk.old) (D.fault_count disk.new) result }
{
    if !is_stray(name, books.folded()) {
        return Ok(false);
    }
    disk.remove(name)?;
    Ok(true)
}

/// Removes the strays among the files of a disk, whose names are these.
pub(crate) fn remove_strays<D: Disk>(
    disk: &mut D,
    names: &[Name],
    books: &Books,
) -> Result<u32, StoreOpenFault>
    requires tended { IsTended D.files D.moment D.images books.now.payloads books.now.folding.state disk.old }
    requires listed { Every (D.files disk.old) (HasRest books.now.folding.state names.now) }
    ensures tended { OnOk result (IsTended D.files D.moment D.images books.now.payloads books.now.folding.state disk.new) }
    ensures none { OnOk result (Every (D.files disk.new) (HasNoStray books.now.folding.state)) }
    ensures parts { OnOk result (Every (D.files disk.old) (HasCutParts books.now.folding.state) → Every (D.files disk.new) (HasCutParts books.now.folding.state)) }
    ensures stop { Leaves D.moment D.images Restores disk.old disk.new }
    ensures read { Follows Restores (D.files disk.old) (D.files disk.new) }
    ensures fault { IfErr result (λ fault. fault ≡ DiskFailed) }
    ensures reason { HasReason (D.fault_count disk.old) (D.fault_count disk.new) result }
{
    let mut removed: u32 = 0;
    for name in names {
        match remove_if_stray(disk, name, books) {
            Ok(gone) => removed = count(removed, gone),
            Err(fault) => return Err(fault),
        }
    }
    Ok(removed)
}

//! Opening a store.
ghost use Rattle.std.specs.Prelude.{◌≡◌, ◌⊎◌, ◌≤◌, true, length, IfErr, IfOk, OnOk};
ghost use Rattle.busy_marks.specs.Text.{mark_text};
ghost use Rattle.disk_model.specs.Changes.{Every};
ghost use Rattle.disk_model.specs.Moments.{Leaves, Now};
ghost use Rattle.ftn_addr.specs.Address.{address};
ghost use Rattle.ftn_addr.specs.Counts.{Increased};
ghost use Rattle.node_store.specs.Aside.{SameAside};
ghost use Rattle.node_store.specs.Clearing.{ClearsMarks};
ghost use Rattle.node_store.specs.Finding.{IsNewMemory, IsOpened, disk_left};
ghost use Rattle.node_store.specs.Keeping.{AreReceipts, given_in};
ghost use Rattle.node_store.specs.Opening.{IsNewBooks, IsReady, IsRecovery, IsRefused, Recovers, counted as count_told, opened_memory};
ghost use Rattle.node_store.specs.Standing.{StandSo};
ghost use Rattle.node_store.specs.Tending.{IsTended};
ghost use Rattle.node_store.specs.declared.opening.fault.StoreOpenFault.TheVariants.{Disk as DiskFailed, NoMemory as OutOfMemory};

mod clearing;
mod fault;
mod finding;
mod folding;
mod keeping;
mod ledger;
mod looking;
mod numbers;
mod own_files;
mod parts;
mod standing;
mod strays;
mod tidying;

use crate::opening::finding::{Found, find};
pub(crate) use crate::opening::numbers::count;
use crate::opening::numbers::{counted, greatest, greatest_queued, kept, waiting};
use crate::store::NodeStore;
use disk_model::{Disk, Yard};
pub use fault::StoreOpenFault;
use ftn_addr::{Addr, Bytes, NoMemory};
use std::alloc::Global;

/// The most bytes of a record.
const RECORD_BYTES: usize = 1400;

/// What an opening found, and what it took away.
#[derive(Clone, Copy, Debug, PartialEq, Eq)]
pub struct Recovery {
    /// Queued files that wait to be sent.
    pub live: u32,
    /// Files that came in part.
    pub parts: u32,
    /// Outside files that were taken, and wait to be taken in.
    pub takes: u32,
    /// Own files that belonged to nothing, and were removed. Notes of marks aren't counted.
    pub removed: u32,
}

fn room_for_a_record(alloc: Global) -> Result<Bytes, NoMemory>
    ensures { IfOk result (λ text. 1400 ≤ text.spare) }
{
    let mut text = Bytes::new(alloc);
    text.reserve(RECORD_BYTES)?;
    Ok(text)
}

// The store of a disk that was looked through.
fn of_found<D: Disk>(alloc: Global, disk: D, found: Found, text: Bytes) -> NodeStore<D>
    requires books { IsNewBooks found.books }
    requires tended { IsTended D.files D.moment D.images found.books.payloads found.books.folding.state disk }
    requires given { Every (D.files disk) (λ f. found.given.items ≡ given_in f found.books.folding.state.inbox) }
    requires receipts { AreReceipts found.given.items found.books.folding.state.inbox }
    requires room { 1400 ≤ text.spare }
    requires standing { StandSo (D.files disk) found.books.folding.state found.takes }
    ensures disk { result.disk ≡ disk }
    ensures takes { result.takes ≡ found.takes }
    ensures memory { result.memory ≡ opened_memory found.books found.given.items }
{
    let Found {
        books,
        given,
        takes,
        removed: _,
    } = found;
    let drawn = greatest(books.folded().parts());
    let last_staged = greatest_queued(books.folded().queue());
    let kept = kept(alloc, books.folded().inbox(), given.as_slice());
    NodeStore {
        disk,
        books,
        given,
        kept,
        takes,
        parts: Vec::new(alloc),
        staged: Vec::new(alloc),
        drawn,
        last_staged,
        seat: 0,
        last_given: 0,
        text,
        fulls: 0,
        broken: None,
    }
}

// What was found of a store.
fn recovery_of(found: &Found) -> Recovery
    ensures books { IsRecovery found.now.books.folding.state result.live result.parts }
    ensures takes { result.takes ≡ count_told (length found.now.takes.left) }
{
    let folded = found.books.folded();
    Recovery {
        live: waiting(folded.queue()),
        parts: counted(folded.marks().len()),
        takes: counted(found.takes.left().len()),
        removed: found.removed,
    }
}

impl<D: Yard> NodeStore<D> {
    /// Opens the store of a disk. `home` is the node's own address.
    ///
    /// The ledger is read, or made where none stands, and folded. The own file of each live entry, of each mark, of each receipt
    /// whose file stands, and of each take that isn't recorded is made durable, so that what is opened outlives a stop whatever
    /// was unsynced before. Parts are cut to their marks, and own files that belong to nothing are removed: files in the making,
    /// queued files of no live entry, received files with neither mark nor receipt, and takes that are recorded.
    ///
    /// Of each note of a mark, the mark at the path that it holds is removed, where its text is exactly this node's, and then the
    /// note.
    ///
    /// A fault gives the disk back. What it opens to is as before.
    pub fn open(
        alloc: Global,
        disk: D,
        home: &Addr,
    ) -> Result<(NodeStore<D>, Recovery), (D, StoreOpenFault)>
        requires ready { D.tells ≡ true → Every (Now D.moment D.images disk) (IsReady (D.content disk)) }

        // The store tells what the disk opened to, and nothing is open in it.
        ensures memory { IfOk result (λ x. IsNewMemory x.0.memory) }
        ensures told { IfOk result (λ x. D.tells ≡ true → IsOpened (D.content disk) (D.content x.0.disk) x.0.memory) }

        ensures recovery { IfOk result (λ x. IsRecovery x.0.memory.books.folding.state x.1.live x.1.parts) }
        ensures takes { IfOk result (λ x. x.1.takes ≡ count_told (length x.0.takes.left)) }

        // A world that opens is refused for want of memory or a failing disk alone.
        ensures refused { IfErr result (λ x. (x.1 ≡ DiskFailed) ⊎ ((x.1 ≡ OutOfMemory) ⊎ (D.tells ≡ true → IsRefused x.1 (D.content disk)))) }

        // At each moment since the call began a stop leaves what opens as before, and so does the end of the call.
        ensures stop { D.tells ≡ true → Leaves D.moment D.images Recovers disk (disk_left result) }
        ensures read { D.tells ≡ true → Recovers (D.content disk) (D.content (disk_left result)) }

        // Outside nothing changes but that marks of this node go whose paths notes held, and no note goes before its mark.
        ensures marks_stop { D.tells ≡ true → Leaves D.moment D.images (ClearsMarks (mark_text (address home.now))) disk (disk_left result) }
        ensures marks_read { D.tells ≡ true → ClearsMarks (mark_text (address home.now)) (D.content disk) (D.content (disk_left result)) }

        // Own files that aren't the store's, as settings and a nodelist, are the same.
        ensures aside_stop { D.tells ≡ true → Leaves D.moment D.images SameAside disk (disk_left result) }
        ensures aside_read { D.tells ≡ true → SameAside (D.content disk) (D.content (disk_left result)) }

        ensures later { D.fault_count disk ≤ D.fault_count (disk_left result) }
        ensures calm { OnOk result (D.fault_count (disk_left result) ≡ D.fault_count disk) }
        ensures failed { IfErr result (λ x. x.1 ≡ DiskFailed → Increased (D.fault_count disk) (D.fault_count x.0)) }
    {
        let mut disk = disk;
        let text = match room_for_a_record(alloc) {
            Ok(text) => text,
            Err(_) => return Err((disk, StoreOpenFault::NoMemory)),
        };
        match find(alloc, &mut disk, home) {
            Ok(found) => {
                let recovery = recovery_of(&found);
                Ok((of_found(alloc, disk, found, text), recovery))
            }
            Err(fault) => Err((disk, fault)),
        }
    }
}

//! Numbers of what was opened: the greatest that were drawn, the receipts whose files are kept, and how many there are.
ghost use Rattle.std.specs.Prelude.{◌≡◌, ◌&&◌, ◌+◌, ℕ, Bool, count_by, if◌then◌else◌, length, map, not};
ghost use Rattle.file_index.specs.Sets.{Kept};
ghost use Rattle.ledger_rec.specs.Fold.{is_among};
ghost use Rattle.ledger_rec.specs.Items.{Entry, entry, receipt};
ghost use Rattle.node_store.specs.Giving.{is_kept};
ghost use Rattle.node_store.specs.Opening.{counted, greatest};
ghost use Rattle.node_store.specs.Stored.{has_receipt};

use file_index::NumberSet;
use ledger_rec::{InboxItem, QueueItem};
use std::alloc::Global;

/// The greatest of these numbers.
pub(crate) fn greatest(numbers: &[u32]) -> u32
    ensures { result ≡ greatest numbers.now }
{
    let mut most = 0;
    for number in numbers {
        most = most.max(*number);
    }
    most
}

/// The greatest number of these entries.
pub(crate) fn greatest_queued(queue: &[QueueItem]) -> u32
    ensures { result ≡ greatest (map (λ (e : Entry). e.number) (map entry queue.now)) }
{
    let mut most = 0;
    for item in queue {
        most = most.max(item.number);
    }
    most
}

// The receipts of an inbox.
fn received(alloc: Global, inbox: &[InboxItem]) -> NumberSet
    ensures { Kept result (λ n. has_receipt n (map receipt inbox.now)) }
{
    let mut numbers = NumberSet::new(alloc);
    for item in inbox {
        numbers.note(item.receipt);
    }
    numbers
}

// Takes these numbers out.
fn take_out(given: &[u32], numbers: &mut NumberSet)
    ensures { (p : ℕ → Bool) → Kept numbers.old p → Kept numbers.new (λ n. p n && not (is_among n given.now)) }
{
    for number in given {
        numbers.remove(*number);
    }
}

/// The receipts whose files weren't given.
pub(crate) fn kept(alloc: Global, inbox: &[InboxItem], given: &[u32]) -> NumberSet
    ensures { Kept result (is_kept given.now (map receipt inbox.now)) }
{
    let mut numbers = received(alloc, inbox);
    take_out(given, &mut numbers);
    numbers
}

/// One more, if so.
pub(crate) fn count(n: u32, more: bool) -> u32
    ensures { result ≡ if more then counted (n + 1) else n }
{
    if more && n < u32::MAX { n + 1 } else { n }
}

/// As many as that, in four bytes.
pub(crate) fn counted(n: usize) -> u32
    ensures { result ≡ counted n }
{
    if n < u32::MAX as usize {
        n as u32
    } else {
        u32::MAX
    }
}

/// How many of these entries wait to be sent.
pub(crate) fn waiting(queue: &[QueueItem]) -> u32
    ensures { result ≡ counted (count_by (λ (e : Entry). e.live) (map entry queue.now)) }
{
    let mut live = 0;
    for item in queue {
        live = count(live, item.live);
    }
    live
}

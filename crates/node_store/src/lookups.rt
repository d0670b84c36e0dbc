//! What is known of files, by the fold of a ledger. Look-ups take no memory; marks alone are walked.
ghost use Rattle.std.specs.Prelude.{◌≡◌, ◌==◌, ◌≤◌, ℕ, Bool, false, IsSome, List, Some, find, length, map, option_map, take};
ghost use Rattle.ftn_addr.specs.Address.{address};
ghost use Rattle.ftn_addr.specs.Files.{is_same};
ghost use Rattle.ftn_addr.specs.Key.{key_of as key_in};
ghost use Rattle.ledger_rec.specs.Fold.{is_among};
ghost use Rattle.ledger_rec.specs.declared.items.InboxItem.{InboxItem};
ghost use Rattle.ledger_rec.specs.declared.items.QueueItem.{QueueItem};
ghost use Rattle.disk_model.specs.World.{World};
ghost use Rattle.node_model.specs.Durable.{mark_of as mark_in};
ghost use Rattle.node_model.specs.Stocks.{known_in};
ghost use Rattle.node_model.specs.StoreWords.{part_at};
ghost use Rattle.node_store.specs.Contents.{durable_by};
ghost use Rattle.node_store.specs.Lookups.{at_mark};
ghost use Rattle.node_store.specs.Stored.{sizes_in};

use ftn_addr::{Addr, FileKey, is_same_address, is_same_key};
use ledger_rec::{Folded, InboxItem, MarkItem, QueueItem};
use node_model::{Known, PartAt};

pub(crate) fn is_same(from: &Addr, key: &FileKey, a: &Addr, k: &FileKey) -> bool
    ensures { result ≡ is_same (address from.now) (key_in key.now) (address a.now) (key_in k.now) }
{
    is_same_address(from, a) && is_same_key(key, k)
}

/// Where a sender and key stand.
pub(crate) fn known(from: &Addr, key: &FileKey, folded: &Folded) -> Known
    ensures { (tells : Bool) (w : World) (given : List ℕ) → result ≡ known_in (address from.now) (key_in key.now) (durable_by (sizes_in tells w given) folded.now.state) }
{
    if folded.is_received(from, key) {
        Known::Received
    } else if folded.is_refused(from, key) {
        Known::Refused
    } else {
        Known::New
    }
}

// The first mark of the sender and key.
fn find_mark(from: &Addr, key: &FileKey, marks: &[MarkItem]) -> Option<PartAt>
    ensures { result ≡ option_map at_mark (find (λ m. is_same (address from.now) (key_in key.now) (address m.from) (key_in m.key)) marks.now) }
{
    for mark in marks {
        if is_same(from, key, &mark.from, &mark.key) {
            return Some(PartAt {
                part: mark.part,
                len: mark.len,
            });
        }
    }
    None
}

/// The mark of a sender and key.
pub(crate) fn mark_of(from: &Addr, key: &FileKey, folded: &Folded) -> Option<PartAt>
    ensures { (tells : Bool) (w : World) (given : List ℕ) → result ≡ option_map part_at (mark_in (address from.now) (key_in key.now) (durable_by (sizes_in tells w given) folded.now.state)) }
{
    find_mark(from, key, folded.marks())
}

/// The first entry with that number, which none of the first `start` has.
pub(crate) fn entry_of(number: u32, start: usize, queue: &[QueueItem]) -> &QueueItem
    requires within { start ≤ length queue.now }
    requires none { is_among number (take start (map (λ (e : QueueItem). e.number) queue.now)) ≡ false }
    requires there { IsSome (find (λ (e : QueueItem). e.number == number) queue.now) }
    ensures { find (λ (e : QueueItem). e.number == number) queue.now ≡ Some result.now }
{
    first_entry(number, &queue[start..])
}

fn first_entry(number: u32, queue: &[QueueItem]) -> &QueueItem
    requires { IsSome (find (λ (e : QueueItem). e.number == number) queue.now) }
    ensures { find (λ (e : QueueItem). e.number == number) queue.now ≡ Some result.now }
{
    for item in queue {
        if item.number == number {
            return item;
        }
    }
    unreachable!()
}

/// The first file with that receipt, which none of the first `start` has.
pub(crate) fn receipt_of(receipt: u32, start: usize, inbox: &[InboxItem]) -> &InboxItem
    requires within { start ≤ length inbox.now }
    requires none { is_among receipt (take start (map (λ (r : InboxItem). r.receipt) inbox.now)) ≡ false }
    requires there { IsSome (find (λ (r : InboxItem). r.receipt == receipt) inbox.now) }
    ensures { find (λ (r : InboxItem). r.receipt == receipt) inbox.now ≡ Some result.now }
{
    first_receipt(receipt, &inbox[start..])
}

fn first_receipt(number: u32, inbox: &[InboxItem]) -> &InboxItem
    requires { IsSome (find (λ (r : InboxItem). r.receipt == number) inbox.now) }
    ensures { find (λ (r : InboxItem). r.receipt == number) inbox.now ≡ Some result.now }
{
    for item in inbox {
        if item.receipt == number {
            return item;
        }
    }
    unreachable!()
}

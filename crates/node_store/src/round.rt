//! Which received file comes next: the one that is given, in a round by receipts, and the request that is answered. It takes no
//! memory.
ghost use Rattle.std.specs.Prelude.{◌≡◌, ◌==◌, ◌&&◌, nat_lt, if◌then◌else◌, ℕ, List, None, Some, map, true};
ghost use Rattle.std.specs.List.{list_any};
ghost use Rattle.file_index.specs.Sets.{Kept};
ghost use Rattle.ftn_addr.specs.Address.{address};
ghost use Rattle.ledger_rec.specs.Fold.{is_among};
ghost use Rattle.ledger_rec.specs.Items.{Receipt, receipt};
ghost use Rattle.node_model.specs.Lists.{Member};
ghost use Rattle.node_store.specs.Contents.{Contents, receipt_by};
ghost use Rattle.node_store.specs.Giving.{NextLeft, NextToGive, is_above, is_below, is_kept, is_left};
ghost use Rattle.node_store.specs.Numbers.{AreDifferent};
ghost use Rattle.node_store.specs.Seeking.{NextWaiting, is_sought};
ghost use Rattle.node_store.specs.Stored.{has_receipt, stand_of};

use crate::NodeStore;
use crate::lookups::receipt_of;
use crate::sought::{Sought, is_sought};
use disk_model::Disk;
use file_index::NumberSet;
use ftn_addr::Addr;
use ledger_rec::{Folded, InboxItem};

pub(crate) fn is_given(receipt: u32, given: &[u32]) -> bool
    ensures { result ≡ is_among receipt given.now }
{
    given.iter().any(|number| *number == receipt)
}

// Whether it is looked for, and wasn't given.
fn is_left(sought: Sought<'_>, item: &InboxItem, given: &[u32]) -> bool
    ensures { result ≡ is_left (is_sought sought.entry) given.now (receipt item.now) }
{
    is_sought(sought, item) && !is_given(item.receipt, given)
}

fn is_above(number: u32, after: Option<u32>) -> bool
    ensures { result ≡ is_above after number }
{
    match after {
        Some(at) => at < number,
        None => true,
    }
}

// Whether the number is less than the least so far.
fn is_below(number: u32, least: Option<u32>) -> bool
    ensures { result ≡ is_below least number }
{
    match least {
        Some(least) => number < least,
        None => true,
    }
}

// The least so far, or that receipt where it is less, above the other and left.
fn lesser(
    sought: Sought<'_>,
    item: &InboxItem,
    given: &[u32],
    after: Option<u32>,
    least: Option<u32>,
) -> Option<u32>
    ensures { result ≡ (if is_above after item.now.receipt && (is_below least item.now.receipt && is_left (is_sought sought.entry) given.now (receipt item.now)) then Some item.now.receipt else least) }
{
    let number = item.receipt;
    if is_above(number, after) && (is_below(number, least) && is_left(sought, item, given)) {
        Some(number)
    } else {
        least
    }
}

// The least receipt above that one that is looked for and wasn't given.
fn least_left(
    sought: Sought<'_>,
    inbox: &[InboxItem],
    given: &[u32],
    after: Option<u32>,
) -> Option<u32>
    ensures { NextLeft (is_sought sought.entry) given.now (map receipt inbox.now) after result }
{
    let mut least = None;
    for item in inbox {
        least = lesser(sought, item, given, after, least);
    }
    least
}

// Whether the receipt with that number is looked for.
fn is_sought_at(sought: Sought<'_>, number: u32, folded: &Folded) -> bool
    requires there { has_receipt number folded.now.state.inbox ≡ true }
    requires numbered { AreDifferent (map (λ (r : Receipt). r.number) folded.now.state.inbox) }
    ensures { (r : Receipt) → Member r folded.now.state.inbox → r.number ≡ number → result ≡ is_sought sought.entry r }
{
    is_sought(
        sought,
        receipt_of(number, folded.inbox_start(number), folded.inbox()),
    )
}

// The least receipt above that one that is looked for and wasn't given. Where it isn't known whose files are kept, all are walked.
fn next_left(
    sought: Sought<'_>,
    after: Option<u32>,
    kept: &NumberSet,
    given: &[u32],
    folded: &Folded,
) -> Option<u32>
    requires kept { Kept kept.now (is_kept given.now folded.now.state.inbox) }
    requires numbered { AreDifferent (map (λ (r : Receipt). r.number) folded.now.state.inbox) }
    ensures { NextLeft (is_sought sought.entry) given.now folded.now.state.inbox after result }
{
    let mut passed = after;
    while let Some(next) = kept.next(passed) {
        let number = next?;
        if is_sought_at(sought, number, folded) {
            return Some(number);
        }
        passed = Some(number);
    }
    least_left(sought, folded.inbox(), given, passed)
}

impl<D: Disk> NodeStore<D> {
    /// The next received file that is to be given, in a round by receipts behind the one last given or held.
    pub(crate) fn next_given(&self) -> Option<u32>
        ensures { (c : Contents ℕ) → c.given ≡ (λ n. is_among n self.now.memory.given) → NextToGive self.now.memory.last_given (map (receipt_by c) self.now.memory.books.folding.state.inbox) result }
    {
        let folded = self.books.folded();
        let given = self.given.as_slice();
        let last = Some(self.last_given);
        match next_left(Sought::ToGive, last, &self.kept, given, folded) {
            Some(number) => Some(number),
            None => next_left(Sought::ToGive, None, &self.kept, given, folded),
        }
    }

    /// The least receipt above that one, of the requests of that sender that wait for their answer: they were neither answered nor
    /// given. It takes no memory.
    pub fn next_request(&self, from: &Addr, after: Option<u32>) -> Option<u32>
        requires { self.now.memory.broken ≡ None }
        ensures { NextWaiting (address from.now) (stand_of D.tells D.content D.fault_count D.moment D.images self.now).state.stock.state.inbox after result }
    {
        let folded = self.books.folded();
        let given = self.given.as_slice();
        next_left(Sought::RequestsOf(from), after, &self.kept, given, folded)
    }
}

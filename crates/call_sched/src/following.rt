//! Whom to call next.
ghost use Rattle.std.specs.Prelude.{◌≡◌, ◌<◌, ◌+◌, true, false, length, slice_get, take};
ghost use Rattle.std.specs.Ordering.{is_lt};
ghost use Rattle.node_model.specs.SendRows.{rank};
ghost use Rattle.call_sched.specs.NextCall.{Counts, IsNext, MayCall, item_order, last_call};
ghost use Rattle.call_sched.specs.Tries.{free_from};

use crate::tries::{Tries, address_order, free_from};
use crate::words::{Next, Try, Wanted};
use node_model::Flavour;

// Where a flavour stands, from the first to the last.
fn rank_of(flavour: Flavour) -> u8
    ensures { result ≡ rank flavour }
{
    match flavour {
        Flavour::Immediate => 0,
        Flavour::Crash => 1,
        Flavour::Direct => 2,
        Flavour::Normal => 3,
        Flavour::Hold => 4,
    }
}

fn counts(item: &Wanted) -> bool
    ensures yes { result ≡ true → Counts item.now }
    ensures no { result ≡ false → Counts item.now → ⊥ }
{
    item.callable && item.flavour != Flavour::Hold
}

// Whether an item comes before another: by flavour, by the last call of its address, and by this.
fn is_before(tries: &Tries<'_>, a: &Wanted, b: &Wanted) -> bool
    ensures { result ≡ is_lt (item_order tries.now.list.now a.now b.now) }
{
    let first = tries.last(&a.addr).unwrap_or(0);
    let second = tries.last(&b.addr).unwrap_or(0);
    rank_of(a.flavour)
        .cmp(&rank_of(b.flavour))
        .then(first.cmp(&second).then(address_order(&a.addr, &b.addr)))
        .is_lt()
}

// What comes of the items before a place and of that at the place, which may be called for.
fn with_free(now: u64, wanted: &[Wanted], tries: &Tries<'_>, before: Next, place: usize) -> Next
    requires before { IsNext now (take place wanted.now) tries.now.list.now before }
    requires place { place < length wanted.now }
    requires may { (item : Wanted) → slice_get wanted.now place ≡ Some item → MayCall now tries.now.list.now item }
    ensures { IsNext now (take (place + 1) wanted.now) tries.now.list.now result }
{
    match before {
        Next::Call(first) => {
            if is_before(tries, &wanted[place], &wanted[first]) {
                Next::Call(place)
            } else {
                before
            }
        }
        Next::WaitUntil(_) => Next::Call(place),
        Next::Nothing => Next::Call(place),
    }
}

// What comes of the items before a place and of that at the place, which counts and may be called for from a later moment on.
fn with_waiting(
    now: u64,
    wanted: &[Wanted],
    tries: &Tries<'_>,
    before: Next,
    place: usize,
    moment: u64,
) -> Next
    requires before { IsNext now (take place wanted.now) tries.now.list.now before }
    requires place { place < length wanted.now }
    requires later { now < moment }
    requires counts { (item : Wanted) → slice_get wanted.now place ≡ Some item → Counts item × (free_from (last_call tries.now.list.now item) ≡ moment) }
    ensures { IsNext now (take (place + 1) wanted.now) tries.now.list.now result }
{
    match before {
        Next::Call(_) => before,
        Next::WaitUntil(least) => Next::WaitUntil(least.min(moment)),
        Next::Nothing => Next::WaitUntil(moment),
    }
}

// What comes of the items before a place and of that at the place.
fn with_item(now: u64, wanted: &[Wanted], tries: &Tries<'_>, before: Next, place: usize) -> Next
    requires before { IsNext now (take place wanted.now) tries.now.list.now before }
    requires place { place < length wanted.now }
    ensures { IsNext now (take (place + 1) wanted.now) tries.now.list.now result }
{
    let item = &wanted[place];
    if !counts(item) {
        return before;
    }
    let moment = free_from(tries.last(&item.addr));
    if moment <= now {
        with_free(now, wanted, tries, before, place)
    } else {
        with_waiting(now, wanted, tries, before, place, moment)
    }
}

/// Whose turn it is at a moment, in seconds since the start of 1970.
///
/// An item counts where it is callable and not of the flavour hold. It may be called for where its address has no try, or the last
/// is [`PAUSE`](crate::PAUSE) seconds ago. Of these the least by flavour, last try (0 for none), address and place is the next;
/// where items count and none may be called for, nobody is before the first moment at which one may. It takes no memory, and
/// searches the tries by halves where they stand by address and then by moment.
pub fn next_call(now: u64, wanted: &[Wanted], tries: &[Try]) -> Next
    ensures { IsNext now wanted.now tries.now result }
{
    let tries = Tries::new(tries);
    let mut next = Next::Nothing;
    for place in 0..wanted.len() {
        next = with_item(now, wanted, &tries, next, place);
    }
    next
}

//! When an address was called last.
ghost use Rattle.std.specs.Prelude.{◌≡◌, ℕ, true};
ghost use Rattle.ftn_addr.specs.Address.{address};
ghost use Rattle.call_sched.specs.Tries.{Rising, address_order, free_from, last_try, try_order};

use crate::words::{PAUSE, Try};
use ftn_addr::{Addr, is_same_address};
use std::cmp::Ordering;

/// From when on an address may be called that was called last then.
pub(crate) fn free_from(last: Option<u64>) -> u64
    ensures { result ≡ free_from last }
{
    match last {
        Some(at) => at.saturating_add(PAUSE),
        None => 0,
    }
}

/// Addresses by zone, net, node, point and domain.
pub(crate) fn address_order(a: &Addr, b: &Addr) -> Ordering
    ensures { result ≡ address_order (address a.now) (address b.now) }
{
    a.cmp(b)
}

fn order(a: &Try, b: &Try) -> Ordering
    ensures { result ≡ try_order a.now b.now }
{
    address_order(&a.addr, &b.addr).then(a.at.cmp(&b.at))
}

fn is_rising(tries: &[Try]) -> bool
    ensures { result ≡ true → Rising tries.now }
{
    for place in 1..tries.len() {
        if order(&tries[place - 1], &tries[place]).is_gt() {
            return false;
        }
    }
    true
}

// The last moment of an address, one call after another.
fn last_in_any(tries: &[Try], addr: &Addr) -> Option<u64>
    ensures { result ≡ last_try tries.now (address addr.now) }
{
    let mut last = None;
    for made in tries {
        if is_same_address(&made.addr, addr) {
            last = Some(made.at.max(last.unwrap_or(0)));
        }
    }
    last
}

// The last moment of an address among calls in order, by halves: it stands before the first of a later address.
fn last_in_order(tries: &[Try], addr: &Addr) -> Option<u64>
    requires { Rising tries.now }
    ensures { result ≡ last_try tries.now (address addr.now) }
{
    let mut low = 0;
    let mut high = tries.len();
    while low < high {
        let middle = low + (high - low) / 2;
        if address_order(&tries[middle].addr, addr).is_gt() {
            high = middle;
        } else {
            low = middle + 1;
        }
    }
    if low == 0 {
        return None;
    }
    let made = &tries[low - 1];
    if is_same_address(&made.addr, addr) {
        Some(made.at)
    } else {
        None
    }
}

/// The calls that were made, searched by halves where they are in order.
#[derive(Drop)]
pub(crate) struct Tries<'a> {
    list: &'a [Try],
    is_rising: bool,
    ghost rising: { is_rising ≡ true → Rising list.now },
}

impl<'a> Tries<'a> {
    pub(crate) fn new(list: &'a [Try]) -> Tries<'a>
        ensures { result.list.now ≡ list.now }
    {
        let is_rising = is_rising(list);
        Tries { list, is_rising }
    }

    /// The last moment at which an address was called.
    pub(crate) fn last(&self, addr: &Addr) -> Option<u64>
        ensures { result ≡ last_try self.now.list.now (address addr.now) }
    {
        if self.is_rising {
            last_in_order(self.list, addr)
        } else {
            last_in_any(self.list, addr)
        }
    }
}

//! The next take that stands for an address.
ghost use Rattle.std.specs.Prelude.{◌≡◌, ◌≤◌, ◌++◌, ◌∷◌, [], ℕ, List, Some, map};
ghost use Rattle.ftn_addr.specs.Address.{Address, address};
ghost use Rattle.ftn_addr.specs.declared.limits.TheConstants.{MAX_NUMBER};
ghost use Rattle.node_model.specs.Lists.{Each};
ghost use Rattle.node_store.specs.declared.takes.TakeName.{TakeName as TakeIn};
ghost use Rattle.outbound_model.specs.OwnNames.{number_of};
ghost use Rattle.outbound_take.specs.Calls.{FirstFor, next_above};
ghost use Rattle.outbound_take.specs.Plans.{Answers};
ghost use Rattle.outbound_take.specs.Stand.{Left};
ghost use Rattle.outbound_store.specs.Held.{left_of};

use crate::own::{is_for, kind_of};
use ftn_addr::Addr;
use node_store::TakeName;
use outbound_take::TakeLeft;

// A number in four bytes is at most the greatest.
fn fits_four(number: u32)
    ensures { number ≤ MAX_NUMBER }
{
    let _number = number;
}

fn is_above(take: u32, above: Option<u32>) -> bool
    ensures { Answers (next_above above ≤ take) result }
{
    match above {
        Some(above) => above < take,
        None => true,
    }
}

// The take, where it is for that address, and its number is above that one.
fn left_for(dest: &Addr, above: Option<u32>, taken: &TakeName) -> Option<TakeLeft>
    requires { number_of taken.now.own ≡ taken.now.take }
    ensures { FirstFor (address dest.now) (next_above above) result (left_of taken.now ∷ []) }
{
    if !is_above(taken.take, above) {
        return None;
    }
    if !is_for(dest, &taken.own) {
        return None;
    }
    fits_four(taken.take);
    match kind_of(&taken.own) {
        Some(kind) => Some(TakeLeft {
            take: taken.take,
            own: taken.own,
            kind,
            recorded: taken.recorded,
        }),
        None => None,
    }
}

// That with the lesser number.
fn nearer_one(near: TakeLeft, other: Option<TakeLeft>) -> TakeLeft
    ensures { (dest : Address) (from : ℕ) (left more : List Left) → FirstFor dest from (Some near) left → FirstFor dest from other more → FirstFor dest from (Some result) (left ++ more) }
{
    match other {
        None => near,
        Some(more) => { if more.take < near.take { more } else { near } }
    }
}

fn nearer(first: Option<TakeLeft>, other: Option<TakeLeft>) -> Option<TakeLeft>
    ensures { (dest : Address) (from : ℕ) (left more : List Left) → FirstFor dest from first left → FirstFor dest from other more → FirstFor dest from result (left ++ more) }
{
    match first {
        None => other,
        Some(near) => Some(nearer_one(near, other)),
    }
}

/// The take with the least number of those for an address that have a number above that one.
pub(crate) fn first_left(dest: &Addr, above: Option<u32>, takes: &[TakeName]) -> Option<TakeLeft>
    requires { Each (λ (t : TakeIn). number_of t.own ≡ t.take) takes.now }
    ensures { FirstFor (address dest.now) (next_above above) result (map left_of takes.now) }
{
    let mut first = None;
    for taken in takes {
        first = nearer(first, left_for(dest, above, taken));
    }
    first
}

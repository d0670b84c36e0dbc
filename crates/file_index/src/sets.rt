//! Numbers in order.
ghost use Rattle.std.specs.Prelude.{◌≡◌, ◌==◌, ◌&&◌, ◌||◌, ℕ, Bool, true, false, not, IfSome};
ghost use Rattle.std.specs.List.{list_any};
ghost use Rattle.file_index.specs.Sets.{is_in, Kept, NextNumber};

use std::alloc::Global;
use std::collections::BTreeSet;
use std::ops::Bound;

/// A set of numbers, in their order.
#[derive(Debug, Drop)]
pub struct NumberSet {
    numbers: BTreeSet<u32>,
    whole: bool,
}

// The least of these numbers above that one, or the least of all.
fn least_above(numbers: &BTreeSet<u32>, after: Option<u32>) -> Option<u32>
    ensures { NextNumber (λ n. list_any (λ m. n == m) numbers.now.keys) after result }
{
    match after {
        None => match numbers.first() {
            Some(number) => Some(*number),
            None => None,
        },
        Some(at) => match numbers
            .range((Bound::Excluded(at), Bound::Unbounded))
            .next()
        {
            Some(number) => Some(*number),
            None => None,
        },
    }
}

impl NumberSet {
    /// The set without a number, which takes no memory.
    pub fn new(alloc: Global) -> NumberSet
        ensures { Kept result (λ n. false) }
    {
        NumberSet {
            numbers: BTreeSet::new(alloc),
            whole: true,
        }
    }

    /// The least number above that one, or the least of all; none where the set isn't whole.
    pub fn next(&self, after: Option<u32>) -> Option<Option<u32>>
        ensures { (p : ℕ → Bool) → Kept self.now p → IfSome result (λ next. NextNumber p after next) }
    {
        if self.whole {
            Some(least_above(&self.numbers, after))
        } else {
            None
        }
    }

    /// Notes a number. Where there is no memory for it, the set isn't whole any more.
    pub fn note(&mut self, number: u32)
        ensures { (p : ℕ → Bool) → Kept self.old p → Kept self.new (λ n. p n || n == number) }
    {
        if self.whole {
            match self.numbers.insert(number) {
                Ok(_) => (),
                Err(_) => self.whole = false,
            }
        }
    }

    /// Takes a number out. It takes no memory.
    pub fn remove(&mut self, number: u32)
        ensures { (p : ℕ → Bool) → Kept self.old p → Kept self.new (λ n. p n && not (n == number)) }
    {
        self.numbers.remove(&number);
    }
}

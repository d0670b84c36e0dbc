//! Turns by address.
ghost use Rattle.std.specs.Prelude.{◌≡◌, ◌&&◌, ◌||◌, Bool, true, false, not, Some, OnOk, IfSome};
ghost use Rattle.ftn_addr.specs.Address.{Address, address, same_address};
ghost use Rattle.file_index.specs.Turns.{has_turn, same_turn, waits, NextTurn, Turns};

use ftn_addr::{Addr, NoMemory};
use std::alloc::Global;
use std::collections::{BTreeMap, BTreeSet};
use std::ops::Bound;

/// Who comes when: by rank, and then by number.
#[derive(Clone, Copy, Debug, PartialEq, Eq, PartialOrd, Ord)]
pub struct Turn {
    pub rank: u8,
    pub number: u32,
}

/// The turns that wait for each address, in their order.
#[derive(Debug, Drop)]
pub struct TurnIndex {
    alloc: Global,
    turns: BTreeMap<Addr, BTreeSet<Turn>>,
    whole: bool,
}

// The first of these turns behind that one, or the first of all.
fn first_past(turns: &BTreeSet<Turn>, after: Option<Turn>) -> Option<Turn>
    ensures { NextTurn (λ t. has_turn (Some turns.now) t) after result }
{
    match after {
        None => match turns.first() {
            Some(turn) => Some(*turn),
            None => None,
        },
        Some(at) => match turns.range((Bound::Excluded(at), Bound::Unbounded)).next() {
            Some(turn) => Some(*turn),
            None => None,
        },
    }
}

impl TurnIndex {
    /// The index in which none waits, which takes no memory.
    pub fn new(alloc: Global) -> TurnIndex
        ensures { Turns result (λ _ _. false) }
    {
        TurnIndex {
            alloc,
            turns: BTreeMap::new(alloc),
            whole: true,
        }
    }

    /// The first turn of an address behind that one, or the first of all; none where the index isn't whole.
    pub fn next(&self, to: &Addr, after: Option<Turn>) -> Option<Option<Turn>>
        ensures { (p : Address → Turn → Bool) → Turns self.now p → IfSome result (λ next. NextTurn (p (address to.now)) after next) }
    {
        if self.whole {
            Some(self.first_for(to, after))
        } else {
            None
        }
    }

    fn first_for(&self, to: &Addr, after: Option<Turn>) -> Option<Turn>
        ensures { NextTurn (waits self.now.turns.entries (address to.now)) after result }
    {
        match self.turns.get(to) {
            Some(turns) => first_past(turns, after),
            None => None,
        }
    }

    /// Notes a turn that waits. Where there is no memory for it, the index isn't whole any more.
    pub fn note(&mut self, to: &Addr, turn: Turn)
        ensures { (p : Address → Turn → Bool) → Turns self.old p → Turns self.new (λ a t. p a t || (same_address a (address to.now) && same_turn t turn)) }
    {
        if self.whole {
            match self.put(to, turn) {
                Ok(()) => (),
                Err(_) => self.whole = false,
            }
        }
    }

    fn put(&mut self, to: &Addr, turn: Turn) -> Result<(), NoMemory>
        ensures noted { OnOk result ((a : Address) (t : Turn) → waits self.new.turns.entries a t ≡ waits self.old.turns.entries a t || (same_address a (address to.now) && same_turn t turn)) }
        ensures same { self.new.whole ≡ self.old.whole }
    {
        match self.turns.get_mut(to) {
            Some(turns) => {
                turns.insert(turn)?;
            }
            None => {
                let mut turns = BTreeSet::new(self.alloc);
                turns.insert(turn)?;
                self.turns.insert(to.copy(self.alloc)?, turns)?;
            }
        }
        Ok(())
    }

    /// Takes a turn out. It takes no memory.
    pub fn remove(&mut self, to: &Addr, turn: Turn)
        ensures { (p : Address → Turn → Bool) → Turns self.old p → Turns self.new (λ a t. p a t && not (same_address a (address to.now) && same_turn t turn)) }
    {
        match self.turns.get_mut(to) {
            Some(turns) => {
                turns.remove(&turn);
            }
            None => {}
        }
    }
}

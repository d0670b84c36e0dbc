//! A standing mark that is made longer.
ghost use Rattle.std.specs.Prelude.{◌≡◌, ◌&&◌, ℕ, nat_lt};
ghost use Rattle.ledger_rec.specs.Fold.{may_mark};
ghost use Rattle.ledger_rec.specs.Indexed.{Agrees};
ghost use Rattle.ledger_rec.specs.Lists.{state_of, HasRoom};
ghost use Rattle.ledger_rec.specs.Lengthen.{Lengthens};
ghost use Rattle.ledger_rec.specs.Order.{IsOrderly};
ghost use Rattle.ledger_rec.specs.Record.{mark};

use crate::changes::put_longer;
use crate::lists::Lists;
use crate::rules::{may_mark, standing_at};
use crate::{Folded, MarkRec};

/// What became of a mark that was to be made longer.
#[derive(Clone, Copy, Debug, PartialEq, Eq)]
pub enum Lengthened {
    /// It has the length of the record.
    Longer,
    /// No mark of that part, sender and key stands. Nothing changed.
    NoMark,
    /// The record breaks a rule of the fold: its length is less than the mark's, or more than the size.
    /// Nothing changed.
    BadFold,
}

// Whether the record keeps the rules.
fn is_step(rec: &MarkRec, lists: &Lists) -> bool
    requires { Agrees lists.now.index (state_of lists.now) }
    ensures { result ≡ (nat_lt 0 rec.now.part && may_mark (mark rec.now) (state_of lists.now)) }
{
    rec.part > 0 && may_mark(rec, lists)
}

// Folds the mark into the lists.
fn put(rec: &MarkRec, lists: &mut Lists) -> Lengthened
    requires agrees { Agrees lists.old.index (state_of lists.old) }
    requires orderly { IsOrderly (state_of lists.old) }
    ensures step { Lengthens result (mark rec.now) (state_of lists.old) (state_of lists.new) }
    ensures agrees { Agrees lists.new.index (state_of lists.new) }
    ensures room { (n : ℕ) → HasRoom n lists.old → HasRoom n lists.new }
{
    let Some(place) = standing_at(rec, lists.marks.as_slice()) else {
        return Lengthened::NoMark;
    };
    if !is_step(rec, lists) {
        return Lengthened::BadFold;
    }
    put_longer(rec, place, lists);
    Lengthened::Longer
}

impl Folded {
    /// Folds a mark in whose part is marked already, for the same sender and key. It takes neither memory
    /// nor room.
    pub fn lengthen(&mut self, rec: &MarkRec) -> Lengthened
        ensures step { Lengthens result (mark rec.now) self.old.state self.new.state }
        ensures holds { self.new.holds ≡ self.old.holds }
        ensures room { self.new.room ≡ self.old.room }
    {
        put(rec, &mut self.lists)
    }
}

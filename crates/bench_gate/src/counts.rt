//! The value of the bench.
ghost use Rattle.std.specs.Prelude.{◌≡◌, ◌≢◌, ◌+◌, ◌<◌, ◌%◌, ◌^◌, ℕ, []};
ghost use Rattle.bench_gate.specs.Counting.{count_of, no_turns, IsCountTurn};

use std::fmt;
use turn_gate::Grows;

/// How many turns each of four seats made. Its list is empty, and a seat's part is its count.
#[derive(Clone, Copy, Debug, Default, Drop, PartialEq, Eq)]
pub struct Counts {
    pub first: u64,
    pub second: u64,
    pub third: u64,
    pub fourth: u64,
}

impl Grows for Counts {
    ghost use Rattle.std.proofs.Common.{inl, refl};

    type State = Counts;

    type Entry = ();

    type Part = u64;

    ghost state = { λ c. c };

    ghost blank = { no_turns };

    ghost entries = { λ s. [] };

    ghost length_of = { λ s. 0 };

    ghost by = { λ e. 0 };

    ghost part = { λ k s. count_of s k };

    ghost turn = { IsCountTurn };

    fn grown(&self) -> u64 {
        0
    }

    ghost told_whole_or_not = { λ x. inl refl };

    ghost turn_is_own = { λ seat a b turn. turn };
}

impl Counts {
    /// Counts a turn of a seat below 4. A count that has reached its end starts again.
    pub fn count(&mut self, seat: u32)
        requires { seat < 4 }
        ensures own { count_of self.new seat ≡ (count_of self.old seat + 1) % 2 ^ 64 }
        ensures others { (k : ℕ) → k ≢ seat → count_of self.new k ≡ count_of self.old k }
    {
        match seat {
            0 => self.first = self.first.wrapping_add(1),
            1 => self.second = self.second.wrapping_add(1),
            2 => self.third = self.third.wrapping_add(1),
            _ => self.fourth = self.fourth.wrapping_add(1),
        }
    }
}

impl fmt::Display for Counts {
    fn fmt<W: fmt::Write>(&self, f: &mut fmt::Formatter<W>) -> fmt::Result {
        let Counts {
            first,
            second,
            third,
            fourth,
        } = self;
        write!(f, "{first} {second} {third} {fourth} turns")
    }
}

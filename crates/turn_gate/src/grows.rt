//! What the gate asks of a value.
ghost use Rattle.std.specs.Prelude.{◌≡◌, ◌⊎◌, ℕ, List, [], length};
ghost use Rattle.turn_gate.specs.Turns.{IsTurn};

/// A value with a list that only grows, in which each entry names the seat that made it.
pub trait Grows {
    /// What the value is, as plain data. No value of it is made.
    type State;
    /// An entry of the list. No value of it is made.
    type Entry;
    /// What belongs to one seat. No value of it is made.
    type Part;

    /// The state of a value.
    ghost state: { Self → Self.State };

    /// Some state; which one doesn't matter.
    ghost blank: { Self.State };

    /// The list of a state; empty where the value doesn't tell it.
    ghost entries: { Self.State → List Self.Entry };

    /// How many entries a state has, told or not.
    ghost length_of: { Self.State → ℕ };

    /// The seat that made an entry.
    ghost by: { Self.Entry → ℕ };

    /// What belongs to a seat in a state.
    ghost part: { ℕ → Self.State → Self.Part };

    /// What a turn of a seat may do to a state: a rule of the value's own, or `IsTurn entries by part` where it has none.
    ghost turn: { ℕ → Self.State → Self.State → Type 0 };

    /// How many entries there are. Takes no memory.
    fn grown(&self) -> u64
        ensures { result ≡ length_of (state self.now) };

    /// The list is told whole, or not at all.
    ghost told_whole_or_not: { (x : Self.State) → (length (entries x) ≡ length_of x) ⊎ (entries x ≡ []) };

    /// A turn appends entries of its seat alone, and changes no other seat's part.
    ghost turn_is_own: { (seat : ℕ) (a b : Self.State) → turn seat a b → IsTurn entries by part seat a b };
}

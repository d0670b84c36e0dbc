//! A desk that goes from seat to seat of its hub.
ghost use Rattle.std.specs.Prelude.{◌≡◌, ℕ, true};
ghost use Rattle.node_model.specs.Calls.{counts_of};
ghost use Rattle.node_model.specs.Desks.{PartTold};
ghost use Rattle.shared_desk.specs.Seen.{IsOwn, OneHub, SeatTurn, Sight, SitsAt, Within};

use node_model::Desk;
use turn_gate::Grows;

/// A desk over a hub that it owns, which goes from seat to seat. Behind a gate each visitor goes to its own seat first.
pub trait Roams: Desk + Grows {
    /// How the seats see a hub in a state.
    ghost sight: { Sight Self.State };

    /// Where it sits.
    ghost at: { Self → ℕ };

    /// Goes to a seat. Takes no memory.
    fn sit(&mut self, seat: u32)
        requires { (sight).ready seat (Self.state self.old) }
        ensures ready { Self.ready self.new }
        ensures state { Self.state self.new ≡ Self.state self.old }
        ensures at { at self.new ≡ seat };

    /// Reads its store's counts, which so fit 64 bits. Takes no memory.
    fn read_counts(&self)
        ensures { (k : ℕ) → Within (counts_of ((sight).knows k (Self.state self.now))) };

    /// No other seat steps while it has its hub.
    ghost is_alone: { Self.alone ≡ true };

    /// All seats see one hub.
    ghost one_hub: { OneHub sight };

    /// What it tells is what its seat sees of the hub.
    ghost sits: { (d : Self) → Self.ready d → SitsAt sight (at d) (Self.state d) (Self.stand d) (Self.Desk.part d) };

    /// Its calls are its seat's own.
    ghost own: { (d e : Self) → Self.ready d → Self.ready e → Self.rule d e → IsOwn sight (at d) (Self.state d) (at e) (Self.state e) };

    /// The part of a ready seat is that of its session in the node that it sees.
    ghost tied_at: { (k : ℕ) (x : Self.State) → (sight).ready k x → PartTold ((sight).part k x) k ((sight).knows k x) };

    /// A turn of a seat may be made at the gate.
    ghost is_turn: { (k : ℕ) (a b : Self.State) → SeatTurn sight k a b → Self.turn k a b };

    /// And no other turn may.
    ghost turn_is: { (k : ℕ) (a b : Self.State) → Self.turn k a b → SeatTurn sight k a b };
}

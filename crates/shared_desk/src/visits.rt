//! One turn of a seat at its gate.
ghost use Rattle.std.specs.Prelude.{◌≡◌, ℕ, ◌+◌};
ghost use Rattle.node_model.specs.Calls.{counts_of};
ghost use Rattle.turn_gate.specs.Passes.{HasTurn, IsFree, view};
ghost use Rattle.shared_desk.specs.Seen.{Found, SeatTurn, Within};

use crate::roams::Roams;
use std::sync::Wait;
use turn_gate::{Gate, Held, Pass};

/// Comes in, and goes to the pass's seat. Since it was last there other seats alone made turns. It may wait for ever, as
/// [`Gate::enter`] may. Takes no memory.
pub fn come<W: Wait, V: Roams>(rt: &W, gate: &Gate<V>, pass: &mut Pass<V>) -> Held<V>
    requires free { IsFree gate.now pass.old }
    requires ready { (V.sight).ready (view pass.old).seat (view pass.old).left }
    ensures has_turn { HasTurn gate.now pass.new result.count }
    ensures taken { (view pass.new).taken ≡ V.state result.value }
    ensures seat { (view pass.new).seat ≡ (view pass.old).seat }
    ensures turns { (view pass.new).turns ≡ (view pass.old).turns }
    ensures ready { V.ready result.value }
    ensures at { V.at result.value ≡ (view pass.old).seat }
    ensures part { V.Desk.part result.value ≡ (V.sight).part (view pass.old).seat (view pass.old).left }
    ensures found { Found V.sight (view pass.old).seat (view pass.old).left (V.state result.value) }
    ensures within { (k : ℕ) → Within (counts_of ((V.sight).knows k (V.state result.value))) }
{
    let mut held = gate.enter(rt, pass);
    held.value.read_counts();
    held.value.sit(pass.seat());
    held
}

/// Leaves, with one turn made. Takes no memory.
pub fn go<V: Roams>(held: Held<V>, gate: &Gate<V>, pass: &mut Pass<V>)
    requires has_turn { HasTurn gate.now pass.old held.count }
    requires turn { SeatTurn V.sight (view pass.old).seat (view pass.old).taken (V.state held.value) }
    ensures free { IsFree gate.now pass.new }
    ensures left { (view pass.new).left ≡ V.state held.value }
    ensures seat { (view pass.new).seat ≡ (view pass.old).seat }
    ensures turns { (view pass.new).turns ≡ (view pass.old).turns + 1 }
{
    held.leave(gate, pass);
}

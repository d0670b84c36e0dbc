//! A gate is closed once all its passes are here.
ghost use Rattle.std.specs.Prelude.{◌≡◌, ℕ, Some, length, slice_get, vec_len};
ghost use Rattle.turn_gate.specs.Passes.{opening, seats_of};
ghost use Rattle.turn_gate.specs.Turns.{ByTurns};
ghost use Rattle.shared_desk.specs.Seen.{Found, SeatTurn};
ghost use Rattle.session_threads.specs.Held.{IsNamed};
ghost use Rattle.session_threads.specs.Lent.{AllHere, IsLast, IsPassHere};
ghost use Rattle.session_threads.specs.Slots.{Rests_here};

use crate::slots::{Slot, Slots};
use binkp_link::Line;
use shared_desk::{GateName, Roams};
use turn_gate::{Gate, Pass};

// All passes, in the order of their seats.
fn take_home<L: Line + Drop, V: Roams + Drop, G: GateName>(slots: Slots<L, V, G>) -> Vec<Pass<V>>
    requires { AllHere slots }
    ensures all { vec_len result ≡ length slots }
    ensures each { (k : ℕ) (p : _) → slice_get result.items k ≡ Some p → IsPassHere V.sight G.table slots k p }
{
    let Slots { slots, mut home } = slots;
    for slot in slots {
        match slot {
            Slot::Idle(pass) => home.push_reserved(pass),
            Slot::Lent | Slot::Runs(_) => unreachable!(),
        }
    }
    home
}

/// Closes the gate once no session runs and no pass is taken out, and gives its value back. Its state was reached by turns of seats, and
/// from what each pass left by turns of others. Takes no memory.
pub fn close<L: Line + Drop, V: Roams + Drop, G: GateName>(
    gate: Gate<V>,
    slots: Slots<L, V, G>,
) -> V
    requires named { IsNamed G.table gate }
    requires seats { length slots ≡ seats_of gate }
    requires here { AllHere slots }
    ensures reached { ByTurns (SeatTurn V.sight) (opening V.state gate) (V.state result) }
    ensures last { IsLast (opening V.state gate) slots (V.state result) }
    ensures found { (k : ℕ) (left : V.State) → slice_get slots k ≡ Some (Rests_here left) → Found V.sight k left (V.state result) }
{
    gate.close(take_home(slots))
}

//! What is proved of every hub that seats share behind a gate.
ghost use Rattle.std.specs.Prelude.{ℕ};
ghost use Rattle.node_model.specs.Calls.{Answer, Call, Made};
ghost use Rattle.node_model.specs.Node.{Node};
ghost use Rattle.turn_gate.specs.Turns.{ByOthers};
ghost use Rattle.shared_desk.specs.Records.{LogsOn, OwnLog};
ghost use Rattle.shared_desk.specs.Seen.{Found, SeatTurn};

use crate::roams::Roams;

/// Turns of other seats are steps of others to a seat: behind them it is ready if it was, and its part is the one that it
/// left. It does nothing.
pub fn turns_of_others_are_steps_of_others<V: Roams>()
    ensures { (k : ℕ) (a b : V.State) → ByOthers (SeatTurn V.sight) k a b → Found V.sight k a b }
{}

/// In a turn of a seat the log goes on with records of that seat alone: of calls that were made or refused, and of one in
/// which the disk failed. It does nothing.
pub fn records_of_a_turn_are_its_seats<V: Roams>()
    ensures { (k : ℕ) (a b : V.State) → SeatTurn V.sight k a b → LogsOn k ((V.sight).knows k a) ((V.sight).knows k b) }
{}

/// The records of a call that is made name no session but the one that its seat has open. It does nothing.
pub fn records_of_a_call_are_its_sessions()
    ensures { (seat : ℕ) (old : Node) (call : Call) (answer : Answer) (new : Node) → Made seat old call answer new → OwnLog seat old old.log new.log }
{}

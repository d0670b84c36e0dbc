//! A law of leaving a desk.
ghost use Rattle.std.specs.Prelude.{ℕ};
ghost use Rattle.node_model.specs.Calls.{Leave_call, NodeStep, Settled};
ghost use Rattle.node_model.specs.Node.{Node};
ghost use Rattle.node_model.specs.Sound.{IsSound};
ghost use Rattle.session_run.specs.Resumption.{IsMarked};

/// A session that leaves a sound node, which answers Ok, has a mark with all the bytes that came of the file that it
/// holds. So the next session goes on from there.
pub fn leaving_marks_what_came()
    ensures { (seat : ℕ) (old new : Node) → IsSound old → NodeStep seat old Leave_call Settled new → IsMarked seat old new }
{}

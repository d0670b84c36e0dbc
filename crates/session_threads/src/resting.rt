//! A seat that is left before a session begins there.
ghost use Rattle.std.specs.Prelude.{◌≡◌, IfErr, IfOk};
ghost use Rattle.node_model.specs.Calls.{Refused, Settled};
ghost use Rattle.node_model.specs.Desks.{fault_of};
ghost use Rattle.session_threads.specs.Held.{IsHome, IsNamed};
ghost use Rattle.session_threads.specs.Resting.{IsLeft, rests};

use node_model::{Desk, DeskFault};
use shared_desk::{GateDesk, GateName, Roams};
use std::sync::Wait;
use turn_gate::{Gate, Pass};

/// Leaves the seat of a pass, in a turn of its own, so that a session may begin there. Where the store is broken it may not.
pub fn rest<W: Wait, V: Roams, G: GateName>(
    rt: &W,
    gate: &Gate<V>,
    pass: Pass<V>,
) -> Result<Pass<V>, (Pass<V>, DeskFault)>
    requires named { IsNamed G.table gate.now }
    requires home { IsHome V.sight G.table pass }
    ensures left { IfOk result (λ left. IsLeft V.sight G.table pass Settled left) }
    ensures rests { IfOk result (λ left. rests V.sight left) }
    ensures refused { IfErr result (λ r. IsLeft V.sight G.table pass (Refused (fault_of r.1)) r.0) }
{
    let mut desk = GateDesk::<W, V, G>::new(rt, gate, pass);
    let answer = desk.leave();
    let pass = desk.into_pass();
    match answer {
        Ok(()) => Ok(pass),
        Err(fault) => Err((pass, fault)),
    }
}

//! A session in its thread.
ghost use Rattle.mail_conf.specs.ConfView.{conf_text};
ghost use Rattle.session_threads.specs.Held.{CanHold, IsHeld};

use crate::desk::StallDesk;
use crate::ended::Ended;
use crate::handing::Lends;
use crate::sessions::{Begun, Done};
use crate::stalls::{StallPoint, Stalls};
use binkp_link::Line;
use mail_conf::Conf;
use session_run::run_session;
use shared_desk::{GateDesk, GateName, Roams};
use std::alloc::Global;
use std::sync::Wait;
use turn_gate::{Gate, Grows};

/// What all sessions at a gate share. It is taken apart once they have ended, and the gate is closed then.
#[derive(Drop)]
pub struct Shared<W, V: Grows, T> {
    pub rt: W,
    pub alloc: Global,
    pub gate: Gate<V>,
    pub conf: Box<Conf>,
    pub ended: Ended,
    pub stalls: T,
}

impl<W, V: Grows, T> Lends for Shared<W, V, T> {
    type Value = Shared<W, V, T>;

    ghost lent = { λ shared. shared };

    fn lend(&self) -> &Shared<W, V, T> {
        self
    }
}

/// Holds a session at the seat of its pass, from its first turn to the close of its line, and then tells that it ended.
pub fn hold<W: Wait, L: Line, V: Roams, G: GateName, T: Stalls>(
    shared: &Shared<W, V, T>,
    begun: Begun<L, V>,
) -> Done<L, V>
    requires { CanHold L.state V.sight G.table shared.now.gate (conf_text shared.now.conf.value) begun }
    ensures { IsHeld L.state V.sight G.table (conf_text shared.now.conf.value) begun result }
{
    let Begun {
        place,
        side,
        challenge,
        moment,
        mut line,
        pass,
    } = begun;
    shared.stalls.at(&shared.rt, place, StallPoint::Start);
    let mut desk = StallDesk {
        desk: GateDesk::<W, V, G>::new(&shared.rt, &shared.gate, pass),
        stalls: &shared.stalls,
        line: place,
    };
    let report = run_session(
        shared.alloc,
        side,
        &mut line,
        &mut desk,
        &shared.conf,
        challenge,
        moment,
    );
    shared.stalls.at(&shared.rt, place, StallPoint::End);
    let pass = desk.into_pass();
    shared.ended.tell(&shared.rt, &pass);
    Done { report, line, pass }
}

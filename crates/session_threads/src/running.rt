//! Sessions that are begun with the passes of slots, and end there.
ghost use Rattle.std.specs.Prelude.{◌≡◌, Some, IfNone, IfSome, slice_get, slice_set};
ghost use Rattle.mail_conf.specs.ConfView.{conf_text};
ghost use Rattle.turn_gate.specs.Passes.{view};
ghost use Rattle.session_threads.specs.Asked.{Tells_runs};
ghost use Rattle.session_threads.specs.Held.{CanHold, IsHeld, begun_so};
ghost use Rattle.session_threads.specs.Kept.{Promised};
ghost use Rattle.session_threads.specs.Lent.{IsIdle, IsOver};
ghost use Rattle.session_threads.specs.Slots.{Is_with, Taken_out};

use crate::holding::Shared;
use crate::over::Over;
use crate::sessions::{Begun, Done, HeldWhole};
use crate::slots::{InThread, Slot, Slots, replaced};
use crate::stalls::Stalls;
use crate::starting::start;
use binkp_link::Line;
use shared_desk::{GateName, Roams};
use std::sync::Wait;
use std::thread::{PromisedHandle, Scope, Threads};

// Whether a session has the pass of a seat.
fn runs<L: Line + Drop, V: Roams + Drop, G: GateName>(slots: &[Slot<L, V, G>], seat: u32) -> bool
    ensures { Tells_runs (slice_get slots.now seat) result }
{
    match slots.get(seat as usize) {
        Some(Slot::Runs(_)) => true,
        Some(Slot::Lent | Slot::Idle(_)) | None => false,
    }
}

// Waits for a thread to end.
fn wait<R: Threads, L: Line, V: Roams, G: GateName>(
    rt: &R,
    handle: PromisedHandle<Done<L, V>, HeldWhole<L, V, G>>,
) -> Done<L, V>
    ensures { IsHeld L.state V.sight G.table (conf_text handle.promise.conf.value) handle.promise.begun.value result }
{
    handle.join(rt)
}

// Waits for the session to end.
fn join<R: Threads, L: Line + Drop, V: Roams + Drop, G: GateName>(
    rt: &R,
    run: InThread<L, V, G>,
) -> Done<L, V>
    requires { Promised L.state V.sight G.table (λ handle. handle.promise) run.was run.thread }
    ensures { IsHeld L.state V.sight G.table (conf_text run.was.conf.value) run.was.begun.value result }
{
    let InThread { was, thread, .. } = run;
    drop(was);
    match thread {
        Ok(handle) => wait(rt, handle),
        Err(done) => done,
    }
}

impl<L: Line + Drop, V: Roams + Drop, G: GateName> Slots<L, V, G> {
    /// Begins a session with a pass that was taken out, in a thread of the scope. Where no thread can be made it is held here, and
    /// is over; it ends like any other.
    pub fn begin<'s, E, W: Wait + Sync + 's, T: Stalls + Sync + 's>(
        &mut self,
        shared: &'s Shared<W, V, T>,
        scope: &Scope<'s, E>,
        begun: Begun<L, V>,
    )
    where
        L: Send + 's,
        V: Send + 's,
        G: Send + 's,
        requires can { CanHold L.state V.sight G.table shared.now.gate (conf_text shared.now.conf.value) begun }
        requires out { slice_get self.old (view begun.pass).seat ≡ Some Taken_out }
        ensures { self.new ≡ slice_set self.old (view begun.pass).seat (Is_with (begun_so L.state (conf_text shared.now.conf.value) begun)) }
    {
        let seat = begun.pass.seat();
        let place = begun.place;
        let was = HeldWhole::new(&begun, &shared.conf);
        let thread = start(shared, scope, begun);
        let run = InThread { place, was, thread };
        drop(replaced(&mut self.slots, seat, Slot::Runs(run)));
    }

    /// Waits for the session of a seat to end, where one runs there, and puts its pass back.
    pub fn end<R: Threads>(&mut self, rt: &R, seat: u32) -> Option<Over<L>>
        ensures over { IfSome result (λ over. IsOver L.state V.sight seat self.old over self.new) }
        ensures none { IfNone result (self.new ≡ self.old) }
        ensures idle { IfNone result (IsIdle self.old seat) }
    {
        if !runs(self.slots.as_slice(), seat) {
            return None;
        }
        match replaced(&mut self.slots, seat, Slot::Lent) {
            Slot::Runs(running) => {
                let place = running.place;
                let Done { report, line, pass } = join(rt, running);
                drop(replaced(&mut self.slots, seat, Slot::Idle(pass)));
                Some(Over {
                    place,
                    report,
                    line,
                })
            }
            Slot::Lent | Slot::Idle(_) => unreachable!(),
        }
    }
}

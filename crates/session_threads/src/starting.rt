//! A session in a thread of its own.
ghost use Rattle.std.specs.Prelude.{◌≡◌, IfErr, IfOk};
ghost use Rattle.mail_conf.specs.ConfView.{conf_text};
ghost use Rattle.session_threads.specs.Held.{CanHold, IsHeld};

use crate::holding::{Shared, hold};
use crate::sessions::{Begun, Done, HeldWhole};
use crate::stalls::Stalls;
use crate::tasks::{Task, spawn};
use binkp_link::Line;
use shared_desk::{GateName, Roams};
use std::marker::PhantomData;
use std::sync::Wait;
use std::thread::{PromisedHandle, Scope};
use turn_gate::Grows;

/// A session that is to be held.
#[derive(Drop)]
struct Session<'s, W, L, V: Grows, G, T> {
    shared: &'s Shared<W, V, T>,
    begun: Begun<L, V>,
    of: PhantomData<G>,
}

impl<'s, W: Wait, L: Line, V: Roams, G: GateName, T: Stalls> Task for Session<'s, W, L, V, G, T> {
    type Done = Done<L, V>;

    ghost can_run = { λ s. CanHold L.state V.sight G.table s.shared.now.gate (conf_text s.shared.now.conf.value) s.begun };

    ghost gives = { λ s done. IsHeld L.state V.sight G.table (conf_text s.shared.now.conf.value) s.begun done };

    fn run(self) -> Done<L, V> {
        let Session {
            shared,
            begun,
            of: _,
        } = self;
        hold::<W, L, V, G, T>(shared, begun)
    }
}

/// Holds a session in a thread of the scope. Where no thread can be made it is held here, and is over.
pub fn start<
    's,
    E,
    W: Wait + Sync + 's,
    L: Line + Send + Drop + 's,
    V: Roams + Send + Drop + 's,
    G: GateName + Send + 's,
    T: Stalls + Sync + 's,
>(
    shared: &'s Shared<W, V, T>,
    scope: &Scope<'s, E>,
    begun: Begun<L, V>,
) -> Result<PromisedHandle<Done<L, V>, HeldWhole<L, V, G>>, Done<L, V>>
    requires { CanHold L.state V.sight G.table shared.now.gate (conf_text shared.now.conf.value) begun }
    ensures thread { IfOk result (λ handle. (handle.promise.begun.value ≡ begun) × (handle.promise.conf.value ≡ shared.now.conf.value)) }
    ensures here { IfErr result (λ done. IsHeld L.state V.sight G.table (conf_text shared.now.conf.value) begun done) }
{
    let promise = HeldWhole::new(&begun, &shared.conf);
    let session: Session<'s, W, L, V, G, T> = Session {
        shared,
        begun,
        of: PhantomData,
    };
    spawn(scope, promise, session)
}

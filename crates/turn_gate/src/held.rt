//! A value while it is handed out.
ghost use Rattle.std.specs.Prelude.{◌≡◌};
ghost use Rattle.turn_gate.specs.Passes.{view, IsFree, HasTurn};
ghost use Rattle.turn_gate.specs.Views.{after_publish, after_release};

use crate::gate::Gate;
use crate::grows::Grows;
use crate::pass::Pass;
use crate::steps::{Publish, Release};
use crate::view::Counted;

/// The value, handed out. It borrows nothing, and it has no `Drop`: it must be spent by [`Held::leave`], so
/// a body that lets it go is refused.
pub struct Held<T> {
    pub value: T,
    pub(crate) count: u64,
}

impl<T: Grows> Held<T> {
    /// Gives the value back, as one turn of the pass's seat. Gate and pass are those that handed it out. Takes no
    /// memory, and waits for nobody.
    pub fn leave(self, gate: &Gate<T>, pass: &mut Pass<T>)
        requires has_turn { HasTurn gate.now pass.old self.count }
        requires turn { T.turn (view pass.old).seat (view pass.old).taken (T.state self.value) }
        ensures free { IsFree gate.now pass.new }
        ensures left { view pass.new ≡ after_release (after_publish (view pass.old) (T.state self.value)) }
    {
        let Held { value, count } = self;
        let seen = value.grown();
        let next = count + 1;
        let home = Some(Counted { value, count: next });
        let shared = &gate.table.shared;
        shared.compare_exchange_with::<Publish<T>>(&mut pass.token, 1, count, next, &home);
        match shared.exchange(&mut pass.token, 0, home) {
            None => {}
            Some(_) => unreachable!(),
        }
        shared.swap::<Release<T>>(&mut pass.token, 0, 0);
        pass.seen = seen;
    }
}

//! The rule of the gate's table. These types are for the proofs alone.
ghost use Rattle.std.specs.Prelude.{[]};
ghost use Rattle.turn_gate.specs.Rule.{IsKept};
ghost use Rattle.turn_gate.specs.Views.{keeper_view};

use crate::grows::Grows;
use crate::view::{Counted, View};
use atomic_table::TableRule;
use std::marker::PhantomData;
use std::snapshot::Snapshot;

/// What a gate was made with: the value as it was, and the number of seats.
#[derive(Drop)]
pub struct Opening<T> {
    pub value: Snapshot<T>,
    pub seats: u32,
}

/// The rule: what holds of the words, the slot and all views between any two steps.
pub struct GateRule<T> {
    of: PhantomData<T>,
}

impl<T: Grows> TableRule<Option<Counted<T>>, View<T::State>, Opening<T>> for GateRule<T> {
    ghost holds = { λ o. IsKept T.state T.turn (T.state o.value.value) o.seats };

    ghost first = { λ o. keeper_view (T.state o.value.value) 0 [] };
}

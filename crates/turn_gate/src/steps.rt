//! What each kind of step tells the seat that makes it. These types are for the proofs alone.
ghost use Rattle.turn_gate.specs.Steps.{Acquires, Publishes, FindsSpent, Releases};
ghost use Rattle.turn_gate.specs.Views.{after_split, new_view, after_join, ended_view};

use crate::grows::Grows;
use crate::view::{Counted, View};
use atomic_table::{Join, Play, Split};
use std::marker::PhantomData;

/// The turn is asked for, and is won or lost.
pub struct Acquire<T> {
    of: PhantomData<T>,
}

impl<T: Grows> Play<Option<Counted<T>>, View<T::State>> for Acquire<T> {
    ghost then = { Acquires T.state T.turn };
}

/// The turn is counted, and from then on the new state is the current one.
pub struct Publish<T> {
    of: PhantomData<T>,
}

impl<T: Grows> Play<Option<Counted<T>>, View<T::State>> for Publish<T> {
    ghost then = { Publishes T.state };
}

/// The count stays where it ends.
pub struct FindSpent<T> {
    of: PhantomData<T>,
}

impl<T: Grows> Play<Option<Counted<T>>, View<T::State>> for FindSpent<T> {
    ghost then = { FindsSpent };
}

/// The turn is given back, with the value.
pub struct Release<T> {
    of: PhantomData<T>,
}

impl<T: Grows> Play<Option<Counted<T>>, View<T::State>> for Release<T> {
    ghost then = { Releases };
}

/// The keeper gives a seat out.
pub struct SplitSeat<T> {
    of: PhantomData<T>,
}

impl<T: Grows> Split<View<T::State>> for SplitSeat<T> {
    ghost left = { after_split };

    ghost right = { λ v. new_view v.left v.next };
}

/// The keeper takes a pass in.
pub struct JoinSeat<T> {
    of: PhantomData<T>,
}

impl<T: Grows> Join<View<T::State>> for JoinSeat<T> {
    ghost both = { after_join };

    ghost spent = { ended_view T.blank };
}

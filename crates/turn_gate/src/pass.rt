//! A pass: the right of one seat to enter.
ghost use Rattle.std.specs.Prelude.{◌≡◌, ℕ, [], ◌∷◌, slice_index_or};
ghost use Rattle.turn_gate.specs.Views.{as_keeper};

use crate::grows::Grows;
use crate::view::{Counted, View};
use atomic_table::{Badge, Seat};

/// The right of one seat to enter. Contracts see it as its [`View`].
///
/// The first pass carries the keeper, the seat at the table that takes all passes in when the gate closes.
#[derive(Drop)]
pub struct Pass<T: Grows> {
    pub(crate) seat: u32,
    pub(crate) seen: u64,
    pub(crate) token: Seat<Option<Counted<T>>, View<T::State>>,
    pub(crate) keeper: Badge<View<T::State>>,
    ghost numbered: { (seat ≡ token.me.0.seat) × (seen ≡ T.length_of token.me.0.left) },
    ghost keeps: { token.me.0.seat ≡ 0 → (keeper.table_id ≡ token.table_id) × (keeper.views ≡ as_keeper (slice_index_or keeper.views 0 token.me.0) ∷ []) },
}

impl<T: Grows> Pass<T> {
    ghost use Rattle.turn_gate.specs.Passes.{view};

    /// How many entries the list has that this pass has seen. Takes no memory.
    pub fn seen(&self) -> u64
        ensures { result ≡ T.length_of (view self.now).left }
    {
        self.seen
    }

    /// Its seat, counted from 0. Takes no memory.
    pub fn seat(&self) -> u32
        ensures { result ≡ (view self.now).seat }
    {
        self.seat
    }
}

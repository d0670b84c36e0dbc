//! Seats at the gate's table: given out when a gate is made, and taken in when it closes.
ghost use Rattle.std.specs.Prelude.{◌≡◌, ◌≢◌, ℕ, ◌+◌, ◌<◌, ◌≤◌, true, false, [], ◌∷◌, ◌++◌, All, Contains, length, map, slice_index_or, vec_len};
ghost use Rattle.turn_gate.specs.Passes.{view};
ghost use Rattle.turn_gate.specs.Seats.{IsNewAt, IsIdleAt};
ghost use Rattle.turn_gate.specs.Views.{as_keeper, keeper_view, new_view, joined_of};

use crate::grows::Grows;
use crate::pass::Pass;
use crate::rule::{GateRule, Opening};
use crate::steps::{JoinSeat, SplitSeat};
use crate::view::{Counted, View};
use atomic_table::{Badge, Seat, Shared};

// A pass of a seat other than the first.
fn later_pass<T: Grows>(
    seat: u32,
    seen: u64,
    token: Seat<Option<Counted<T>>, View<T::State>>,
) -> Pass<T>
    requires seat { (0 < seat) × (seat ≡ token.me.0.seat) }
    requires seen { seen ≡ T.length_of token.me.0.left }
    ensures { result.token ≡ token }
{
    Pass {
        seat,
        seen,
        token,
        keeper: Badge::blank(),
    }
}

// The pass of the first seat, which carries the keeper.
fn first_pass<T: Grows>(
    seen: u64,
    token: Seat<Option<Counted<T>>, View<T::State>>,
    keeper: Seat<Option<Counted<T>>, View<T::State>>,
) -> Pass<T>
    requires seat { token.me.0.seat ≡ 0 }
    requires seen { seen ≡ T.length_of token.me.0.left }
    requires keeper { (keeper.table_id ≡ token.table_id) × (keeper.me ≡ (as_keeper keeper.me.0, [])) }
    ensures { result.token ≡ token }
{
    Pass {
        seat: 0,
        seen,
        token,
        keeper: keeper.into_badge(),
    }
}

// Gives out so many seats, in order. The first pass carries the keeper.
pub(crate) fn give_out<T: Grows>(
    shared: &Shared<Option<Counted<T>>, View<T::State>, Opening<T>, GateRule<T>>,
    mut keeper: Seat<Option<Counted<T>>, View<T::State>>,
    passes: &mut Vec<Pass<T>>,
    seen: u64,
    seats: u32,
)
    requires table { (keeper.table_id ≡ shared.now.table_id) × (0 < shared.now.table_id.words) × (keeper.me ≡ (keeper_view keeper.me.0.left 0 [], [])) }
    requires seats { (0 < seats) × (seats ≤ shared.now.key.seats) }
    requires room { (passes.old.items ≡ []) × (seats ≤ passes.old.cap) }
    requires seen { seen ≡ T.length_of keeper.me.0.left }
    ensures passes { (vec_len passes.new ≡ seats) × ((k : ℕ) (d : _) → k < seats → IsNewAt shared.now.table_id keeper.me.0.left k (slice_index_or passes.new.items k d).token.table_id (slice_index_or passes.new.items k d).token.me) }
{
    let first = shared.split_seat::<SplitSeat<T>>(&mut keeper);
    for seat in 1..seats {
        let token = shared.split_seat::<SplitSeat<T>>(&mut keeper);
        passes.push_reserved(later_pass(seat, seen, token));
    }
    match passes.insert(0, first_pass(seen, first, keeper)) {
        Ok(()) => {}
        Err(_) => unreachable!(),
    }
}

// Where the first pass stands.
pub(crate) fn first_of<T: Grows>(passes: &[Pass<T>]) -> usize
    requires { Contains (map (λ p. (view p).seat) passes.now) 0 }
    ensures place { result < length passes.now }
    ensures first { (d : _) → (view (slice_index_or passes.now result d)).seat ≡ 0 }
{
    for at in 0..passes.len() {
        if passes[at].seat == 0 {
            return at;
        }
    }
    unreachable!()
}

// Takes these passes in.
pub(crate) fn take_in<T: Grows>(
    shared: &Shared<Option<Counted<T>>, View<T::State>, Opening<T>, GateRule<T>>,
    keeper: &mut Seat<Option<Counted<T>>, View<T::State>>,
    passes: Vec<Pass<T>>,
)
    requires table { (keeper.old.table_id ≡ shared.now.table_id) × (0 < shared.now.table_id.words) × (keeper.old.me ≡ (keeper_view keeper.old.me.0.left keeper.old.me.0.next keeper.old.me.0.joined, [])) }
    requires idle { All (λ p. IsIdleAt shared.now.table_id p.token.table_id p.token.me) passes.items }
    ensures same { (keeper.new.table_id ≡ keeper.old.table_id) × (keeper.new.id ≡ keeper.old.id) }
    ensures took { keeper.new.me ≡ (keeper_view keeper.old.me.0.left keeper.old.me.0.next (keeper.old.me.0.joined ++ map (λ p. joined_of (view p)) passes.items), []) }
{
    for pass in passes {
        let Pass { token, .. } = pass;
        shared.join_seat::<JoinSeat<T>>(keeper, token);
    }
}

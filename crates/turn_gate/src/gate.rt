//! The gate: opening, entering, closing.
ghost use Rattle.std.specs.Prelude.{◌≡◌, ◌≢◌, ℕ, ◌+◌, ◌<◌, true, false, [], ◌∷◌, length, IfOk, IfErr, List, map, All, vec_len, slice_index_or, ◌≤◌, Contains};

use crate::grows::Grows;
use crate::held::Held;
use crate::no_turn::NoTurn;
use crate::pass::Pass;
use crate::rule::{GateRule, Opening};
use crate::seats::{first_of, give_out, take_in};
use crate::steps::{Acquire, FindSpent, JoinSeat, Release};
use crate::view::{Counted, View};
use atomic_table::{Refused, Seat, Table};
use std::alloc::{AllocError, Global};
use std::snapshot::Snapshot;
use std::sync::Wait;
use std::thread;

/// A value behind a gate. Threads share it by `&`. Letting it go lets the value go; [`Gate::close`] gives it back.
#[derive(Drop)]
pub struct Gate<T: Grows> {
    pub(crate) table: Table<Option<Counted<T>>, View<T::State>, Opening<T>, GateRule<T>, Global>,
    ghost sized: { (table.shared.table_id.words ≡ 2) × (table.shared.table_id.slots ≡ 1) },
    ghost some_seat: { 0 < table.shared.key.seats },
}

impl<T: Grows> Gate<T> {
    ghost use Rattle.turn_gate.specs.Passes.{view, opening, seats_of, IsFree, HasTurn, IsNew, AreAll, IsLastLeft, Waited, after_refusal};
    ghost use Rattle.turn_gate.specs.Turns.{ByOthers, ByTurns, IsContinued};
    ghost use Rattle.turn_gate.specs.Views.{after_acquire, after_spent, after_release};
    ghost use Rattle.turn_gate.specs.Rule.{last_number};

    /// A gate with the value behind it, and a pass for each of 1 to 256 seats, in order. Where there is no memory,
    /// the value comes back.
    pub fn new(
        alloc: Global,
        value: T,
        seats: u32,
    ) -> Result<(Gate<T>, Vec<Pass<T>>), (T, AllocError)>
        requires seats { (0 < seats) × (seats ≤ 256) }
        ensures gate { IfOk result (λ r. (opening T.state r.0 ≡ T.state value) × (seats_of r.0 ≡ seats)) }
        ensures passes { IfOk result (λ r. (vec_len r.1 ≡ seats) × ((k : ℕ) (d : _) → k < seats → IsNew r.0 k (slice_index_or r.1.items k d))) }
        ensures no_memory { IfErr result (λ r. r.0 ≡ value) }
    {
        let Ok(mut passes) = Vec::with_capacity(alloc, seats as usize) else {
            return Err((value, AllocError));
        };
        let Ok(mut slots) = Vec::with_capacity(alloc, 1) else {
            return Err((value, AllocError));
        };
        let seen = value.grown();
        let about = Opening {
            value: Snapshot::of(&value),
            seats,
        };
        slots.push_reserved(Some(Counted { value, count: 0 }));
        match Table::new(alloc, &[0, 0], slots, &about) {
            Ok((table, keeper)) => {
                give_out(&table.shared, keeper, &mut passes, seen, seats);
                Ok((Gate { table }, passes))
            }
            Err(Refused { mut slots }) => match slots.pop() {
                Some(Some(Counted { value, count: _ })) => {
                    slots.destroy_empty();
                    Err((value, AllocError))
                }
                _ => unreachable!(),
            },
        }
    }

    /// Hands the value out once nobody else has it. It may wait for ever, and does where no more turns can be
    /// counted. Takes no memory.
    pub fn enter<W: Wait>(&self, rt: &W, pass: &mut Pass<T>) -> Held<T>
        requires free { IsFree self.now pass.old }
        ensures has_turn { HasTurn self.now pass.new result.count }
        ensures held { Waited (after_acquire (view pass.old) (T.state result.value) result.count) (view pass.new) }
        ensures reached { ByOthers T.turn (view pass.old).seat (view pass.old).left (T.state result.value) }
        ensures continued { IsContinued T.entries T.by T.part (view pass.old).seat (view pass.old).left (T.state result.value) }
    {
        for _ in rt.forever() {
            match self.try_enter(pass) {
                Ok(held) => return held,
                Err(NoTurn::Busy) => thread::yield_now(),
                Err(NoTurn::Spent) => break,
            }
        }
        for _ in rt.forever() {
            thread::yield_now();
        }
        unreachable!()
    }

    /// Hands the value out if nobody else has it. It waits for nobody, and takes no memory.
    ///
    /// Busy where this call's one exchange found the turn taken; Spent where 2^64 - 1 turns were made.
    pub fn try_enter(&self, pass: &mut Pass<T>) -> Result<Held<T>, NoTurn>
        requires free { IsFree self.now pass.old }
        ensures has_turn { IfOk result (λ held. HasTurn self.now pass.new held.count) }
        ensures held { IfOk result (λ held. view pass.new ≡ after_acquire (view pass.old) (T.state held.value) held.count) }
        ensures reached { IfOk result (λ held. ByOthers T.turn (view pass.old).seat (view pass.old).left (T.state held.value)) }
        ensures continued { IfOk result (λ held. IsContinued T.entries T.by T.part (view pass.old).seat (view pass.old).left (T.state held.value)) }
        ensures free { IfErr result (λ why. IsFree self.now pass.new) }
        ensures refused { IfErr result (λ why. view pass.new ≡ after_refusal why (view pass.old)) }
    {
        let mine = u64::from(pass.seat) + 1;
        let shared = &self.table.shared;
        let found = shared.compare_exchange::<Acquire<T>>(&mut pass.token, 0, 0, mine);
        if found != 0 {
            return Err(NoTurn::Busy);
        }
        match shared.exchange(&mut pass.token, 0, None) {
            Some(Counted { value, count }) => {
                if count == u64::MAX {
                    self.put_back(pass, value);
                    return Err(NoTurn::Spent);
                }
                Ok(Held { value, count })
            }
            None => unreachable!(),
        }
    }

    // Notes that no more turns can be counted, and gives the turn back with nothing done.
    fn put_back(&self, pass: &mut Pass<T>, value: T)
        requires gate { pass.old.token.table_id ≡ self.now.table.shared.table_id }
        requires held { ((view pass.old).live ≡ true) × ((view pass.old).holds ≡ true) × ((view pass.old).number ≡ last_number) × (pass.old.token.me.1 ≡ (0, None) ∷ []) }
        requires same { T.state value ≡ (view pass.old).taken }
        ensures same { pass.new.token.table_id ≡ pass.old.token.table_id }
        ensures left { pass.new.token.me ≡ (after_release (after_spent (view pass.old)), []) }
    {
        let shared = &self.table.shared;
        shared.swap::<FindSpent<T>>(&mut pass.token, 1, u64::MAX);
        let home = Some(Counted {
            value,
            count: u64::MAX,
        });
        match shared.exchange(&mut pass.token, 0, home) {
            None => {}
            Some(_) => unreachable!(),
        }
        shared.swap::<Release<T>>(&mut pass.token, 0, 0);
    }

    /// Takes all passes in, and gives the value back. Takes no memory.
    pub fn close(self, mut passes: Vec<Pass<T>>) -> T
        requires all { AreAll self passes.items }
        ensures reached { ByTurns T.turn (opening T.state self) (T.state result) }
        ensures by_others { All (λ p. ByOthers T.turn (view p).seat (view p).left (T.state result)) passes.items }
        ensures continued { All (λ p. IsContinued T.entries T.by T.part (view p).seat (view p).left (T.state result)) passes.items }
        ensures last { IsLastLeft (opening T.state self) (T.state result) passes.items }
    {
        let at = first_of(passes.as_slice());
        let Gate { table } = self;
        let Pass { token, keeper, .. } = passes.remove(at);
        let mut keeper: Seat<Option<Counted<T>>, View<T::State>> = keeper.into_seat();
        table.shared.join_seat::<JoinSeat<T>>(&mut keeper, token);
        take_in(&table.shared, &mut keeper, passes);
        let mut closed = table.close_with(keeper);
        match closed.take(0) {
            Some(Counted { value, count: _ }) => {
                closed.free();
                value
            }
            None => unreachable!(),
        }
    }
}

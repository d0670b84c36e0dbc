//! The passes of a gate, each in the slot of its seat.
ghost use Rattle.std.specs.Prelude.{◌≡◌, ℕ, ◌<◌, Some, IfErr, IfNone, IfOk, IfSome, length, replicate, slice_get, slice_index_or, slice_set, vec_len};
ghost use Rattle.turn_gate.specs.Passes.{IsNew, opening, view};
ghost use Rattle.session_threads.specs.Asked.{Tells_idle};
ghost use Rattle.session_threads.specs.Held.{IsHome, IsNamed};
ghost use Rattle.session_threads.specs.Lent.{IsElsewhere, IsLent};
ghost use Rattle.session_threads.specs.Slots.{Rests_here, Taken_out};

use crate::sessions::{Done, HeldWhole};
use binkp_link::Line;
use shared_desk::{GateName, Roams};
use std::alloc::Global;
use std::marker::Model;
use std::mem;
use std::thread::PromisedHandle;
use turn_gate::{Gate, Pass};

/// A session that runs in a thread, or that there was no thread for, and which is over.
#[derive(Drop)]
pub(crate) struct InThread<L: Line + Drop, V: Roams + Drop, G: GateName> {
    pub place: u32,
    pub was: HeldWhole<L, V, G>,
    pub thread: Result<PromisedHandle<Done<L, V>, HeldWhole<L, V, G>>, Done<L, V>>,
}

/// Where the pass of a seat is.
#[derive(Drop)]
pub(crate) enum Slot<L: Line + Drop, V: Roams + Drop, G: GateName> {
    /// It was taken out.
    Lent,
    Idle(Pass<V>),
    Runs(InThread<L, V, G>),
}

/// Puts a value at a place, and gives the one that stood there.
pub(crate) fn replaced<S>(items: &mut Vec<S>, place: u32, item: S) -> S
    requires { place < length items.old.items }
    ensures was { slice_get items.old.items place ≡ Some result }
    ensures is { items.new.items ≡ slice_set items.old.items place item }
{
    mem::replace(&mut items[place as usize], item)
}

// Whether the pass of a seat is here.
fn is_idle<L: Line + Drop, V: Roams + Drop, G: GateName>(slots: &[Slot<L, V, G>], seat: u32) -> bool
    ensures { Tells_idle (slice_get slots.now seat) result }
{
    match slots.get(seat as usize) {
        Some(Slot::Idle(_)) => true,
        Some(Slot::Lent | Slot::Runs(_)) | None => false,
    }
}

/// The passes of the gate of that name, each in the slot of its seat, or with the session that has it.
#[derive(Drop)]
pub struct Slots<L: Line + Drop, V: Roams + Drop, G: GateName> {
    pub(crate) slots: Vec<Slot<L, V, G>>,
    // Empty, with room for all passes.
    pub(crate) home: Vec<Pass<V>>,
}

impl<L: Line + Drop, V: Roams + Drop, G: GateName> Model for Slots<L, V, G> {
    ghost use Rattle.std.specs.Prelude.{List, map};
    ghost use Rattle.session_threads.specs.Slots.{Whereabouts};

    ghost Value = { List (Whereabouts V.State) };

    ghost use Rattle.session_threads.specs.Kept.{KeepsAll, whereabouts};

    ghost view = { λ s. map (whereabouts L.state) s.slots.items };

    ghost invariant = { λ s. KeepsAll L.state V.sight G.table s.slots.items s.home.items s.home.cap };
}

impl<L: Line + Drop, V: Roams + Drop, G: GateName> Slots<L, V, G> {
    /// The passes of a gate that was just made, each in the slot of its seat. Where there is no memory, they come back.
    pub fn new(
        alloc: Global,
        gate: &Gate<V>,
        passes: Vec<Pass<V>>,
    ) -> Result<Slots<L, V, G>, Vec<Pass<V>>>
        requires named { IsNamed G.table gate.now }
        requires new { (k : ℕ) (d : _) → k < vec_len passes → IsNew gate.now k (slice_index_or passes.items k d) }
        requires ready { (k : ℕ) → k < vec_len passes → (V.sight).ready k (opening V.state gate.now) }
        ensures slots { IfOk result (λ slots. slots ≡ replicate (vec_len passes) (Rests_here (opening V.state gate.entry.now))) }
        ensures no_memory { IfErr result (λ back. back ≡ passes) }
    {
        let Ok(mut slots) = Vec::with_capacity(alloc, passes.len()) else {
            return Err(passes);
        };
        let Ok(home) = Vec::with_capacity(alloc, passes.len()) else {
            return Err(passes);
        };
        for pass in passes {
            slots.push_reserved(Slot::Idle(pass));
        }
        Ok(Slots { slots, home })
    }

    /// How many seats there are.
    pub fn len(&self) -> usize
        ensures { result ≡ length self.now }
    {
        self.slots.len()
    }

    /// Takes the pass of a seat out, where it is here.
    pub fn lend(&mut self, seat: u32) -> Option<Pass<V>>
        ensures some { IfSome result (λ pass. IsLent V.sight G.table seat self.old pass self.new) }
        ensures none { IfNone result (self.new ≡ self.old) }
        ensures elsewhere { IfNone result (IsElsewhere self.old seat) }
    {
        if !is_idle(self.slots.as_slice(), seat) {
            return None;
        }
        match replaced(&mut self.slots, seat, Slot::Lent) {
            Slot::Idle(pass) => Some(pass),
            Slot::Lent | Slot::Runs(_) => unreachable!(),
        }
    }

    /// Puts a pass back that was taken out.
    pub fn put_back(&mut self, pass: Pass<V>)
        requires home { IsHome V.sight G.table pass }
        requires out { slice_get self.old (view pass).seat ≡ Some Taken_out }
        ensures { self.new ≡ slice_set self.old (view pass).seat (Rests_here (view pass).left) }
    {
        let seat = pass.seat();
        drop(replaced(&mut self.slots, seat, Slot::Idle(pass)));
    }
}

//! Which sessions have ended.
ghost use Rattle.std.specs.Prelude.{◌≡◌, ◌<◌, ◌++◌, ◌∷◌, [], vec_len};
ghost use Rattle.turn_gate.specs.Passes.{view};

use std::alloc::{AllocError, Global};
use std::sync::{Condvar, Mutex, Wait};
use turn_gate::{Grows, Pass};

/// The seats whose sessions have ended, each once, until they are taken. They are data: nothing is said of what stands under a lock, so
/// whoever takes a seat asks whether a session ran there.
#[derive(Drop)]
pub struct Ended {
    seats: Mutex<Vec<u32>>,
    some: Condvar,
}

// The seat of the pass is added, for which there is room.
fn note<V: Grows>(seats: &mut Vec<u32>, pass: &Pass<V>)
    ensures { vec_len seats.old < seats.old.cap → seats.new.items ≡ seats.old.items ++ (view pass.now).seat ∷ [] }
{
    match seats.push(pass.seat()) {
        Ok(()) => {}
        Err(_) => {}
    }
}

impl Ended {
    /// With room for that many seats, so that no other call takes memory.
    pub fn new(alloc: Global, seats: u32) -> Result<Ended, AllocError> {
        Ok(Ended {
            seats: Mutex::new(Vec::with_capacity(alloc, seats as usize)?),
            some: Condvar::new(),
        })
    }

    /// The session that had this pass has ended.
    pub fn tell<W: Wait, V: Grows>(&self, rt: &W, pass: &Pass<V>) {
        note(&mut self.seats.lock(rt), pass);
        self.some.notify_one();
    }

    /// A seat whose session has ended, where there is one.
    pub fn take<W: Wait>(&self, rt: &W) -> Option<u32> {
        self.seats.lock(rt).pop()
    }

    /// The same once there is one. It may wait for ever.
    pub fn wait<W: Wait>(&self, rt: &W) -> u32 {
        let mut seats = self
            .some
            .wait_while(rt, self.seats.lock(rt), |seats| seats.is_empty());
        match seats.pop() {
            Some(seat) => seat,
            None => unreachable!(),
        }
    }
}

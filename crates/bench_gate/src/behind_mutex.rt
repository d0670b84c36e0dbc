//! Turns behind a mutex of the standard library.
ghost use Rattle.std.specs.Prelude.{◌<◌, ◌≤◌};

use crate::counts::Counts;
use std::alloc::{AllocError, Global};
use std::sync::{Mutex, Wait};
use std::thread;
use std::thread::Threads;

/// Makes so many turns by each of 1 to 4 threads, and gives the counts.
pub fn by_mutex<R: Threads + Wait + Sync>(
    rt: &R,
    alloc: Global,
    threads: u32,
    turns: u32,
) -> Result<Counts, AllocError>
    requires { (0 < threads) × (threads ≤ 4) }
{
    let counts = Mutex::new(Counts::default());
    thread::map_indices(
        rt,
        alloc,
        threads as usize,
        &|at: usize|
            requires { at < 4 }
        { visits(rt, &counts, at as u32, turns) },
    )?;
    Ok(*counts.lock(rt))
}

/// Makes so many turns.
fn visits<W: Wait>(rt: &W, counts: &Mutex<Counts>, seat: u32, turns: u32)
    requires { seat < 4 }
{
    for _ in 0..turns {
        counts.lock(rt).count(seat);
    }
}

//! Turns behind a turn gate.
ghost use Rattle.std.specs.Prelude.{◌≡◌, ◌+◌, ◌<◌, ◌≤◌, ℕ, All, IfOk, length, slice_index_or, vec_len};
ghost use Rattle.bench_gate.specs.Counting.{count_of};
ghost use Rattle.turn_gate.specs.Passes.{view, IsFree, AreInOrder, seats_of};

use crate::counts::Counts;
use std::alloc::{AllocError, Global};
use std::sync::Wait;
use std::thread;
use std::thread::Threads;
use turn_gate::{Gate, Pass};

/// Makes so many turns by each of 1 to 4 threads, and gives the counts.
pub fn by_gate<R: Threads + Wait + Sync>(
    rt: &R,
    alloc: Global,
    threads: u32,
    turns: u32,
) -> Result<Counts, AllocError>
    requires { (0 < threads) × (threads ≤ 4) }
    ensures { IfOk result (λ counts. (k : ℕ) → k < threads → count_of counts k ≡ turns) }
{
    let (gate, mut passes) = match Gate::new(alloc, Counts::default(), threads) {
        Ok(made) => made,
        Err((_, no_memory)) => return Err(no_memory),
    };
    visits_by_all(rt, &gate, passes.as_mut_slice(), threads, turns);
    Ok(closed(gate, passes, turns))
}

// Makes so many turns by each pass, in a thread of its own.
fn visits_by_all<R: Threads + Wait + Sync>(
    rt: &R,
    gate: &Gate<Counts>,
    passes: &mut [Pass<Counts>],
    threads: u32,
    turns: u32,
)
    requires threads { 0 < threads }
    requires new { All (λ p. IsFree gate.now p × ((view p).seat < 4) × (count_of (view p).left (view p).seat ≡ 0)) passes.old }
    ensures free { (k : ℕ) (d : _) → k < length passes.old → IsFree gate.now (slice_index_or passes.new k d) × ((view (slice_index_or passes.new k d)).seat ≡ (view (slice_index_or passes.old k d)).seat) }
    ensures counted { (k : ℕ) (d : _) → k < length passes.old → count_of (view (slice_index_or passes.new k d)).left (view (slice_index_or passes.new k d)).seat ≡ turns }
{
    thread::for_each_mut(
        rt,
        passes,
        threads as usize,
        &|_, pass: &mut Pass<Counts>|
            requires { IsFree gate.now pass.old × ((view pass.old).seat < 4) × (count_of (view pass.old).left (view pass.old).seat ≡ 0) }
            ensures { IsFree gate.entry.now pass.new × ((view pass.new).seat ≡ (view pass.old).seat) × (count_of (view pass.new).left (view pass.new).seat ≡ turns) }
        { visits(rt, gate, pass, turns) },
    );
}

// Makes so many turns.
fn visits<W: Wait>(rt: &W, gate: &Gate<Counts>, pass: &mut Pass<Counts>, turns: u32)
    requires free { IsFree gate.now pass.old }
    requires seat { (view pass.old).seat < 4 }
    requires new { count_of (view pass.old).left (view pass.old).seat ≡ 0 }
    ensures free { IsFree gate.now pass.new }
    ensures seat { (view pass.new).seat ≡ (view pass.old).seat }
    ensures counted { count_of (view pass.new).left (view pass.new).seat ≡ turns }
{
    let seat = pass.seat();
    for _made in 0..turns {
        let mut held = gate.enter(rt, pass);
        held.value.count(seat);
        held.leave(gate, pass);
    }
}

// Closes a gate whose passes stand in order, and have made so many turns each.
fn closed(gate: Gate<Counts>, passes: Vec<Pass<Counts>>, turns: u32) -> Counts
    requires order { AreInOrder gate passes.items }
    requires counted { All (λ p. count_of (view p).left (view p).seat ≡ turns) passes.items }
    ensures { (k : ℕ) → k < seats_of gate → count_of result k ≡ turns }
{
    gate.close(passes)
}

//! How fast threads make turns on one value, behind a turn gate or a mutex of the standard library, for `bench/gate`.
//!
//! ```text
//! bench_gate gate|mutex THREADS TURNS    lets so many threads, 1 to 4, make so many turns each, and tells how many each made
//! ```
//!
//! With a `+` between, several are done one behind the other. Left out: the clock.
#![tactic(auto)]

ghost use Rattle.std.specs.Prelude.{◌<◌, ◌≤◌};

mod behind_gate;
mod behind_mutex;
mod counts;
mod words;

use anyhow::{Result, bail};
use behind_gate::by_gate;
use behind_mutex::by_mutex;
use counts::Counts;
use std::alloc::Global;
use std::sync::Wait;
use std::thread::Threads;
use words::{count, threads, word, words_of};

// Lets threads make turns behind a gate or a mutex: how many each made.
fn made<R: Threads + Wait + Sync>(
    rt: &R,
    alloc: Global,
    lock: &str,
    threads: u32,
    turns: u32,
) -> Result<Counts>
    requires { (0 < threads) × (threads ≤ 4) }
{
    let counts = match lock {
        "gate" => by_gate(rt, alloc, threads, turns),
        "mutex" => by_mutex(rt, alloc, threads, turns),
        _ => bail!("neither gate nor mutex"),
    };
    Ok(counts?)
}

// The same by their words.
fn turns<R: Threads + Wait + Sync>(rt: &R, alloc: Global, words: &[String]) -> Result<Counts> {
    let (threads, turns) = (threads(words, 1)?, count(words, 2)?);
    made(rt, alloc, word(words, 0)?, threads, turns)
}

fn main(rt: HostRuntime) -> Result<()> {
    let words = words_of(&rt)?;
    for part in words.as_slice().split(|word| word.as_str() == "+") {
        let counts = turns(&rt, rt.alloc(), part)?;
        println!(rt; "{counts}")?;
    }
    Ok(())
}

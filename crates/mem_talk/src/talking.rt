//! Two sessions that talk to one another.

use crate::half::Half;
use ftn_addr::NoMemory;
use std::alloc::Global;

/// More rounds than any talk of the tests has.
const ROUNDS: u32 = 100_000;

/// Lets two sessions talk until both are over: in rounds each makes a turn, and what it wrote is carried to the other. Once
/// `most` bytes were carried the line is cut, as it is once one of them has closed it.
pub fn talk(alloc: Global, near: &mut Half, far: &mut Half, most: u64) -> Result<(), NoMemory> {
    let mut left = most;
    for _ in 0..ROUNDS {
        if near.is_over() && far.is_over() {
            break;
        }
        left = half_round(alloc, near, far, left)?;
        left = half_round(alloc, far, near, left)?;
    }
    Ok(())
}

// One end makes a turn, and what it wrote is carried to the other. It answers how many bytes more are carried then.
fn half_round(alloc: Global, near: &mut Half, far: &mut Half, left: u64) -> Result<u64, NoMemory> {
    near.turn(alloc);
    let rest = left - near.carry(far, left)?;
    near.cut_if(rest == 0);
    far.cut_if(is_ended(rest, near));
    Ok(rest)
}

// Whether the line is cut, or closed at that end.
fn is_ended(left: u64, near: &Half) -> bool {
    left == 0 || near.is_over()
}

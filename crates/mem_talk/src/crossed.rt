//! Two nodes that hold two sessions with one another.

use crate::crossing::Post;
use ftn_addr::NoMemory;
use std::alloc::Global;

/// More rounds than any crossing of the tests has.
const ROUNDS: u32 = 100_000;

/// Rounds enough for a login.
const LOGIN: u32 = 8;

/// Lets two nodes hold two sessions with one another, each over a line of its own: the first is begun, then the second,
/// and then they make their turns one beside the other, until all are over.
pub fn cross(alloc: Global, near: &mut Post, far: &mut Post) -> Result<(), NoMemory> {
    begin(alloc, near, far)?;
    swap(near, far);
    begin(alloc, near, far)?;
    for _ in 0..ROUNDS {
        if near.is_over() && far.is_over() {
            break;
        }
        swap(near, far);
        round(alloc, near, far)?;
    }
    Ok(())
}

/// Lets two nodes hold two sessions with one another, each over a line of its own, of which the first is cut: it stands where
/// the far node has taken the near node's first M_FILE and no data, until the second session is over.
pub fn cross_and_cut(alloc: Global, near: &mut Post, far: &mut Post) -> Result<(), NoMemory> {
    begin_to_send(alloc, near, far)?;
    swap(near, far);
    finish(alloc, near, far)?;
    swap(near, far);
    near.cut_if(true);
    far.cut_if(true);
    finish(alloc, near, far)
}

// The first session up to the near node's first M_FILE, which the far node reads, and then takes.
fn begin_to_send(alloc: Global, near: &mut Post, far: &mut Post) -> Result<(), NoMemory> {
    for _ in 0..LOGIN {
        half_round(alloc, near, far)?;
        if near.is_sending() {
            break;
        }
        half_round(alloc, far, near)?;
    }
    far.turn(alloc);
    far.turn(alloc);
    Ok(())
}

// Lets one session make its turns at both ends until it is over.
fn finish(alloc: Global, near: &mut Post, far: &mut Post) -> Result<(), NoMemory> {
    for _ in 0..ROUNDS {
        if near.has_ended() && far.has_ended() {
            break;
        }
        round(alloc, near, far)?;
    }
    Ok(())
}

fn begin(alloc: Global, near: &mut Post, far: &mut Post) -> Result<(), NoMemory> {
    for _ in 0..LOGIN {
        round(alloc, near, far)?;
    }
    Ok(())
}

// The other sessions make the next turns.
fn swap(near: &mut Post, far: &mut Post) {
    near.swap();
    far.swap();
}

// Each end of one line makes a turn, and what it wrote is carried to the other.
fn round(alloc: Global, near: &mut Post, far: &mut Post) -> Result<(), NoMemory> {
    half_round(alloc, near, far)?;
    half_round(alloc, far, near)
}

fn half_round(alloc: Global, near: &mut Post, far: &mut Post) -> Result<(), NoMemory> {
    near.turn(alloc);
    near.tell(far)?;
    far.cut_if(near.has_ended());
    Ok(())
}

//! A round of a trial: one session of its two nodes.
ghost use Rattle.std.specs.Prelude.{◌≤◌, IfOk};

use crate::disturbance::Disturbance;
use crate::node::TrialNode;
use crate::party::Party;
use ftn_addr::NoMemory;
use std::alloc::Global;

// Both ends are cut.
fn cut_both(near: &mut Party, far: &mut Party) {
    near.cut();
    far.cut();
}

// One session makes a turn, and what it wrote is carried to the other end: of at most so many bytes. It answers how many more are
// carried then. Behind the last both ends are cut; so they are where the node was stopped, and what it wrote in that turn isn't
// carried.
fn half_turn(alloc: Global, near: &mut Party, far: &mut Party, left: u64) -> Result<u64, NoMemory> {
    near.turn(alloc);
    if near.is_stopped() {
        cut_both(near, far);
        return Ok(left);
    }
    let rest = left - near.carry(far, left)?;
    if rest == 0 {
        cut_both(near, far);
    }
    if near.is_over() {
        far.cut();
    }
    Ok(rest)
}

// Lets two sessions make their turns one after the other, until both are over. Each turn takes or writes a byte, or is one of
// sixty at most on end that do neither, so that both end long before the last of these turns.
fn talk(alloc: Global, near: &mut Party, far: &mut Party, most: u64) -> Result<(), NoMemory> {
    let mut left = most;
    if left == 0 || far.is_stopped() {
        cut_both(near, far);
    }
    for _ in 0..u64::MAX {
        if near.is_over() && far.is_over() {
            break;
        }
        left = half_turn(alloc, near, far, left)?;
        left = half_turn(alloc, far, near, left)?;
    }
    Ok(())
}

/// One node calls the other, and their session is disturbed so. Both nodes as it leaves them, the one that called first.
pub(crate) fn hold(
    alloc: Global,
    calling: TrialNode,
    answering: TrialNode,
    disturbance: Disturbance,
) -> Result<(TrialNode, TrialNode), NoMemory> {
    let most = match disturbance.bytes {
        Some(bytes) => u64::from(bytes),
        None => u64::MAX,
    };
    let mut near = Party::calling(alloc, calling)?;
    let mut far = Party::answering(alloc, answering, disturbance.stop)?;
    talk(alloc, &mut near, &mut far, most)?;
    let calling = near.leave(alloc)?;
    let answering = far.leave(alloc)?;
    Ok((calling, answering))
}

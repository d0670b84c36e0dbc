//! `serve` over a disk in memory that rests, with a challenge of zeros.
ghost use Rattle.std.specs.Prelude.{◌<◌, All, IfOk, length};
ghost use Rattle.binkp_link.specs.Callers.{ActIsUnused, UnusedLine};

use crate::lines::{line_of, slow_line};
use crate::ran::Ran;
use binkp_link::{MemClock, MemDice, MemLine, MemLines, MemSink, NextAct};
use binkp_mailer::run_serve;
use ftn_addr::{Bytes, NoMemory};
use mem_node::Resting;
use std::alloc::Global;
use std::sync::Wait;

/// Who calls next.
#[derive(Drop)]
pub enum Calls {
    /// A peer that says these bytes at once.
    Peer(Bytes),
    /// Nobody, for a while.
    Nobody,
    /// Waiting for a caller fails.
    Fault,
}

fn act_of(alloc: Global, calls: &Calls) -> Result<NextAct, NoMemory>
    ensures { IfOk result ActIsUnused }
{
    match calls {
        Calls::Peer(said) => Ok(NextAct::Line(line_of(alloc, said.as_slice())?)),
        Calls::Nobody => Ok(NextAct::Nothing),
        Calls::Fault => Ok(NextAct::Failed),
    }
}

fn acts_of(alloc: Global, calls: &[Calls]) -> Result<Vec<NextAct>, NoMemory>
    ensures { IfOk result (λ acts. All ActIsUnused acts.items) }
{
    let mut acts = Vec::new(alloc);
    for one in calls {
        acts.push(act_of(alloc, one)?)?;
    }
    Ok(acts)
}

// The line that a dial reaches, on which these pieces come one after another; none where there is no piece.
fn dialled(alloc: Global, pieces: &[Bytes]) -> Result<Option<MemLine>, NoMemory>
    ensures { IfOk result UnusedLine }
{
    if pieces.is_empty() {
        return Ok(None);
    }
    let mut said = Vec::new(alloc);
    for piece in pieces {
        said.push(piece.as_slice())?;
    }
    Ok(Some(slow_line(alloc, said.as_slice())?))
}

// The lines that dials reach.
fn dials_of(alloc: Global, dials: &[Vec<Bytes>]) -> Result<Vec<Option<MemLine>>, NoMemory>
    ensures { IfOk result (λ lines. All UnusedLine lines.items) }
{
    let mut lines = Vec::new(alloc);
    for pieces in dials {
        lines.push(dialled(alloc, pieces.as_slice())?)?;
    }
    Ok(lines)
}

// What was written on all lines that were handed back, in their order.
fn heard(alloc: Global, lines: &MemLines) -> Result<Bytes, NoMemory> {
    let mut all = Bytes::new(alloc);
    for place in 0..64 {
        if let Some(line) = lines.handed(place) {
            all.push_slice(line.written())?;
        }
    }
    Ok(all)
}

/// Serves while these call, one after another, with a clock of these moments, of which there is one at least. Each dial reaches a peer
/// that says such pieces one after another, or nobody where there is none. Behind the last caller it is told to stop. Where it is deaf it
/// can't listen. What is told is what all peers heard, and what is printed what it told of them.
pub fn serve_by<W: Wait>(
    rt: &W,
    alloc: Global,
    disk: Resting,
    moments: Vec<u64>,
    calls: &[Calls],
    dials: &[Vec<Bytes>],
    is_deaf: bool,
) -> Result<Box<Ran>, NoMemory>
    requires { 0 < length moments.items }
{
    let mut lines = MemLines::new(alloc, acts_of(alloc, calls)?, dials_of(alloc, dials)?);
    if is_deaf {
        lines.deaf();
    }
    let mut clock = MemClock::new(moments);
    let mut dice = MemDice::new(vec![in alloc; [0; 16]]?);
    let mut out = MemSink::new(alloc, Vec::new(alloc));
    let (status, disk) = run_serve(
        rt,
        alloc,
        disk.into_ready(),
        &mut lines,
        &mut clock,
        &mut dice,
        &mut out,
    );
    let heard = heard(alloc, &lines)?;
    let printed = Bytes::from_slice(alloc, out.written())?;
    Ok(Box::new(alloc, Ran::new(status, heard, printed, disk))?)
}

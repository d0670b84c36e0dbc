//! The words of a call, and lines on which a peer says what is given.
ghost use Rattle.std.specs.Prelude.{IfOk};
ghost use Rattle.binkp_link.specs.LineSources.{IsUnused};
ghost use Rattle.binkp_link.specs.MemLines.{mem_state};

use binkp_link::{MemLine, ReadAct};
use ftn_addr::{Bytes, NoMemory};
use std::alloc::Global;

/// The words of these texts.
pub(crate) fn words_of(alloc: Global, texts: &[&[u8]]) -> Result<Vec<Bytes>, NoMemory> {
    let mut words = Vec::new(alloc);
    for text in texts {
        words.push(Bytes::from_slice(alloc, text)?)?;
    }
    Ok(words)
}

/// A line on which these bytes come at once, where there are any, then one Quiet and the end.
pub(crate) fn line_of(alloc: Global, bytes: &[u8]) -> Result<MemLine, NoMemory>
    ensures { IfOk result (λ line. IsUnused (mem_state line)) }
{
    let mut reads = Vec::new(alloc);
    if !bytes.is_empty() {
        reads.push(ReadAct::Bytes(Bytes::from_slice(alloc, bytes)?))?;
    }
    reads.push(ReadAct::Quiet)?;
    Ok(MemLine::new(alloc, reads, Vec::new(alloc)))
}

/// A line on which these pieces come one after another, with two reads between them that find nothing yet.
pub(crate) fn slow_line(alloc: Global, pieces: &[&[u8]]) -> Result<MemLine, NoMemory>
    ensures { IfOk result (λ line. IsUnused (mem_state line)) }
{
    let mut reads = Vec::new(alloc);
    for piece in pieces {
        if piece.is_empty() {
            continue;
        }
        reads.push(ReadAct::Bytes(Bytes::from_slice(alloc, piece)?))?;
        reads.push(ReadAct::NotYet)?;
        reads.push(ReadAct::NotYet)?;
    }
    reads.push(ReadAct::Quiet)?;
    Ok(MemLine::new(alloc, reads, Vec::new(alloc)))
}

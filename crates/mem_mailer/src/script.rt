//! What a line does, one after another.
ghost use Rattle.std.specs.Prelude.{map, IfOk};
ghost use Rattle.binkp_link.specs.LineSources.{IsUnused};
ghost use Rattle.binkp_link.specs.MemLines.{mem_state};
ghost use Rattle.binkp_link.specs.Scripts.{AllGiveSome, AllTakeSome, GivesSome, act_of};

use binkp_link::{MemLine, ReadAct, WriteAct};
use ftn_addr::{Bytes, NoMemory};
use std::alloc::Global;

/// What a read of a line finds.
#[derive(Drop)]
pub enum Found {
    /// These bytes. Where there are none nothing is there yet, and a read that waits passes over it.
    Bytes(Bytes),
    /// Nothing, for as long as it waits.
    Nothing,
    /// That the line is broken.
    Fault,
}

/// What a line takes of what is written to it.
#[derive(Clone, Copy)]
pub enum Takes {
    All,
    /// Nothing, for as long as a write waits.
    Nothing,
    /// The first write fails.
    NoWrite,
    /// The third write fails.
    TwoWrites,
}

fn read_of(alloc: Global, found: &Found) -> Result<ReadAct, NoMemory>
    ensures { IfOk result (λ read. GivesSome (act_of read)) }
{
    match found {
        Found::Bytes(bytes) if bytes.is_empty() => Ok(ReadAct::NotYet),
        Found::Bytes(bytes) => Ok(ReadAct::Bytes(bytes.copy(alloc)?)),
        Found::Nothing => Ok(ReadAct::Quiet),
        Found::Fault => Ok(ReadAct::Failed),
    }
}

fn reads_of(alloc: Global, found: &[Found]) -> Result<Vec<ReadAct>, NoMemory>
    ensures { IfOk result (λ reads. AllGiveSome (map act_of reads.items)) }
{
    let mut reads = Vec::new(alloc);
    for one in found {
        let read = read_of(alloc, one)?;
        reads.push(read)?;
    }
    Ok(reads)
}

fn writes_of(alloc: Global, takes: Takes) -> Result<Vec<WriteAct>, NoMemory>
    ensures { IfOk result (λ writes. AllTakeSome writes.items) }
{
    let whole = WriteAct::Take(4096);
    match takes {
        Takes::All => Ok(Vec::new(alloc)),
        Takes::Nothing => Ok(vec![in alloc; WriteAct::Quiet]?),
        Takes::NoWrite => Ok(vec![in alloc; WriteAct::Failed]?),
        Takes::TwoWrites => Ok(vec![in alloc; whole, whole, WriteAct::Failed]?),
    }
}

/// A line whose reads find this, one after another, and which ends then.
pub(crate) fn scripted_line(
    alloc: Global,
    found: &[Found],
    takes: Takes,
) -> Result<MemLine, NoMemory>
    ensures { IfOk result (λ line. IsUnused (mem_state line)) }
{
    let reads = reads_of(alloc, found)?;
    Ok(MemLine::new(alloc, reads, writes_of(alloc, takes)?))
}

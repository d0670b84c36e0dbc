//! What became of an outbound that was taken in.
ghost use Rattle.std.specs.Prelude.{◌≡◌, IfOk};
ghost use Rattle.ftn_addr.specs.Address.{address};
ghost use Rattle.outbound_lines.specs.Taking.{marked_text, took_text};

use crate::counts::push_count;
use ftn_addr::{Addr, Bytes, NoMemory, write_addr};
use std::alloc::Global;

/// What became of the lines of flow files, and of packets and requests.
#[derive(Clone, Copy, Debug, PartialEq, Eq)]
pub struct TookCounts {
    /// Files that were queued.
    pub queued: u32,
    /// Files that were queued before.
    pub again: u32,
    /// Lines that name no file that stands.
    pub missing: u32,
    /// Files that are too long to be sent.
    pub over: u32,
    /// Lines that name no file.
    pub passed: u32,
}

/// What became of the outbound of an address: `took ADDR queued Q again A missing M over O passed P` and LF.
pub fn took_line(alloc: Global, addr: &Addr, counts: &TookCounts) -> Result<Bytes, NoMemory>
    ensures { IfOk result (λ line. line.list ≡ took_text (address addr.now) counts.now) }
{
    let mut line = Bytes::new(alloc);
    line.push_slice(b"took ")?;
    write_addr(alloc, addr, &mut line)?;
    push_count(alloc, b" queued ", u64::from(counts.queued), &mut line)?;
    push_count(alloc, b" again ", u64::from(counts.again), &mut line)?;
    push_count(alloc, b" missing ", u64::from(counts.missing), &mut line)?;
    push_count(alloc, b" over ", u64::from(counts.over), &mut line)?;
    push_count(alloc, b" passed ", u64::from(counts.passed), &mut line)?;
    line.push_slice(b"\n")?;
    Ok(line)
}

/// Another program holds the outbound of an address: `marked ADDR` and LF.
pub fn marked_line(alloc: Global, addr: &Addr) -> Result<Bytes, NoMemory>
    ensures { IfOk result (λ line. line.list ≡ marked_text (address addr.now)) }
{
    let mut line = Bytes::new(alloc);
    line.push_slice(b"marked ")?;
    write_addr(alloc, addr, &mut line)?;
    line.push_slice(b"\n")?;
    Ok(line)
}

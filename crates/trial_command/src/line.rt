//! The line of a trial.
ghost use Rattle.std.specs.Prelude.{◌≡◌, ◌++◌, IfOk, OnOk};
ghost use Rattle.std.specs.Fmt.{decimal};
ghost use Rattle.trial_command.specs.Line.{totals_text};

use ftn_addr::{Bytes, NoMemory};
use node_trial::Totals;
use std::alloc::Global;

// Adds a word and a number behind it.
fn push_count(alloc: Global, word: &[u8], count: u64, line: &mut Bytes) -> Result<(), NoMemory>
    ensures { OnOk result (line.new.list ≡ line.old.list ++ word.now ++ decimal count) }
{
    line.push_slice(word)?;
    line.push_number(alloc, count)
}

/// What a trial came to: `files F bytes B sessions S received R live L` and LF.
///
/// # Errors
/// Want of memory.
pub fn totals_line(alloc: Global, totals: &Totals) -> Result<Bytes, NoMemory>
    ensures { IfOk result (λ line. line.list ≡ totals_text totals.now) }
{
    let mut line = Bytes::new(alloc);
    push_count(alloc, b"files ", u64::from(totals.files), &mut line)?;
    push_count(alloc, b" bytes ", totals.bytes, &mut line)?;
    push_count(alloc, b" sessions ", u64::from(totals.sessions), &mut line)?;
    push_count(alloc, b" received ", u64::from(totals.received), &mut line)?;
    push_count(alloc, b" live ", u64::from(totals.live), &mut line)?;
    line.push_slice(b"\n")?;
    Ok(line)
}

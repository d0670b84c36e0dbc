//! Printing what came of a command.
ghost use Rattle.std.specs.Prelude.{◌≡◌, ◌++◌, IfOk, IsOk, List, ℕ};
ghost use Rattle.command_base.specs.Printing.{PrintsLines, Puts_lines};
ghost use Rattle.command_base.specs.Statuses.{status_line, status_text};

use crate::status::{Status, push_status};
use binkp_link::Sink;
use ftn_addr::{Bytes, NoMemory};
use std::alloc::Global;

/// The line of NoMemory, which takes none.
const NO_MEMORY_LINE: &[u8] = b"status 17 NoMemory\n";

/// These lines, and behind them that of the status.
fn with_status(
    alloc: Global,
    started: Result<Bytes, NoMemory>,
    status: &Status,
) -> Result<Bytes, NoMemory>
    ensures { IfOk result (λ lines. IfOk started (λ before. lines.list ≡ before.list ++ status_line (status_text status.now)) × IsOk started) }
{
    let mut lines = started?;
    push_status(alloc, status, &mut lines)?;
    Ok(lines)
}

/// Puts the lines, and answers the status, or OutFault where the put fails.
fn tell<O: Sink>(status: Status, lines: &[u8], out: &mut O) -> Status
    ensures { Puts_lines lines.now (status_text status) (status_text result) (O.state out.old) (O.state out.new) }
{
    match out.put(lines) {
        Ok(()) => status,
        Err(_) => Status::OutFault,
    }
}

/// Prints the lines of a command, and behind them that of its status, in one put, and answers its status: the one that it has;
/// or NoMemory, where no memory was or is left for the lines; or OutFault, where the put fails.
pub fn print_lines<O: Sink>(
    alloc: Global,
    started: Result<Bytes, NoMemory>,
    status: Status,
    out: &mut O,
) -> Status
    ensures { (lines : List ℕ) → IfOk started (λ before. before.list ≡ lines) → PrintsLines lines (status_text status) (status_text result) (O.state out.old) (O.state out.new) }
{
    match with_status(alloc, started, &status) {
        Ok(lines) => tell(status, lines.as_slice(), out),
        Err(NoMemory) => tell(Status::NoMemory, NO_MEMORY_LINE, out),
    }
}

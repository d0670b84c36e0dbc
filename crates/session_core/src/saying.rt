//! What a session says beside its login: one command, one frame.
ghost use Rattle.std.specs.Prelude.{◌≡◌, ◌<◌, ◌++◌, length, OnOk, OnErr};
ghost use Rattle.binkp_args.specs.Command.{Eob, Error};
ghost use Rattle.node_model.specs.Desks.{fault_of};
ghost use Rattle.session_recv.specs.Replies.{command_bytes};
ghost use Rattle.session_core.specs.Ends as E;
ghost use Rattle.session_core.specs.Ends.{end_text};
ghost use Rattle.session_core.specs.Takings as T;
ghost use Rattle.session_core.specs.Takings.{took_text};
ghost use Rattle.session_core.specs.Says.{cause_bytes, disk_fault, fault_bytes, ledger_full, too_many};
ghost use Rattle.session_core.specs.Sessions.{fault_end};
ghost use Rattle.session_core.specs.Replies.{Writes};

use crate::{Cause, End, Took};
use binkp_args::{Command, write_command};
use ftn_addr::{Bytes, NoMemory};
use node_model::DeskFault;
use std::alloc::Global;

/// M_EOB.
pub fn say_end(alloc: Global, out: &mut Bytes) -> Result<(), NoMemory>
    ensures ok { OnOk result (out.new.list ≡ out.old.list ++ command_bytes Eob) }
    ensures err { OnErr result (out.new.list ≡ out.old.list) }
{
    write_command(alloc, &Command::Eob, out)
}

fn say_error(alloc: Global, text: &[u8], out: &mut Bytes) -> Result<(), NoMemory>
    requires { length text.now < 32767 }
    ensures ok { OnOk result (out.new.list ≡ out.old.list ++ command_bytes (Error text.now)) }
    ensures err { OnErr result (out.new.list ≡ out.old.list) }
{
    let text = Bytes::from_slice(alloc, text)?;
    write_command(alloc, &Command::Err(text), out)
}

#[tactic(auto, unfolding(crate::specs::Says::too_many))]
fn say_busy(alloc: Global, out: &mut Bytes) -> Result<(), NoMemory>
    ensures ok { OnOk result (out.new.list ≡ out.old.list ++ too_many) }
    ensures err { OnErr result (out.new.list ≡ out.old.list) }
{
    let text = Bytes::from_slice(alloc, b"too many servers")?;
    write_command(alloc, &Command::Bsy(text), out)
}

#[tactic(auto, unfolding(crate::specs::Says::disk_fault))]
fn say_disk_fault(alloc: Global, out: &mut Bytes) -> Result<(), NoMemory>
    ensures ok { OnOk result (out.new.list ≡ out.old.list ++ disk_fault) }
    ensures err { OnErr result (out.new.list ≡ out.old.list) }
{
    say_error(alloc, b"disk fault", out)
}

#[tactic(auto, unfolding(crate::specs::Says::ledger_full))]
fn say_ledger_full(alloc: Global, out: &mut Bytes) -> Result<(), NoMemory>
    ensures ok { OnOk result (out.new.list ≡ out.old.list ++ ledger_full) }
    ensures err { OnErr result (out.new.list ≡ out.old.list) }
{
    say_error(alloc, b"ledger full", out)
}

/// The M_ERR that a cause owes.
#[tactic(auto, unfolding(crate::specs::Says::broken_frame, crate::specs::Says::offset_again, crate::specs::Says::not_called))]
fn say_cause(alloc: Global, cause: Cause, out: &mut Bytes) -> Result<(), NoMemory>
    ensures ok { OnOk result (out.new.list ≡ out.old.list ++ cause_bytes cause) }
    ensures err { OnErr result (out.new.list ≡ out.old.list) }
{
    match cause {
        Cause::Late => say_error(alloc, b"offset again", out),
        Cause::NotCalled => say_error(alloc, b"not the called address", out),
        Cause::Arg(_) => say_error(alloc, b"broken frame", out),
        Cause::OutOfTurn => say_error(alloc, b"broken frame", out),
        Cause::TooMuch => say_error(alloc, b"broken frame", out),
    }
}

/// Turns a caller away, with M_BSY alone.
pub fn turn_away(alloc: Global, out: &mut Bytes) -> Took
    ensures { Writes out.old.list out.new.list too_many (T.Ended E.TurnedAway) (took_text result) }
{
    match say_busy(alloc, out) {
        Ok(()) => Took::Ended(End::TurnedAway),
        Err(_) => Took::Ended(End::NoMemory),
    }
}

/// Ends a session that a desk refused, with the M_ERR that this owes.
pub fn end_by_fault(alloc: Global, fault: DeskFault, out: &mut Bytes) -> End
    ensures { Writes out.old.list out.new.list (fault_bytes (fault_of fault)) (T.Ended (fault_end (fault_of fault))) (T.Ended (end_text result)) }
{
    match fault {
        DeskFault::Disk(count) => match say_disk_fault(alloc, out) {
            Ok(()) => End::DiskFault(count),
            Err(_) => End::NoMemory,
        },
        DeskFault::Read(count) => match say_disk_fault(alloc, out) {
            Ok(()) => End::DiskFault(count),
            Err(_) => End::NoMemory,
        },
        DeskFault::Full => match say_ledger_full(alloc, out) {
            Ok(()) => End::LedgerFull,
            Err(_) => End::NoMemory,
        },
        DeskFault::NoMemory => End::NoMemory,
    }
}

/// Ends a session that its desk refused, with the M_ERR that this owes.
pub fn refuse(alloc: Global, fault: DeskFault, out: &mut Bytes) -> Took
    ensures { Writes out.old.list out.new.list (fault_bytes (fault_of fault)) (T.Ended (fault_end (fault_of fault))) (took_text result) }
{
    Took::Ended(end_by_fault(alloc, fault, out))
}

/// Ends a session that the peer broke at its frame with that number.
pub fn break_off(alloc: Global, cause: Cause, number: u64, out: &mut Bytes) -> End
    ensures { Writes out.old.list out.new.list (cause_bytes cause) (T.Ended (E.Broke cause number)) (T.Ended (end_text result)) }
{
    match say_cause(alloc, cause, out) {
        Ok(()) => End::Broke(cause, number),
        Err(_) => End::NoMemory,
    }
}

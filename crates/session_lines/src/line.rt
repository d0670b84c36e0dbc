//! The line of a session.
ghost use Rattle.std.specs.Prelude.{◌≡◌, ◌++◌, OnOk, option_map};
ghost use Rattle.std.specs.Fmt.{decimal};
ghost use Rattle.ftn_addr.specs.Address.{address};
ghost use Rattle.session_core.specs.Ends.{end_text};
ghost use Rattle.session_run.specs.Reports.{report_text};
ghost use Rattle.session_lines.specs.Lines.{end_word, peer_word, session_line};

use ftn_addr::{Addr, Bytes, NoMemory, write_addr};
use session_core::End;
use session_run::Report;
use std::alloc::Global;

/// The name of an end.
fn end_word(end: &End) -> &'static [u8]
    ensures { result.now ≡ end_word (end_text end.now) }
{
    match end {
        End::Finished => b"Finished",
        End::PeerError(_) => b"PeerError",
        End::PeerBusy => b"PeerBusy",
        End::BadPassword(_, _) => b"BadPassword",
        End::Broke(_, _) => b"Broke",
        End::Dropped => b"Dropped",
        End::LineFault => b"LineFault",
        End::DiskFault(_) => b"DiskFault",
        End::LedgerFull => b"LedgerFull",
        End::Quiet => b"Quiet",
        End::Endless => b"Endless",
        End::TurnedAway => b"TurnedAway",
        End::NoMemory => b"NoMemory",
    }
}

/// Adds the peer's address, or `-` where there is none.
fn push_peer(alloc: Global, peer: &Option<Addr>, line: &mut Bytes) -> Result<(), NoMemory>
    ensures { OnOk result (line.new.list ≡ line.old.list ++ peer_word (option_map address peer.now)) }
{
    match peer {
        Some(peer) => write_addr(alloc, peer, line),
        None => line.push_slice(b"-"),
    }
}

/// Adds a word and a number behind it.
fn push_count(alloc: Global, word: &[u8], count: u32, line: &mut Bytes) -> Result<(), NoMemory>
    ensures { OnOk result (line.new.list ≡ line.old.list ++ word.now ++ decimal count) }
{
    line.push_slice(word)?;
    line.push_number(alloc, u64::from(count))
}

/// Adds the line `session N peer ADDR sent S received R skipped K end WORD`, which ends by LF.
pub fn push_session(alloc: Global, report: &Report, line: &mut Bytes) -> Result<(), NoMemory>
    ensures { OnOk result (line.new.list ≡ line.old.list ++ session_line (report_text report.now)) }
{
    push_count(alloc, b"session ", report.session, line)?;
    line.push_slice(b" peer ")?;
    push_peer(alloc, &report.peer, line)?;
    push_count(alloc, b" sent ", report.sent, line)?;
    push_count(alloc, b" received ", report.received, line)?;
    push_count(alloc, b" skipped ", report.skipped, line)?;
    line.push_slice(b" end ")?;
    line.push_slice(end_word(&report.end))?;
    line.push_slice(b"\n")
}

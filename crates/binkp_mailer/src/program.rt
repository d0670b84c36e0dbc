//! The whole of the program, but for what only the system has.
ghost use Rattle.std.specs.Prelude.{◌≡◌, ◌↔◌, true, IsSome};
ghost use Rattle.disk_model.specs.Changes.{Every};
ghost use Rattle.disk_model.specs.Moments.{Now};
ghost use Rattle.node_store.specs.Opening.{IsReady};
ghost use Rattle.binkp_mailer.specs.OverLines.{IsFresh};
ghost use Rattle.binkp_mailer.specs.Programs.{EndsByStatus, HadNoWords, IsProgramCall, Runs_over};
ghost use Rattle.command_base.specs.Statuses.{Usage, number_of_status, status_text};
ghost use Rattle.command_words.specs.Forms.{texts};

use crate::over_serve::run_serve;
use crate::{Outcome, print, run_call};
use binkp_link::{Clock, Dice, Lines, Sink};
use command_base::Status;
use command_words::{Form, read_form};
use disk_model::Yard;
use ftn_addr::{Bytes, NoMemory};
use std::alloc::Global;
use std::sync::Wait;
use still_commands::run_still;
use trial_command::run_trial;

/// How the program ends: with this exit status, and, where the words are no command, with this line on standard
/// error.
#[derive(Clone, Copy, Debug, PartialEq, Eq)]
pub struct Ended {
    pub exit: u8,
    pub told: Option<&'static str>,
}

/// What a person is told of a status: the words that there are, where there were others.
pub fn explanation(status: &Status) -> Option<&'static str>
    ensures { IsSome result ↔ (status_text status.now ≡ Usage) }
{
    match status {
        Status::Usage => Some(
            "binkp: the words are `DIR answer`, `DIR call ADDR`, `DIR serve`, `DIR lookup ADDR`, `DIR compile FILE`, `DIR list`, `DIR take` or `trial COUNT START`, as in `. call 2:5047/13`; DIR has the settings, `binkp.conf`",
        ),
        Status::Done
        | Status::ConfBad(_)
        | Status::DiskFault(_)
        | Status::LedgerBad(_)
        | Status::LedgerFull
        | Status::LineFault
        | Status::Dropped
        | Status::Quiet
        | Status::PeerError(_)
        | Status::PeerBusy
        | Status::BadPassword
        | Status::Broke(_, _)
        | Status::Endless
        | Status::Marked(_)
        | Status::NotFound
        | Status::OutFault
        | Status::TurnedAway
        | Status::NoMemory
        | Status::FileBad(_)
        | Status::ListBad(_)
        | Status::NoFile => None,
    }
}

// How a call with that status ends.
fn end_of(status: &Status) -> Ended
    ensures told { EndsByStatus result }
    ensures exit { result.exit ≡ number_of_status (status_text status.now) }
{
    Ended {
        exit: status.number(),
        told: explanation(status),
    }
}

// What the words ask for.
fn run_words<W: Wait, D: Yard, N: Lines, C: Clock, R: Dice, O: Sink>(
    rt: &W,
    alloc: Global,
    words: &[Bytes],
    disk: D,
    lines: &mut N,
    clock: &mut C,
    dice: &mut R,
    out: &mut O,
) -> (Status, D)
    requires ready { D.tells ≡ true → Every (Now D.moment D.images disk) (IsReady (D.content disk)) }
    requires fresh { IsFresh (N.state lines.old) }
    ensures { Runs_over D.files D.tells D.content D.fault_count D.moment D.images (texts words.now) (N.state lines.old) disk (O.state out.old) (status_text result.0) (N.state lines.new) result.1 (O.state out.new) }
{
    match read_form(alloc, words) {
        Ok(Some(Form::Session(form))) => {
            let now = clock.now();
            let random = dice.sixteen();
            run_call(alloc, form, disk, lines, now, random, out)
        }
        Ok(Some(Form::Serve)) => run_serve(rt, alloc, disk, lines, clock, dice, out),
        Ok(Some(Form::Still(form))) => run_still(alloc, form, disk, clock.now(), out),
        Ok(Some(Form::Trial(form))) => (run_trial(alloc, form, out), disk),
        Ok(None) => (print(alloc, Outcome::Usage, out), disk),
        Err(NoMemory) => (print(alloc, Outcome::NoMemory, out), disk),
    }
}

/// Does what the words behind DIR ask for over the disk and the lines, of which none was given yet, prints what came of it, and gives
/// the disk back. Only `serve` waits for more than one caller; it looks at the clock at each turn, and offers each caller a challenge of
/// its own.
pub fn run_program<W: Wait, D: Yard, N: Lines, C: Clock, R: Dice, O: Sink>(
    rt: &W,
    alloc: Global,
    words: &[Bytes],
    disk: D,
    lines: &mut N,
    clock: &mut C,
    dice: &mut R,
    out: &mut O,
) -> (Ended, D)
    requires ready { D.tells ≡ true → Every (Now D.moment D.images disk) (IsReady (D.content disk)) }
    requires fresh { IsFresh (N.state lines.old) }
    ensures call { IsProgramCall D.files D.tells D.content D.fault_count D.moment D.images (texts words.now) (N.state lines.old) disk (O.state out.old) result.0.exit (N.state lines.new) result.1 (O.state out.new) }
    ensures told { EndsByStatus result.0 }
{
    let (status, disk) = run_words(rt, alloc, words, disk, lines, clock, dice, out);
    (end_of(&status), disk)
}

/// Says that there was no memory for the words: nothing is read or written on a line or a disk.
pub fn refuse_for_memory<O: Sink>(alloc: Global, out: &mut O) -> Ended
    ensures no_memory { HadNoWords (O.state out.old) result.exit (O.state out.new) }
    ensures told { EndsByStatus result }
{
    end_of(&print(alloc, Outcome::NoMemory, out))
}

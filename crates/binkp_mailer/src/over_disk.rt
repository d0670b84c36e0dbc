//! The program's call over a disk.
ghost use Rattle.std.specs.Prelude.{◌≡◌, true};
ghost use Rattle.disk_model.specs.Changes.{Every};
ghost use Rattle.disk_model.specs.Moments.{Now};
ghost use Rattle.mail_conf.specs.ConfView.{conf_text};
ghost use Rattle.mail_conf.specs.Limits.{KeepsLimits};
ghost use Rattle.node_store.specs.Opening.{IsReady};
ghost use Rattle.session_auth.specs.Sides.{Answers};
ghost use Rattle.session_core.specs.Stages.{home_of};
ghost use Rattle.command_base.specs.Causes.{DiskCause};
ghost use Rattle.command_base.specs.Printing.{OutCause};
ghost use Rattle.command_base.specs.Settings.{HasSettings};
ghost use Rattle.command_base.specs.Statuses.{status_text};
ghost use Rattle.command_words.specs.Forms.{Command, session_command};
ghost use Rattle.binkp_mailer.specs.DiskCall.{DiskCall, KeepsReceipts, Over_disk};
ghost use Rattle.binkp_mailer.specs.OverLines.{IsFresh};
ghost use Rattle.binkp_mailer.specs.Reports.{had_of, told_of};
ghost use Rattle.binkp_mailer.specs.Words.{AsksFor};

use crate::reaching::call_peer;
use crate::words::{WordsFault, asked_side};
use crate::{Outcome, answer_next, give_behind, print};
use binkp_link::{Lines, Sink};
use command_base::{Status, read_settings};
use command_words::SessionForm;
use disk_model::{Disk, Yard};
use mail_conf::{Conf, what_is_read_keeps_limits};
use node_store::NodeStore;
use session_core::{Side, home_of};
use std::alloc::Global;

/// Reads the settings of a disk, opens its store and holds one session over a line, prints what came of it, and gives the disk
/// back. `answer` answers who calls next; `call` calls the node of its address at the host of the settings, or else of the nodelist,
/// under its call mark. A caller is offered the challenge.
///
/// As the session begins the outbound of the settings is taken in for the peer's addresses, so that it sends what stands there.
/// What is received stays received, at each stop since the call began too, and behind the session it is given to the inbound
/// folders of the settings. What came of a file that isn't whole is marked on the disk, and the next call takes it from there.
pub fn run_call<D: Yard, N: Lines, O: Sink>(
    alloc: Global,
    form: SessionForm<'_>,
    disk: D,
    lines: &mut N,
    now: u64,
    random: [u8; 16],
    out: &mut O,
) -> (Status, D)
    requires ready { D.tells ≡ true → Every (Now D.moment D.images disk) (IsReady (D.content disk)) }
    requires fresh { IsFresh (N.state lines.old) }
    ensures call { DiskCall D.tells D.content D.fault_count D.moment D.images (session_command form.entry) random now (N.state lines.old) disk (O.state out.old) (status_text result.0) (N.state lines.new) result.1 (O.state out.new) }
    ensures cause { DiskCause D.tells D.content D.fault_count (status_text result.0) disk result.1 }
    ensures out_cause { OutCause (status_text result.0) (O.state out.old) (O.state out.new) }
    ensures stays { D.tells ≡ true → KeepsReceipts D.content D.moment D.images disk result.1 }
{
    let (outcome, disk) = call_disk(alloc, form, disk, lines, now, random);
    (print(alloc, outcome, out), disk)
}

// The call, before anything is printed.
fn call_disk<D: Yard, N: Lines>(
    alloc: Global,
    form: SessionForm<'_>,
    disk: D,
    lines: &mut N,
    now: u64,
    random: [u8; 16],
) -> (Outcome, D)
    requires ready { D.tells ≡ true → Every (Now D.moment D.images disk) (IsReady (D.content disk)) }
    requires fresh { IsFresh (N.state lines.old) }
    ensures { Over_disk D.tells D.content D.fault_count D.moment D.images (session_command form.entry) random now (N.state lines.old) disk (told_of result.0) (had_of result.0) (N.state lines.new) result.1 }
{
    let mut disk = disk;
    match read_settings(alloc, &mut disk) {
        Ok(conf) => {
            what_is_read_keeps_limits();
            call_by(alloc, form, &conf, disk, lines, now, random)
        }
        Err(fault) => {
            let faults = disk.faults();
            (Outcome::Unset(fault, faults), disk)
        }
    }
}

// The call by the settings of the disk.
fn call_by<D: Yard, N: Lines>(
    alloc: Global,
    form: SessionForm<'_>,
    conf: &Conf,
    disk: D,
    lines: &mut N,
    now: u64,
    random: [u8; 16],
) -> (Outcome, D)
    requires settings { HasSettings D.tells D.content D.fault_count D.moment D.images disk (conf_text conf.now) }
    requires keeps { KeepsLimits (conf_text conf.now) }
    requires ready { D.tells ≡ true → Every (Now D.moment D.images disk) (IsReady (D.content disk)) }
    requires fresh { IsFresh (N.state lines.old) }
    ensures { Over_disk D.tells D.content D.fault_count D.moment D.images (session_command form.entry) random now (N.state lines.old) disk (told_of result.0) (had_of result.0) (N.state lines.new) result.1 }
{
    match asked_side(alloc, form, home_of(conf)) {
        Ok(Side::Answers) => answer(alloc, conf, disk, lines, now, random),
        Ok(Side::Calls(peer)) => call_peer(alloc, peer, conf, disk, lines, now, random),
        Err(WordsFault::Usage) => (Outcome::Usage, disk),
        Err(WordsFault::NoMemory) => (Outcome::NoMemory, disk),
    }
}

// Opens the store of the disk and answers who calls next.
fn answer<D: Yard, N: Lines>(
    alloc: Global,
    conf: &Conf,
    disk: D,
    lines: &mut N,
    now: u64,
    random: [u8; 16],
) -> (Outcome, D)
    requires settings { HasSettings D.tells D.content D.fault_count D.moment D.images disk (conf_text conf.now) }
    requires keeps { KeepsLimits (conf_text conf.now) }
    requires ready { D.tells ≡ true → Every (Now D.moment D.images disk) (IsReady (D.content disk)) }
    requires fresh { IsFresh (N.state lines.old) }
    ensures { (command : Command) → AsksFor command (home_of (conf_text conf.now).addresses) Answers → Over_disk D.tells D.content D.fault_count D.moment D.images command random now (N.state lines.old) disk (told_of result.0) (had_of result.0) (N.state lines.new) result.1 }
{
    let store = match NodeStore::open(alloc, disk, home_of(conf)) {
        Ok((store, _recovery)) => store,
        Err((disk, fault)) => {
            let faults = disk.faults();
            return (Outcome::Unopened(fault, faults), disk);
        }
    };
    store.opens_as_told();
    store.opens_soundly();
    let (outcome, store) = answer_next(alloc, conf, random, store, lines, now);
    let (outcome, store) = give_behind(alloc, conf, outcome, store);
    (outcome, store.into_disk())
}

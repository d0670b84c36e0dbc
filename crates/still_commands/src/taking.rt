//! `take`.
ghost use Rattle.std.specs.Prelude.{◌≡◌, None, option_map, true};
ghost use Rattle.disk_model.specs.Changes.{Every};
ghost use Rattle.disk_model.specs.Moments.{Now};
ghost use Rattle.mail_conf.specs.ConfView.{conf_text};
ghost use Rattle.mail_conf.specs.Limits.{KeepsLimits};
ghost use Rattle.node_store.specs.Opening.{IsReady};
ghost use Rattle.outbound_round.specs.Round.{told_of as round_told};
ghost use Rattle.command_base.specs.Settings.{HasSettings};
ghost use Rattle.command_base.specs.Statuses.{status_text};
ghost use Rattle.command_words.specs.Forms.{Taking};
ghost use Rattle.still_commands.specs.Came.{round_status, told_of, told_taken};
ghost use Rattle.still_commands.specs.Still.{Runs_still, TakesIn};

use crate::came::{Came, unopened, unset};
use command_base::{Status, read_settings};
use disk_model::{Disk, Yard};
use ftn_addr::Bytes;
use mail_conf::{Conf, what_is_read_keeps_limits};
use node_store::NodeStore;
use outbound_intake::OutboundAt;
use outbound_round::{Round, RoundFault, Telling, take_round};
use outbound_store::TakingStore;
use session_core::home_of;
use std::alloc::Global;

// The status of a round over a disk with so many faults.
fn status_round(marked: Option<Bytes>, fault: Option<RoundFault>, faults: u64) -> Status
    ensures { status_text result ≡ round_status (option_map (λ name. name.list) marked) fault faults }
{
    match fault {
        Some(RoundFault::Disk) => Status::DiskFault(faults),
        Some(RoundFault::Full) => Status::LedgerFull,
        Some(RoundFault::NoMemory) => Status::NoMemory,
        None => match marked {
            Some(name) => Status::Marked(name),
            None => Status::Done,
        },
    }
}

// What a round came to.
fn came_round(round: Round, faults: u64) -> Came
    ensures { told_of result ≡ told_taken (round_told round) faults }
{
    let Round {
        lines,
        marked,
        fault,
    } = round;
    Came {
        lines,
        status: status_round(marked, fault, faults),
    }
}

// Takes the outbound of the settings in over a store that was opened.
fn take_opened<D: Yard>(alloc: Global, conf: &Conf, store: NodeStore<D>, now: u64) -> (Came, D)
    requires whole { store.memory.broken ≡ None }
    requires keeps { KeepsLimits (conf_text conf.now) }
    ensures { TakesIn D.files D.tells D.content D.fault_count D.moment D.images (conf_text conf.now) now store (told_of result.0) result.1 }
{
    let outbound = OutboundAt {
        home: home_of(conf),
        base: &conf.base,
        zone: conf.zone,
    };
    let mut taking = TakingStore::new(store);
    let round = take_round(alloc, &mut taking, &outbound, now, Telling::All);
    let disk = taking.into_store().into_disk();
    let faults = disk.faults();
    (came_round(round, faults), disk)
}

// Opens the store of a disk by its settings, and takes their outbound in.
fn take_by<D: Yard>(alloc: Global, conf: &Conf, disk: D, now: u64) -> (Came, D)
    requires settings { HasSettings D.tells D.content D.fault_count D.moment D.images disk (conf_text conf.now) }
    requires keeps { KeepsLimits (conf_text conf.now) }
    requires ready { D.tells ≡ true → Every (Now D.moment D.images disk) (IsReady (D.content disk)) }
    ensures { Runs_still D.files D.tells D.content D.fault_count D.moment D.images Taking now disk (told_of result.0) result.1 }
{
    match NodeStore::open(alloc, disk, home_of(conf)) {
        Ok((store, _recovery)) => take_opened(alloc, conf, store, now),
        Err((disk, fault)) => unopened(alloc, fault, disk),
    }
}

/// Takes the outbound of the settings of the disk in. Packets and requests have the moment `now` as their time.
pub(crate) fn take_outbound<D: Yard>(alloc: Global, disk: D, now: u64) -> (Came, D)
    requires ready { D.tells ≡ true → Every (Now D.moment D.images disk) (IsReady (D.content disk)) }
    ensures { Runs_still D.files D.tells D.content D.fault_count D.moment D.images Taking now disk (told_of result.0) result.1 }
{
    let mut disk = disk;
    match read_settings(alloc, &mut disk) {
        Ok(conf) => {
            what_is_read_keeps_limits();
            take_by(alloc, &conf, disk, now)
        }
        Err(fault) => unset(alloc, fault, disk),
    }
}

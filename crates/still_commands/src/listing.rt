//! `list`.
ghost use Rattle.std.specs.Prelude.{◌≡◌, true};
ghost use Rattle.disk_model.specs.Changes.{Every};
ghost use Rattle.disk_model.specs.Moments.{Now};
ghost use Rattle.mail_conf.specs.ConfView.{conf_text};
ghost use Rattle.mail_conf.specs.Limits.{KeepsLimits};
ghost use Rattle.node_store.specs.Opening.{IsReady};
ghost use Rattle.command_base.specs.Settings.{HasSettings};
ghost use Rattle.command_words.specs.Forms.{Listing};
ghost use Rattle.still_commands.specs.Came.{IsTold, told_listed, told_of};
ghost use Rattle.still_commands.specs.Still.{Over_still};

use crate::came::{Came, only, unopened, unset};
use command_base::{Status, read_settings};
use disk_model::Yard;
use ftn_addr::NoMemory;
use ledger_rec::Folded;
use mail_conf::{Conf, what_is_read_keeps_limits};
use node_store::NodeStore;
use outbound_lines::list_lines;
use session_core::home_of;
use std::alloc::Global;

// What a store keeps.
fn listed(alloc: Global, folded: &Folded) -> Came
    ensures { IsTold (told_listed folded.now.state) (told_of result) }
{
    match list_lines(alloc, folded) {
        Ok(lines) => Came {
            lines,
            status: Status::Done,
        },
        Err(NoMemory) => only(alloc, Status::NoMemory),
    }
}

// Opens the store of a disk by its settings, and tells what it keeps.
fn list_by<D: Yard>(alloc: Global, conf: &Conf, disk: D) -> (Came, D)
    requires settings { HasSettings D.tells D.content D.fault_count D.moment D.images disk (conf_text conf.now) }
    requires keeps { KeepsLimits (conf_text conf.now) }
    requires ready { D.tells ≡ true → Every (Now D.moment D.images disk) (IsReady (D.content disk)) }
    ensures { Over_still D.files D.tells D.content D.fault_count D.moment D.images Listing disk (told_of result.0) result.1 }
{
    match NodeStore::open(alloc, disk, home_of(conf)) {
        Ok((store, _recovery)) => (listed(alloc, store.state()), store.into_disk()),
        Err((disk, fault)) => unopened(alloc, fault, disk),
    }
}

/// Tells what the store of the disk keeps.
pub(crate) fn list_store<D: Yard>(alloc: Global, disk: D) -> (Came, D)
    requires ready { D.tells ≡ true → Every (Now D.moment D.images disk) (IsReady (D.content disk)) }
    ensures { Over_still D.files D.tells D.content D.fault_count D.moment D.images Listing disk (told_of result.0) result.1 }
{
    let mut disk = disk;
    match read_settings(alloc, &mut disk) {
        Ok(conf) => {
            what_is_read_keeps_limits();
            list_by(alloc, &conf, disk)
        }
        Err(fault) => unset(alloc, fault, disk),
    }
}

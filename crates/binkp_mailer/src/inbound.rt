//! What is received goes to the inbound folders.
ghost use Rattle.std.specs.Prelude.{◌≡◌, None, Some};
ghost use Rattle.inbound_files.specs.Giving.{GivesFiles};
ghost use Rattle.mail_conf.specs.ConfView.{conf_text};
ghost use Rattle.node_store.specs.Stored.{stand_of};
ghost use Rattle.session_run.specs.Reports.{report_text};
ghost use Rattle.binkp_mailer.specs.Inbound.{Gives_behind, waiting};
ghost use Rattle.binkp_mailer.specs.Reports.{FailedIsBroken, had_of, told_of};
ghost use Rattle.command_base.specs.Statuses.{status_after};

use crate::Outcome;
use disk_model::Yard;
use inbound_files::give_files;
use mail_conf::Conf;
use node_model::StoreFault;
use node_store::NodeStore;
use session_run::Report;
use std::alloc::Global;

// One round of giving, for all files that may be given.
fn give_waiting<D: Yard>(
    alloc: Global,
    conf: &Conf,
    store: &mut NodeStore<D>,
) -> Result<(), StoreFault>
    requires { store.old.memory.broken ≡ None }
    ensures { GivesFiles (stand_of D.tells D.content D.fault_count D.moment D.images) (conf_text conf.now).inbound (conf_text conf.now).inbound_nonsecure (waiting (stand_of D.tells D.content D.fault_count D.moment D.images store.old)) store.old result store.new }
{
    let files = store.waits();
    give_files(alloc, store, &conf.inbound, &conf.inbound_nonsecure, files)
}

// Gives received files behind a session of which this is reported.
fn give_behind_session<D: Yard>(
    alloc: Global,
    conf: &Conf,
    report: Report,
    store: NodeStore<D>,
) -> (Outcome, NodeStore<D>)
    ensures gives { Gives_behind D.tells D.content D.fault_count D.moment D.images (conf_text conf.now) (Some (report_text report)) (status_after (report_text report).end) (had_of result.0) store result.1 }
    ensures told { told_of result.0 ≡ Some (report_text report) }
{
    if store.broken().is_some() {
        return (Outcome::Held(report), store);
    }
    let mut store = store;
    if give_waiting(alloc, conf, &mut store) == Err(StoreFault::Disk) {
        let faults = store.faults();
        return (Outcome::Ungiven(report, faults), store);
    }
    (Outcome::Held(report), store)
}

/// Gives received files to the inbound folders of the settings, behind a session that was held over the store, where that isn't
/// broken.
///
/// What can't be given for want of memory, or since both its names are in use, waits for a later call.
pub fn give_behind<D: Yard>(
    alloc: Global,
    conf: &Conf,
    outcome: Outcome,
    store: NodeStore<D>,
) -> (Outcome, NodeStore<D>)
    requires { FailedIsBroken outcome store.memory.broken }
    ensures gives { Gives_behind D.tells D.content D.fault_count D.moment D.images (conf_text conf.now) (told_of outcome) (had_of outcome) (had_of result.0) store result.1 }
    ensures told { told_of result.0 ≡ told_of outcome }
{
    match outcome {
        Outcome::Held(report) => give_behind_session(alloc, conf, report, store),
        outcome => (outcome, store),
    }
}

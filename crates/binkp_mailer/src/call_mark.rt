//! The mark of a node that is called (FTS-5005): other programs leave its outbound to the call.
ghost use Rattle.std.specs.Prelude.{◌≡◌, IfOk, true};
ghost use Rattle.ftn_addr.specs.Address.{address};
ghost use Rattle.mail_conf.specs.ConfView.{conf_text};
ghost use Rattle.mail_conf.specs.Limits.{KeepsLimits};
ghost use Rattle.bso_outbound.specs.Paths.{last_part};
ghost use Rattle.node_store.specs.Names.{is_note, mark_name};
ghost use Rattle.node_store.specs.declared.names.MarkKind.TheVariants.{Call};
ghost use Rattle.binkp_mailer.specs.OverLines.{Frees, call_mark, call_text};
ghost use Rattle.binkp_mailer.specs.Reports.{FailedIsBroken, had_of, told_of};

use crate::Outcome;
use bso_outbound::{Kind, last_part, name_of};
use busy_marks::mark_text;
use disk_model::{Name, Yard};
use ftn_addr::{Addr, Bytes, NoMemory};
use mail_conf::Conf;
use node_store::{MarkKind, NodeStore, mark_file};
use session_core::home_of;
use std::alloc::Global;

/// A call mark: its path, the own file that notes it, what it says, and the name of its file.
#[derive(Debug, Drop)]
pub(crate) struct CallMark {
    pub(crate) path: Bytes,
    pub(crate) note: Name,
    pub(crate) text: Bytes,
    pub(crate) name: Bytes,
}

// The path of the mark: that of a request, but for its ending.
fn mark_path(alloc: Global, conf: &Conf, peer: &Addr) -> Result<Bytes, NoMemory>
    ensures { IfOk result (λ path. path.list ≡ call_mark (conf_text conf.now) (address peer.now)) }
{
    let mut path = name_of(alloc, peer, Kind::Request, &conf.base, conf.zone)?;
    let front = path.len().saturating_sub(4);
    path.truncate(front);
    path.push_slice(b".csy")?;
    Ok(path)
}

impl CallMark {
    /// That of a node, by the settings.
    pub(crate) fn of(alloc: Global, conf: &Conf, peer: &Addr) -> Result<CallMark, NoMemory>
        requires keeps { KeepsLimits (conf_text conf.now) }
        ensures path { IfOk result (λ mark. mark.path.list ≡ call_mark (conf_text conf.now) (address peer.now)) }
        ensures note { IfOk result (λ mark. is_note mark.note ≡ true) }
        ensures own { IfOk result (λ mark. mark.note ≡ mark_name (address peer.now) Call) }
        ensures text { IfOk result (λ mark. mark.text.list ≡ call_text (conf_text conf.now)) }
        ensures name { IfOk result (λ mark. mark.name.list ≡ last_part (call_mark (conf_text conf.now) (address peer.now))) }
    {
        let path = mark_path(alloc, conf, peer)?;
        let text = mark_text(alloc, home_of(conf))?;
        let name = Bytes::from_slice(alloc, last_part(path.as_slice()))?;
        Ok(CallMark {
            path,
            note: mark_file(peer, MarkKind::Call),
            text,
            name,
        })
    }
}

/// Takes the mark away behind a call of which that came, where the store isn't broken.
pub(crate) fn free<D: Yard>(
    mark: &CallMark,
    outcome: Outcome,
    store: NodeStore<D>,
) -> (Outcome, NodeStore<D>)
    requires note { is_note mark.now.note ≡ true }
    requires failed { FailedIsBroken outcome store.memory.broken }
    ensures frees { Frees D.tells D.content D.fault_count D.moment D.images mark.now.path.list mark.now.text.list (had_of outcome) (had_of result.0) store result.1 }
    ensures told { told_of result.0 ≡ told_of outcome }
    ensures failed { FailedIsBroken result.0 result.1.memory.broken }
{
    if store.broken().is_some() {
        return (outcome, store);
    }
    let mut store = store;
    match store.unmark(&mark.path, &mark.note, &mark.text) {
        Ok(()) => (outcome, store),
        Err(_) => {
            let faults = store.faults();
            (outcome.failed(faults), store)
        }
    }
}

//! A session that begins with the take-in of its peer's outbound.
ghost use Rattle.std.specs.Prelude.{◌≡◌, false, IfErr, IfOk, None};
ghost use Rattle.ftn_addr.specs.Address.{address};
ghost use Rattle.mail_conf.specs.ConfView.{conf_text};
ghost use Rattle.mail_conf.specs.Limits.{KeepsLimits};
ghost use Rattle.node_model.specs.Node.{Settings};
ghost use Rattle.node_model.specs.Receipts.{HasOnce, SettledStays};
ghost use Rattle.node_store.specs.Stored.{stand_of};
ghost use Rattle.hub_core.specs.Hubs.{hub_state};
ghost use Rattle.hub_core.specs.Opening.{IsWhole, no_seats};
ghost use Rattle.outbound_desk.specs.Lines.{IsDeskReady};
ghost use Rattle.session_auth.specs.Sides.{side_of};
ghost use Rattle.session_core.specs.Stages.{home_of};
ghost use Rattle.binkp_mailer.specs.Reports.{FailedIsBroken, had_of, told_of};
ghost use Rattle.binkp_mailer.specs.TopCall.{new_hub, IfTells, IsCall, OnceAfter, StatusCause, StaysTold};

use crate::{Outcome, hub_conf};
use binkp_link::Line;
use binkp_serve::hold;
use disk_model::Yard;
use ftn_addr::{Bytes, NoMemory};
use hub_core::{Hub, HubDesk};
use mail_conf::Conf;
use node_store::NodeStore;
use outbound_desk::{DeskOutbound, LineDesk};
use outbound_store::TakingStore;
use session_core::{Side, home_of};
use std::alloc::Global;

// The folders of files that may be requested.
fn folders_of(alloc: Global, conf: &Conf) -> Result<Vec<Bytes>, NoMemory> {
    let mut folders = Vec::new(alloc);
    for share in &conf.shares {
        folders.push(share.copy(alloc)?)?;
    }
    Ok(folders)
}

// The outbound of the settings, and the folders of files that may be requested.
fn outbound_of(alloc: Global, conf: &Conf) -> Result<DeskOutbound, NoMemory>
    requires { KeepsLimits (conf_text conf.now) }
    ensures { IfOk result (λ outbound. address outbound.home ≡ home_of (conf_text conf.now).addresses) }
{
    Ok(DeskOutbound {
        home: home_of(conf).copy(alloc)?,
        base: conf.base.copy(alloc)?,
        zone: conf.zone,
        folders: folders_of(alloc, conf)?,
    })
}

// The desk of the one seat of a new hub over the store, with the outbound of the settings; or the store, where there is no memory.
pub(crate) fn desk_over<D: Yard>(
    alloc: Global,
    conf: &Conf,
    store: NodeStore<D>,
) -> Result<LineDesk<TakingStore<D>>, NodeStore<D>>
    requires keeps { KeepsLimits (conf_text conf.now) }
    requires fits { (settings : Settings) → IsWhole (stand_of D.tells D.content D.fault_count D.moment D.images store) (no_seats settings) }
    ensures store { IfOk result (λ desk. desk.desk.hub.store.store ≡ store) }
    ensures hub { IfOk result (λ desk. hub_state desk.desk.hub.seats ≡ new_hub (conf_text conf.now)) }
    ensures seat { IfOk result (λ desk. desk.desk.seat ≡ 0) }
    ensures ready { IfOk result (λ desk. IsDeskReady (stand_of D.tells D.content D.fault_count D.moment D.images desk.desk.hub.store.store) (hub_state desk.desk.hub.seats) desk.desk.seat (address desk.outbound.home)) }
    ensures err { IfErr result (λ left. left ≡ store) }
{
    let hub_conf = match hub_conf(alloc, conf) {
        Ok(hub_conf) => hub_conf,
        Err(NoMemory) => return Err(store),
    };
    let outbound = match outbound_of(alloc, conf) {
        Ok(outbound) => outbound,
        Err(NoMemory) => return Err(store),
    };
    let mut hub = Hub::new(alloc, TakingStore::new(store), hub_conf);
    let seat = match hub.seat() {
        Ok(seat) => seat,
        Err(NoMemory) => return Err(hub.into_store().into_store()),
    };
    Ok(LineDesk {
        desk: HubDesk { hub, seat },
        outbound,
        alloc,
    })
}

/// Holds one session over the line and the store on a disk, by the settings, and gives the store back. The challenge is offered at
/// the answering side. As it begins, the outbound of the settings is taken in for each peer address of the first address's domain. What other programs
/// have marked is passed over; where a take-in finds no room or no memory, or its disk fails, the session ends so.
pub fn hold_with_outbound<D: Yard, L: Line>(
    alloc: Global,
    side: Side,
    conf: &Conf,
    challenge: [u8; 16],
    store: NodeStore<D>,
    line: &mut L,
    now: u64,
) -> (Outcome, NodeStore<D>)
    requires keeps { KeepsLimits (conf_text conf.now) }
    requires whole { store.memory.broken ≡ None }
    requires fits { (settings : Settings) → IsWhole (stand_of D.tells D.content D.fault_count D.moment D.images store) (no_seats settings) }
    requires calm { (L.state line.old).calm ≡ 0 }
    requires open { (L.state line.old).closed ≡ false }
    ensures call { IsCall (side_of side) (record { conf = conf_text conf.now; challenge = challenge; moment = now }) (L.state line.old) (stand_of D.tells D.content D.fault_count D.moment D.images store) (told_of result.0) (had_of result.0) (L.state line.new) (stand_of D.tells D.content D.fault_count D.moment D.images result.1) }
    ensures cause { StatusCause (conf_text conf.now).session_limit (had_of result.0) (L.state line.old) (L.state line.new) (stand_of D.tells D.content D.fault_count D.moment D.images store).state.counts (stand_of D.tells D.content D.fault_count D.moment D.images result.1).state.counts }
    ensures failed { FailedIsBroken result.0 result.1.memory.broken }
    ensures once { OnceAfter (stand_of D.tells D.content D.fault_count D.moment D.images store).state.content (stand_of D.tells D.content D.fault_count D.moment D.images result.1).state.content }
    ensures stays { StaysTold (stand_of D.tells D.content D.fault_count D.moment D.images store).state.content (stand_of D.tells D.content D.fault_count D.moment D.images result.1).state.content }
    ensures stop_once { IfTells (stand_of D.tells D.content D.fault_count D.moment D.images store) (stand_of D.tells D.content D.fault_count D.moment D.images result.1) (λ old. HasOnce) }
    ensures stop_stays { IfTells (stand_of D.tells D.content D.fault_count D.moment D.images store) (stand_of D.tells D.content D.fault_count D.moment D.images result.1) SettledStays }
{
    let mut desk = match desk_over(alloc, conf, store) {
        Ok(desk) => desk,
        Err(store) => return (Outcome::NoMemory, store),
    };
    let report = hold(alloc, side, conf, challenge, &mut desk, line, now);
    (
        Outcome::Held(report),
        desk.desk.hub.into_store().into_store(),
    )
}

//! Queueing what a take brings, with its number.
ghost use Rattle.outbound_take.specs.Ruled.{Ruled};
ghost use Rattle.std.specs.Prelude.{◌≡◌, ◌∷◌, [], List, IfNone, IfOk, IfSome, MatchOption, OnOk, None, Some, false, map};
ghost use Rattle.ftn_addr.specs.Address.{address};
ghost use Rattle.ftn_addr.specs.Limits.{IsAddress};
ghost use Rattle.bso_outbound.specs.declared.kind.Kind.TheVariants as K;
ghost use Rattle.node_model.specs.StoreWords.{entry_of};
ghost use Rattle.outbound_model.specs.Outbound.{Outbound};
ghost use Rattle.outbound_model.specs.OwnNames.{number_of};
ghost use Rattle.outbound_take.specs.Calls.{AreNew, Has, IsLike, IsTakeFor, bodies_of, noted};
ghost use Rattle.outbound_take.specs.Ours.{Ours, left_noted, queued_as};
ghost use Rattle.outbound_take.specs.Plans.{IsOver, IsWhole, PlansTake, WaitsOver};
ghost use Rattle.outbound_take.specs.Spares.{SparesTakes, TellsSo};
ghost use Rattle.outbound_take.specs.Stand.{Breaks, IsCalm, Settles, TakeStand, told};

use crate::Outgoing;
use crate::lines::{Plans, fates_of, plan_lines};
use crate::whole::plan_whole;
use bso_outbound::Kind;
use disk_model::Name;
use flow_file::read_flow;
use ftn_addr::Addr;
use node_model::{Flavour, StoreFault};
use outbound_model::Fate;
use std::alloc::Global;

// Stages the files of a flow file's lines.
fn plan_flow<S: Outgoing>(
    store: &mut S,
    alloc: Global,
    dest: &Addr,
    now: u64,
    own: &Name,
    flavour: Flavour,
) -> Result<Plans, StoreFault>
    requires whole { (S.stand store.old).memory.broken ≡ None }
    requires calm { IsCalm (S.stand store.old) }
    requires address { IsAddress (address dest.now) }
    requires left { Has own.now false (S.stand store.old).memory.left }
    ensures works { Ours (address dest.now) now (λ plans. []) result (S.stand store.old) (S.stand store.new) }
    ensures told { Settles result → told (S.stand store.new) ≡ told (S.stand store.old) }
    ensures memory { Settles result → IsLike (S.stand store.old).memory (S.stand store.new).memory }
    ensures staged { IfOk result (λ plans. AreNew (map entry_of plans.files.items) (S.stand store.new).memory) }
    ensures planned { IfOk result (λ plans. (s : Outbound) → told (S.stand store.old) ≡ Some s → PlansTake (K.Flow flavour) (address dest.now) now own.now s (bodies_of (S.stand store.new).content) plans.lines.items (map entry_of plans.files.items)) }
    ensures ruled { Ruled S.rule store.old store.new }
    ensures breaks { Breaks result (S.stand store.new) }
{
    let bytes = match store.read_take(alloc, own) {
        Ok(bytes) => bytes,
        Err(fault) => return Err(fault),
    };
    let lines = match read_flow(alloc, bytes.as_slice()) {
        Ok(lines) => lines,
        Err(_) => return Err(StoreFault::NoMemory),
    };
    match plan_lines(store, alloc, dest, now, flavour, lines) {
        Ok(plans) => Ok(plans),
        Err(fault) => Err(fault),
    }
}

// Stages what a take brings. There is no plan where it is a packet or a request over the limit of files.
fn plan_take<S: Outgoing>(
    store: &mut S,
    alloc: Global,
    dest: &Addr,
    now: u64,
    own: &Name,
    kind: Kind,
) -> Result<Option<Plans>, StoreFault>
    requires whole { (S.stand store.old).memory.broken ≡ None }
    requires calm { IsCalm (S.stand store.old) }
    requires address { IsAddress (address dest.now) }
    requires left { Has own.now false (S.stand store.old).memory.left }
    ensures works { Ours (address dest.now) now (λ plan. []) result (S.stand store.old) (S.stand store.new) }
    ensures told { Settles result → told (S.stand store.new) ≡ told (S.stand store.old) }
    ensures memory { Settles result → IsLike (S.stand store.old).memory (S.stand store.new).memory }
    ensures staged { IfOk result (λ plan. IfSome plan (λ plans. AreNew (map entry_of plans.files.items) (S.stand store.new).memory)) }
    ensures planned { IfOk result (λ plan. (s : Outbound) → told (S.stand store.old) ≡ Some s → MatchOption plan (IsOver own.now s) (λ plans. PlansTake kind (address dest.now) now own.now s (bodies_of (S.stand store.new).content) plans.lines.items (map entry_of plans.files.items))) }
    ensures over { IfOk result (λ plan. IfNone plan (IsWhole kind)) }
    ensures ruled { Ruled S.rule store.old store.new }
    ensures breaks { Breaks result (S.stand store.new) }
{
    match kind {
        Kind::Flow(flavour) => match plan_flow(store, alloc, dest, now, own, flavour) {
            Ok(plans) => Ok(Some(plans)),
            Err(fault) => Err(fault),
        },
        Kind::Mail(flavour) => plan_whole(store, alloc, dest, now, own, Kind::Mail(flavour)),
        Kind::Request => plan_whole(store, alloc, dest, now, own, Kind::Request),
    }
}

/// Queues what a take brings, with its number, and says what became of it. A packet or a request of more than 2,147,483,647 bytes
/// stays as it is, and has no fates.
pub fn queue_take<S: Outgoing>(
    store: &mut S,
    alloc: Global,
    dest: &Addr,
    now: u64,
    own: &Name,
    kind: Kind,
) -> Result<Option<Vec<Fate>>, StoreFault>
    requires whole { (S.stand store.old).memory.broken ≡ None }
    requires calm { IsCalm (S.stand store.old) }
    requires address { IsAddress (address dest.now) }
    requires named { IsTakeFor (address dest.now) kind own.now }
    requires left { Has own.now false (S.stand store.old).memory.left }
    ensures works { Ours (address dest.now) now (λ fates. queued_as kind fates) result (S.stand store.old) (S.stand store.new) }
    ensures whole { Settles result → (S.stand store.new).memory.broken ≡ None }
    ensures noted { IfOk result (λ fates. (S.stand store.new).memory.left ≡ left_noted own.now fates (S.stand store.old).memory.left) }
    ensures spares { OnOk result (TellsSo SparesTakes (S.stand store.old) (S.stand store.new)) }
    ensures over { IfOk result (λ fates. IfNone fates (WaitsOver kind own.now (told (S.stand store.new)))) }
    ensures ruled { Ruled S.rule store.old store.new }
    ensures breaks { Breaks result (S.stand store.new) }
{
    let plans = match plan_take(store, alloc, dest, now, own, kind) {
        Ok(Some(plans)) => plans,
        Ok(None) => return Ok(None),
        Err(fault) => return Err(fault),
    };
    let slots = match store.queue_all(alloc, own, plans.files.as_slice()) {
        Ok(slots) => slots,
        Err(fault) => return Err(fault),
    };
    match fates_of(alloc, plans.lines.as_slice(), slots.as_slice()) {
        Ok(fates) => Ok(Some(fates)),
        Err(_) => Err(StoreFault::NoMemory),
    }
}

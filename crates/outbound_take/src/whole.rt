//! What is planned for packets and requests, which are one file each.
ghost use Rattle.outbound_take.specs.Ruled.{Ruled};
ghost use Rattle.std.specs.Prelude.{◌≡◌, ◌∷◌, [], ◌≤◌, List, IfOk, IfSome, MatchOption, OnOk, None, Some, false, map};
ghost use Rattle.ftn_addr.specs.Address.{address};
ghost use Rattle.ftn_addr.specs.Limits.{IsAddress};
ghost use Rattle.ftn_addr.specs.declared.limits.TheConstants.{MAX_SIZE as GREATEST};
ghost use Rattle.node_model.specs.StoreWords.{entry_of};
ghost use Rattle.outbound_model.specs.Fates.{flavour_of, packet_name, request_name, whole_entry, whole_name};
ghost use Rattle.outbound_model.specs.Outbound.{Outbound};
ghost use Rattle.outbound_take.specs.Calls.{AreNew, Has, IsLike, bodies_of};
ghost use Rattle.outbound_take.specs.Ours.{Ours};
ghost use Rattle.outbound_take.specs.Plans.{IsOver, IsWhole, PlansTake};
ghost use Rattle.outbound_take.specs.Stand.{Breaks, IsCalm, Settles, TakeStand, told};

use crate::Outgoing;
use crate::lines::Plans;
use bso_outbound::{Kind, name_of};
use disk_model::Name;
use ftn_addr::{Action, Addr, Bytes, FileKey, MAX_SIZE, NoMemory};
use node_model::{Flavour, NewFile, StoreFault, numbered_name};
use std::alloc::Global;

fn flavour_of(kind: Kind) -> Flavour
    ensures { result ≡ flavour_of kind }
{
    match kind {
        Kind::Flow(flavour) => flavour,
        Kind::Mail(flavour) => flavour,
        Kind::Request => Flavour::Normal,
    }
}

// Eight digits of a queue number, and `.pkt`.
fn packet_name(alloc: Global, number: u32) -> Result<Bytes, NoMemory>
    ensures { IfOk result (λ name. name.list ≡ packet_name number) }
{
    let mut name = numbered_name(alloc, number, b"")?;
    name.truncate(8);
    name.push_slice(b".pkt")?;
    Ok(name)
}

// The last part of a request's path: eight digits, and `.req`.
fn request_name(alloc: Global, dest: &Addr) -> Result<Bytes, NoMemory>
    ensures { IfOk result (λ name. name.list ≡ request_name (address dest.now)) }
{
    let base = Bytes::new(alloc);
    let mut name = name_of(alloc, dest, Kind::Request, &base, dest.zone)?;
    let front = name.len().saturating_sub(12);
    name.drop_front(front);
    Ok(name)
}

fn whole_name(alloc: Global, kind: Kind, dest: &Addr, number: u32) -> Result<Bytes, NoMemory>
    ensures { IfOk result (λ name. name.list ≡ whole_name kind (address dest.now) number) }
{
    match kind {
        Kind::Flow(_) => Ok(Bytes::new(alloc)),
        Kind::Mail(_) => packet_name(alloc, number),
        Kind::Request => request_name(alloc, dest),
    }
}

// The file that is to be queued for a packet or a request.
fn whole_file(
    alloc: Global,
    kind: Kind,
    dest: &Addr,
    now: u64,
    size: u64,
    number: u32,
) -> Result<NewFile, NoMemory>
    ensures { IfOk result (λ f. entry_of f ≡ whole_entry kind (address dest.now) now size number) }
{
    let name = whole_name(alloc, kind, dest, number)?;
    let dest = dest.copy(alloc)?;
    let key = FileKey {
        name,
        size,
        time: now,
    };
    Ok(NewFile {
        number,
        dest,
        key,
        source: Bytes::new(alloc),
        action: Action::Leave,
        flavour: flavour_of(kind),
    })
}

/// Stages a packet or a request. There is no plan where it is over the limit of files.
#[tactic(auto, using(crate::proofs::RuledLemmas::ruled_one))]
pub(crate) fn plan_whole<S: Outgoing>(
    store: &mut S,
    alloc: Global,
    dest: &Addr,
    now: u64,
    own: &Name,
    kind: Kind,
) -> Result<Option<Plans>, StoreFault>
    requires whole { (S.stand store.old).memory.broken ≡ None }
    requires address { IsAddress (address dest.now) }
    requires kind { IsWhole kind }
    requires left { Has own.now false (S.stand store.old).memory.left }
    ensures works { Ours (address dest.now) now (λ plan. []) result (S.stand store.old) (S.stand store.new) }
    ensures told { Settles result → told (S.stand store.new) ≡ told (S.stand store.old) }
    ensures memory { Settles result → IsLike (S.stand store.old).memory (S.stand store.new).memory }
    ensures staged { IfOk result (λ plan. IfSome plan (λ plans. AreNew (map entry_of plans.files.items) (S.stand store.new).memory)) }
    ensures planned { IfOk result (λ plan. (s : Outbound) → told (S.stand store.old) ≡ Some s → MatchOption plan (IsOver own.now s) (λ plans. PlansTake kind (address dest.now) now own.now s (bodies_of (S.stand store.new).content) plans.lines.items (map entry_of plans.files.items))) }
    ensures ruled { Ruled S.rule store.old store.new }
    ensures breaks { Breaks result (S.stand store.new) }
{
    let (number, size) = match store.stage_own(own) {
        Ok(staged) => staged,
        Err(fault) => return Err(fault),
    };
    if size > MAX_SIZE {
        return Ok(None);
    }
    let file = match whole_file(alloc, kind, dest, now, size, number) {
        Ok(file) => file,
        Err(_) => return Err(StoreFault::NoMemory),
    };
    match Plans::of_file(alloc, file) {
        Ok(plans) => Ok(Some(plans)),
        Err(_) => Err(StoreFault::NoMemory),
    }
}

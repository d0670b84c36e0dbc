//! The files of one address in an outbound, in the order in which they are taken in.
ghost use Rattle.std.specs.Prelude.{◌≡◌, IfOk, None, OnOk, Some};
ghost use Rattle.std.specs.List.Sorted.{IsPermutation};
ghost use Rattle.ftn_addr.specs.Address.{address};
ghost use Rattle.ftn_addr.specs.Limits.{IsAddress};
ghost use Rattle.outbound_model.specs.Outbound.{Outbound};
ghost use Rattle.outbound_take.specs.Ruled.{Ruled};
ghost use Rattle.outbound_take.specs.Stand.{Breaks, IsCalm, Settles, TakeStand, told};
ghost use Rattle.outbound_intake.specs.Asks.{Asks};
ghost use Rattle.outbound_intake.specs.Files.{AreFor, HasFiles, files_of};
ghost use Rattle.outbound_intake.specs.Orders.{IsInOrder, flavour_rank, rank_of};

use crate::folders::folders_for;
use crate::listing::add_files;
use crate::words::{Found, OutboundAt};
use bso_outbound::Kind;
use ftn_addr::{Addr, NoMemory};
use node_model::{Flavour, StoreFault};
use outbound_take::Outgoing;
use std::alloc::Global;

fn flavour_rank(flavour: Flavour) -> u8
    ensures { result ≡ flavour_rank flavour }
{
    match flavour {
        Flavour::Immediate => 0,
        Flavour::Crash => 1,
        Flavour::Direct => 2,
        Flavour::Normal => 3,
        Flavour::Hold => 4,
    }
}

// The place of a kind in the order in which files are taken in.
fn rank_of(kind: Kind) -> u8
    ensures { result ≡ rank_of kind }
{
    match kind {
        Kind::Mail(flavour) => flavour_rank(flavour),
        Kind::Flow(flavour) => 5 + flavour_rank(flavour),
        Kind::Request => 10,
    }
}

fn put_in_order(found: &mut Vec<Found>) -> Result<(), NoMemory>
    ensures same { IsPermutation found.old.items found.new.items }
    ensures order { OnOk result (IsInOrder found.new.items) }
{
    found.sort_by_key(|file| rank_of(file.kind))?;
    Ok(())
}

/// The files of an address in an outbound, in the order in which they are taken in: netmail and then flow files, each from
/// immediate to hold, and then requests. Names are compared with ASCII case ignored.
#[tactic(auto, using(outbound_take::proofs::RuledLemmas::ruled_on, outbound_take::proofs::RuledLemmas::ruled_none))]
pub(crate) fn found_files<S: Outgoing>(
    store: &mut S,
    alloc: Global,
    outbound: &OutboundAt<'_>,
    dest: &Addr,
) -> Result<Vec<Found>, StoreFault>
    requires whole { (S.stand store.old).memory.broken ≡ None }
    requires calm { IsCalm (S.stand store.old) }
    requires address { IsAddress (address dest.now) }
    requires home { IsAddress (address outbound.now.home.now) }
    ensures asks { Asks (Settles result) (S.stand store.old) (S.stand store.new) }
    ensures all { IfOk result (λ found. (s : Outbound) → told (S.stand store.old) ≡ Some s → HasFiles outbound.now.base.now.list outbound.now.zone outbound.now.home.now.domain.list (address dest.now) s.outside (files_of found.items)) }
    ensures only { IfOk result (λ found. AreFor outbound.now.base.now.list outbound.now.zone outbound.now.home.now.domain.list (address dest.now) (files_of found.items)) }
    ensures order { IfOk result (λ found. IsInOrder found.items) }
    ensures ruled { Ruled S.rule store.old store.new }
    ensures breaks { Breaks result (S.stand store.new) }
{
    let folders = match folders_for(store, alloc, outbound, dest) {
        Ok(folders) => folders,
        Err(fault) => return Err(fault),
    };
    let mut found = Vec::new(alloc);
    for folder in &folders {
        match add_files(store, alloc, outbound, dest, folder, &mut found) {
            Ok(()) => {}
            Err(fault) => return Err(fault),
        }
    }
    match put_in_order(&mut found) {
        Ok(()) => Ok(found),
        Err(_) => Err(StoreFault::NoMemory),
    }
}

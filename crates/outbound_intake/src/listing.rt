//! The files of one address in a folder of an outbound.
ghost use Rattle.std.specs.Prelude.{◌≡◌, ◌++◌, ◌∷◌, IfOk, None, OnOk, Some, map};
ghost use Rattle.ftn_addr.specs.Address.{address};
ghost use Rattle.ftn_addr.specs.Limits.{IsAddress};
ghost use Rattle.outbound_model.specs.Outbound.{Outbound};
ghost use Rattle.outbound_places.specs.Outbound.{IsAmong, IsAt, IsIn, IsNamed};
ghost use Rattle.outbound_take.specs.Ruled.{Ruled};
ghost use Rattle.outbound_take.specs.Stand.{Breaks, Settles, TakeStand, told};
ghost use Rattle.outbound_intake.specs.Asks.{Asks};
ghost use Rattle.outbound_intake.specs.Files.{AddsFor, FileAt, FindsFor, StandsSo, files_of};

use crate::words::{Found, OutboundAt};
use bso_outbound::addr_of;
use ftn_addr::{Addr, Bytes, NoMemory, is_same_address};
use node_model::StoreFault;
use outbound_take::Outgoing;
use std::alloc::Global;

fn path_of(alloc: Global, folder: &Bytes, name: &Bytes) -> Result<Bytes, NoMemory>
    ensures { IfOk result (λ path. path.list ≡ folder.now.list ++ 47 ∷ name.now.list) }
{
    let mut path = folder.copy(alloc)?;
    path.push_slice(b"/")?;
    path.push_slice(name.as_slice())?;
    Ok(path)
}

// The file of that name in a folder, where it is for the address.
fn file_at(
    alloc: Global,
    outbound: &OutboundAt<'_>,
    dest: &Addr,
    folder: &Bytes,
    name: &Bytes,
) -> Result<Option<Found>, NoMemory>
    requires home { IsAddress (address outbound.now.home.now) }
    requires address { IsAddress (address dest.now) }
    ensures { IfOk result (λ found. FileAt outbound.now.base.now.list outbound.now.zone outbound.now.home.now.domain.list (address dest.now) (folder.now.list ++ 47 ∷ name.now.list) found) }
{
    let OutboundAt { home, base, zone } = *outbound;
    match addr_of(alloc, folder.as_slice(), name.as_slice(), home, base, zone)? {
        None => Ok(None),
        Some((addr, kind)) => {
            if !is_same_address(&addr, dest) {
                return Ok(None);
            }
            let path = path_of(alloc, folder, name)?;
            Ok(Some(Found { path, kind }))
        }
    }
}

// Adds the file of that name in a folder, where it is for the address.
fn add_file(
    alloc: Global,
    outbound: &OutboundAt<'_>,
    dest: &Addr,
    folder: &Bytes,
    name: &Bytes,
    found: &mut Vec<Found>,
) -> Result<(), NoMemory>
    requires home { IsAddress (address outbound.now.home.now) }
    requires address { IsAddress (address dest.now) }
    ensures finds { OnOk result (FindsFor outbound.now.base.now.list outbound.now.zone outbound.now.home.now.domain.list (address dest.now) (IsAt folder.now.list name.now.list) (files_of found.old.items) (files_of found.new.items)) }
    ensures only { OnOk result (AddsFor outbound.now.base.now.list outbound.now.zone outbound.now.home.now.domain.list (address dest.now) (files_of found.old.items) (files_of found.new.items)) }
{
    match file_at(alloc, outbound, dest, folder, name)? {
        None => Ok(()),
        Some(file) => {
            found.push(file)?;
            Ok(())
        }
    }
}

// Adds those of these names in a folder.
fn add_names(
    alloc: Global,
    outbound: &OutboundAt<'_>,
    dest: &Addr,
    folder: &Bytes,
    names: &[Bytes],
    found: &mut Vec<Found>,
) -> Result<(), NoMemory>
    requires home { IsAddress (address outbound.now.home.now) }
    requires address { IsAddress (address dest.now) }
    ensures finds { OnOk result (FindsFor outbound.now.base.now.list outbound.now.zone outbound.now.home.now.domain.list (address dest.now) (IsAmong folder.now.list (map (λ name. name.list) names.now)) (files_of found.old.items) (files_of found.new.items)) }
    ensures only { OnOk result (AddsFor outbound.now.base.now.list outbound.now.zone outbound.now.home.now.domain.list (address dest.now) (files_of found.old.items) (files_of found.new.items)) }
{
    for name in names {
        add_file(alloc, outbound, dest, folder, name, found)?;
    }
    Ok(())
}

/// Adds the files of an address that stand directly in a folder.
#[tactic(auto, using(outbound_take::proofs::RuledLemmas::ruled_one))]
pub(crate) fn add_files<S: Outgoing>(
    store: &mut S,
    alloc: Global,
    outbound: &OutboundAt<'_>,
    dest: &Addr,
    folder: &Bytes,
    found: &mut Vec<Found>,
) -> Result<(), StoreFault>
    requires whole { (S.stand store.old).memory.broken ≡ None }
    requires home { IsAddress (address outbound.now.home.now) }
    requires address { IsAddress (address dest.now) }
    ensures asks { Asks (Settles result) (S.stand store.old) (S.stand store.new) }
    ensures finds { OnOk result ((s : Outbound) → told (S.stand store.old) ≡ Some s → IsNamed folder.now.list → FindsFor outbound.now.base.now.list outbound.now.zone outbound.now.home.now.domain.list (address dest.now) (StandsSo s.outside (IsIn folder.now.list)) (files_of found.old.items) (files_of found.new.items)) }
    ensures only { OnOk result (AddsFor outbound.now.base.now.list outbound.now.zone outbound.now.home.now.domain.list (address dest.now) (files_of found.old.items) (files_of found.new.items)) }
    ensures ruled { Ruled S.rule store.old store.new }
    ensures breaks { Breaks result (S.stand store.new) }
{
    let names = match store.names(folder) {
        Ok(names) => names,
        Err(fault) => return Err(fault),
    };
    match add_names(alloc, outbound, dest, folder, names.as_slice(), found) {
        Ok(()) => Ok(()),
        Err(_) => Err(StoreFault::NoMemory),
    }
}

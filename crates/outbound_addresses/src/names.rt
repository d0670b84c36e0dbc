//! What the names in one folder say.
ghost use Rattle.std.specs.Prelude.{◌≡◌, ◌++◌, ◌∷◌, None, OnOk, map};
ghost use Rattle.ftn_addr.specs.Address.{address};
ghost use Rattle.ftn_addr.specs.Limits.{IsAddress};
ghost use Rattle.node_model.specs.StoreStates.{IfTold};
ghost use Rattle.node_store.specs.Stored.{stand_of};
ghost use Rattle.outbound_places.specs.Files.{IsFor};
ghost use Rattle.outbound_places.specs.Outbound.{Finds, Grows, IsAmong, IsAt, IsIn, IsNamed};
ghost use Rattle.outbound_addresses.specs.Asking.{AsksLater};

use crate::asking::{Outbound, list, note, stands};
use disk_model::Yard;
use ftn_addr::Bytes;
use node_model::StoreFault;
use node_store::NodeStore;
use outbound_places::{OutboundFile, PlaceSet, file_in};
use std::alloc::Global;

/// Notes for whom a file is, where it stands.
fn note_file<D: Yard>(
    store: &mut NodeStore<D>,
    outbound: Outbound<'_>,
    file: &OutboundFile,
    found: &mut PlaceSet,
) -> Result<(), StoreFault>
    requires whole { store.old.memory.broken ≡ None }
    requires home { IsAddress (address outbound.home.now) }
    requires is_for { IsFor outbound.base.now.list outbound.zone file.now.path.list file.now.place }
    ensures grows { OnOk result (Grows found.old found.new) }
    ensures finds { OnOk result (IfTold (stand_of D.tells D.content D.fault_count D.moment D.images store.old).state.content (λ s. Finds outbound.entry.base.now.list outbound.entry.zone s.outside (λ path. path ≡ file.now.path.list) found.old found.new)) }
    ensures asks { AsksLater result (stand_of D.tells D.content D.fault_count D.moment D.images store.old) (stand_of D.tells D.content D.fault_count D.moment D.images store.new) }
{
    match stands(store, &file.path) {
        Err(fault) => Err(fault),
        Ok(false) => Ok(()),
        Ok(true) => note(file.place, found),
    }
}

/// Notes for whom the file of a name in a folder is, where it is one of the outbound.
fn note_name<D: Yard>(
    alloc: Global,
    store: &mut NodeStore<D>,
    outbound: Outbound<'_>,
    folder: &Bytes,
    name: &Bytes,
    found: &mut PlaceSet,
) -> Result<(), StoreFault>
    requires whole { store.old.memory.broken ≡ None }
    requires home { IsAddress (address outbound.home.now) }
    ensures grows { OnOk result (Grows found.old found.new) }
    ensures finds { OnOk result (IfTold (stand_of D.tells D.content D.fault_count D.moment D.images store.old).state.content (λ s. Finds outbound.entry.base.now.list outbound.entry.zone s.outside (IsAt folder.now.list name.now.list) found.old found.new)) }
    ensures asks { AsksLater result (stand_of D.tells D.content D.fault_count D.moment D.images store.old) (stand_of D.tells D.content D.fault_count D.moment D.images store.new) }
{
    let Outbound { home, base, zone } = outbound;
    match file_in(alloc, folder, name, home, base, zone) {
        Err(_) => Err(StoreFault::NoMemory),
        Ok(None) => Ok(()),
        Ok(Some(file)) => note_file(store, outbound, &file, found),
    }
}

/// Notes for whom the files of these names in a folder are.
pub(crate) fn note_names<D: Yard>(
    alloc: Global,
    store: &mut NodeStore<D>,
    outbound: Outbound<'_>,
    folder: &Bytes,
    names: &[Bytes],
    found: &mut PlaceSet,
) -> Result<(), StoreFault>
    requires whole { store.old.memory.broken ≡ None }
    requires home { IsAddress (address outbound.home.now) }
    ensures grows { OnOk result (Grows found.old found.new) }
    ensures finds { OnOk result (IfTold (stand_of D.tells D.content D.fault_count D.moment D.images store.old).state.content (λ s. Finds outbound.entry.base.now.list outbound.entry.zone s.outside (IsAmong folder.now.list (map (λ name. name.list) names.now)) found.old found.new)) }
    ensures asks { AsksLater result (stand_of D.tells D.content D.fault_count D.moment D.images store.old) (stand_of D.tells D.content D.fault_count D.moment D.images store.new) }
{
    for name in names {
        match note_name(alloc, store, outbound, folder, name, found) {
            Ok(()) => {}
            Err(fault) => return Err(fault),
        }
    }
    Ok(())
}

/// Notes for whom the files in a folder are.
pub(crate) fn note_folder<D: Yard>(
    alloc: Global,
    store: &mut NodeStore<D>,
    outbound: Outbound<'_>,
    folder: &Bytes,
    found: &mut PlaceSet,
) -> Result<(), StoreFault>
    requires whole { store.old.memory.broken ≡ None }
    requires home { IsAddress (address outbound.home.now) }
    ensures grows { OnOk result (Grows found.old found.new) }
    ensures finds { OnOk result (IfTold (stand_of D.tells D.content D.fault_count D.moment D.images store.old).state.content (λ s. IsNamed folder.now.list → Finds outbound.entry.base.now.list outbound.entry.zone s.outside (IsIn folder.now.list) found.old found.new)) }
    ensures asks { AsksLater result (stand_of D.tells D.content D.fault_count D.moment D.images store.old) (stand_of D.tells D.content D.fault_count D.moment D.images store.new) }
{
    match list(store, folder) {
        Err(fault) => Err(fault),
        Ok(names) => note_names(alloc, store, outbound, folder, names.as_slice(), found),
    }
}

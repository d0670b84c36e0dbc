//! From the folder above the base to the folders of zones and of points.
ghost use Rattle.std.specs.Prelude.{◌≡◌, ◌++◌, ◌∷◌, List, None, OnOk, map, ℕ};
ghost use Rattle.ftn_addr.specs.Address.{address};
ghost use Rattle.ftn_addr.specs.Limits.{IsAddress};
ghost use Rattle.node_model.specs.Lists.{Member};
ghost use Rattle.node_model.specs.Outside.{path_in};
ghost use Rattle.node_model.specs.StoreStates.{IfTold};
ghost use Rattle.node_store.specs.Stored.{stand_of};
ghost use Rattle.bso_outbound.specs.Paths.{folder_above};
ghost use Rattle.outbound_places.specs.Outbound.{Finds, Grows, IsBelow, IsBelowOne, IsBeside, IsEntry, IsIn, IsInOne, IsInZones, Lists};
ghost use Rattle.outbound_addresses.specs.Asking.{AsksLater};

use crate::asking::{Outbound, list};
use crate::names::{note_folder, note_names};
use bso_outbound::{folder_above, last_part, point_folder_of, zone_of};
use disk_model::Yard;
use ftn_addr::Bytes;
use node_model::StoreFault;
use node_store::NodeStore;
use outbound_places::{PlaceSet, path_in};
use std::alloc::Global;

/// Notes for whom the files in a folder of points are, where a name in the folder of a zone is that of one.
fn note_points_of<D: Yard>(
    alloc: Global,
    store: &mut NodeStore<D>,
    outbound: Outbound<'_>,
    folder: &Bytes,
    name: &Bytes,
    found: &mut PlaceSet,
) -> Result<(), StoreFault>
    requires whole { store.old.memory.broken ≡ None }
    requires home { IsAddress (address outbound.home.now) }
    ensures grows { OnOk result (Grows found.old found.new) }
    ensures finds { OnOk result (IfTold (stand_of D.tells D.content D.fault_count D.moment D.images store.old).state.content (λ s. IsBeside outbound.entry.base.now.list folder.now.list → IsEntry name.now.list → Finds outbound.entry.base.now.list outbound.entry.zone s.outside (IsIn (folder.now.list ++ 47 ∷ name.now.list)) found.old found.new)) }
    ensures asks { AsksLater result (stand_of D.tells D.content D.fault_count D.moment D.images store.old) (stand_of D.tells D.content D.fault_count D.moment D.images store.new) }
{
    if point_folder_of(name.as_slice()).is_none() {
        return Ok(());
    }
    match path_in(alloc, folder.as_slice(), name.as_slice()) {
        Err(_) => Err(StoreFault::NoMemory),
        Ok(points) => note_folder(alloc, store, outbound, &points, found),
    }
}

/// Notes for whom the files in the folders of points are that have one of these names in the folder of a zone.
fn note_points<D: Yard>(
    alloc: Global,
    store: &mut NodeStore<D>,
    outbound: Outbound<'_>,
    folder: &Bytes,
    names: &[Bytes],
    found: &mut PlaceSet,
) -> Result<(), StoreFault>
    requires whole { store.old.memory.broken ≡ None }
    requires home { IsAddress (address outbound.home.now) }
    ensures grows { OnOk result (Grows found.old found.new) }
    ensures finds { OnOk result (IfTold (stand_of D.tells D.content D.fault_count D.moment D.images store.old).state.content (λ s. IsBeside outbound.entry.base.now.list folder.now.list → ((n : List ℕ) → Member n (map (λ name. name.list) names.now) → IsEntry n) → Finds outbound.entry.base.now.list outbound.entry.zone s.outside (IsBelowOne folder.now.list (map (λ name. name.list) names.now)) found.old found.new)) }
    ensures asks { AsksLater result (stand_of D.tells D.content D.fault_count D.moment D.images store.old) (stand_of D.tells D.content D.fault_count D.moment D.images store.new) }
{
    for name in names {
        match note_points_of(alloc, store, outbound, folder, name, found) {
            Ok(()) => {}
            Err(fault) => return Err(fault),
        }
    }
    Ok(())
}

/// Notes for whom the files of these names in the folder of a zone are, and those in the folders of points.
fn note_listed<D: Yard>(
    alloc: Global,
    store: &mut NodeStore<D>,
    outbound: Outbound<'_>,
    folder: &Bytes,
    names: &[Bytes],
    found: &mut PlaceSet,
) -> Result<(), StoreFault>
    requires whole { store.old.memory.broken ≡ None }
    requires home { IsAddress (address outbound.home.now) }
    ensures grows { OnOk result (Grows found.old found.new) }
    ensures finds { OnOk result (IfTold (stand_of D.tells D.content D.fault_count D.moment D.images store.old).state.content (λ s. IsBeside outbound.entry.base.now.list folder.now.list → Lists folder.now.list s.outside (map (λ name. name.list) names.now) → Finds outbound.entry.base.now.list outbound.entry.zone s.outside (IsBelow folder.now.list) found.old found.new)) }
    ensures asks { AsksLater result (stand_of D.tells D.content D.fault_count D.moment D.images store.old) (stand_of D.tells D.content D.fault_count D.moment D.images store.new) }
{
    match note_names(alloc, store, outbound, folder, names, found) {
        Err(fault) => Err(fault),
        Ok(()) => note_points(alloc, store, outbound, folder, names, found),
    }
}

/// Notes for whom the files of a zone are, which stand in its folder and in the folders of points there.
fn note_zone<D: Yard>(
    alloc: Global,
    store: &mut NodeStore<D>,
    outbound: Outbound<'_>,
    folder: &Bytes,
    found: &mut PlaceSet,
) -> Result<(), StoreFault>
    requires whole { store.old.memory.broken ≡ None }
    requires home { IsAddress (address outbound.home.now) }
    ensures grows { OnOk result (Grows found.old found.new) }
    ensures finds { OnOk result (IfTold (stand_of D.tells D.content D.fault_count D.moment D.images store.old).state.content (λ s. IsBeside outbound.entry.base.now.list folder.now.list → Finds outbound.entry.base.now.list outbound.entry.zone s.outside (IsBelow folder.now.list) found.old found.new)) }
    ensures asks { AsksLater result (stand_of D.tells D.content D.fault_count D.moment D.images store.old) (stand_of D.tells D.content D.fault_count D.moment D.images store.new) }
{
    match list(store, folder) {
        Err(fault) => Err(fault),
        Ok(names) => note_listed(alloc, store, outbound, folder, names.as_slice(), found),
    }
}

/// Notes for whom the files of a zone are, where a name in the folder above the base is that of its folder.
fn note_zone_of<D: Yard>(
    alloc: Global,
    store: &mut NodeStore<D>,
    outbound: Outbound<'_>,
    name: &Bytes,
    found: &mut PlaceSet,
) -> Result<(), StoreFault>
    requires whole { store.old.memory.broken ≡ None }
    requires home { IsAddress (address outbound.home.now) }
    ensures grows { OnOk result (Grows found.old found.new) }
    ensures finds { OnOk result (IfTold (stand_of D.tells D.content D.fault_count D.moment D.images store.old).state.content (λ s. IsEntry name.now.list → Finds outbound.entry.base.now.list outbound.entry.zone s.outside (IsBelow (path_in (folder_above outbound.entry.base.now.list) name.now.list)) found.old found.new)) }
    ensures asks { AsksLater result (stand_of D.tells D.content D.fault_count D.moment D.images store.old) (stand_of D.tells D.content D.fault_count D.moment D.images store.new) }
{
    let base = outbound.base.as_slice();
    if zone_of(name.as_slice(), last_part(base), outbound.zone).is_none() {
        return Ok(());
    }
    match path_in(alloc, folder_above(base), name.as_slice()) {
        Err(_) => Err(StoreFault::NoMemory),
        Ok(folder) => note_zone(alloc, store, outbound, &folder, found),
    }
}

/// Notes for whom the files of the zones are whose folders have one of these names in the folder above the base.
fn note_each_zone<D: Yard>(
    alloc: Global,
    store: &mut NodeStore<D>,
    outbound: Outbound<'_>,
    names: &[Bytes],
    found: &mut PlaceSet,
) -> Result<(), StoreFault>
    requires whole { store.old.memory.broken ≡ None }
    requires home { IsAddress (address outbound.home.now) }
    ensures grows { OnOk result (Grows found.old found.new) }
    ensures finds { OnOk result (IfTold (stand_of D.tells D.content D.fault_count D.moment D.images store.old).state.content (λ s. ((n : List ℕ) → Member n (map (λ name. name.list) names.now) → IsEntry n) → Finds outbound.entry.base.now.list outbound.entry.zone s.outside (IsInOne (folder_above outbound.entry.base.now.list) (map (λ name. name.list) names.now)) found.old found.new)) }
    ensures asks { AsksLater result (stand_of D.tells D.content D.fault_count D.moment D.images store.old) (stand_of D.tells D.content D.fault_count D.moment D.images store.new) }
{
    for name in names {
        match note_zone_of(alloc, store, outbound, name, found) {
            Ok(()) => {}
            Err(fault) => return Err(fault),
        }
    }
    Ok(())
}

/// Notes for whom the files in the folders are that stand in the folder above the base.
fn note_above<D: Yard>(
    alloc: Global,
    store: &mut NodeStore<D>,
    outbound: Outbound<'_>,
    above: &Bytes,
    found: &mut PlaceSet,
) -> Result<(), StoreFault>
    requires whole { store.old.memory.broken ≡ None }
    requires home { IsAddress (address outbound.home.now) }
    ensures grows { OnOk result (Grows found.old found.new) }
    ensures finds { OnOk result (IfTold (stand_of D.tells D.content D.fault_count D.moment D.images store.old).state.content (λ s. above.now.list ≡ folder_above outbound.entry.base.now.list → Finds outbound.entry.base.now.list outbound.entry.zone s.outside (IsInZones outbound.entry.base.now.list) found.old found.new)) }
    ensures asks { AsksLater result (stand_of D.tells D.content D.fault_count D.moment D.images store.old) (stand_of D.tells D.content D.fault_count D.moment D.images store.new) }
{
    match list(store, above) {
        Err(fault) => Err(fault),
        Ok(names) => note_each_zone(alloc, store, outbound, names.as_slice(), found),
    }
}

/// Notes for whom the files of the outbound are.
pub(crate) fn note_zones<D: Yard>(
    alloc: Global,
    store: &mut NodeStore<D>,
    outbound: Outbound<'_>,
    found: &mut PlaceSet,
) -> Result<(), StoreFault>
    requires whole { store.old.memory.broken ≡ None }
    requires home { IsAddress (address outbound.home.now) }
    ensures grows { OnOk result (Grows found.old found.new) }
    ensures finds { OnOk result (IfTold (stand_of D.tells D.content D.fault_count D.moment D.images store.old).state.content (λ s. Finds outbound.entry.base.now.list outbound.entry.zone s.outside (IsInZones outbound.entry.base.now.list) found.old found.new)) }
    ensures asks { AsksLater result (stand_of D.tells D.content D.fault_count D.moment D.images store.old) (stand_of D.tells D.content D.fault_count D.moment D.images store.new) }
{
    match Bytes::from_slice(alloc, folder_above(outbound.base.as_slice())) {
        Err(_) => Err(StoreFault::NoMemory),
        Ok(above) => note_above(alloc, store, outbound, &above, found),
    }
}

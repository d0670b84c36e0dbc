//! The folders in which files of one address may stand.
ghost use Rattle.std.specs.Prelude.{◌≡◌, [], IfOk, None, OnOk, Some, map};
ghost use Rattle.ftn_addr.specs.Address.{address};
ghost use Rattle.ftn_addr.specs.Limits.{IsAddress};
ghost use Rattle.bso_outbound.specs.Names.{zone_folder};
ghost use Rattle.bso_outbound.specs.Paths.{folder_above, last_part};
ghost use Rattle.outbound_model.specs.Outbound.{Outbound};
ghost use Rattle.outbound_take.specs.Plans.{Answers};
ghost use Rattle.outbound_take.specs.Ruled.{Ruled};
ghost use Rattle.outbound_take.specs.Stand.{Breaks, IsCalm, Settles, TakeStand, told};
ghost use Rattle.outbound_intake.specs.Asks.{Asks};
ghost use Rattle.outbound_intake.specs.Files.{AddsFolders, FoldersFor, NamesPoints, NamesSo, NamesZone, PointFolders, ZoneFolders};

use crate::words::OutboundAt;
use bso_outbound::{folder_above, last_part, point_folder_of, zone_folder};
use ftn_addr::{Addr, Bytes, NoMemory, is_same_word};
use node_model::StoreFault;
use outbound_places::path_in;
use outbound_take::Outgoing;
use std::alloc::Global;

// The name of the folder of the address's zone, in the folder above the base.
fn zone_name(alloc: Global, outbound: &OutboundAt<'_>, dest: &Addr) -> Result<Bytes, NoMemory>
    ensures { IfOk result (λ name. name.list ≡ zone_folder (last_part outbound.now.base.now.list) dest.now.zone outbound.now.zone) }
{
    let own = Bytes::from_slice(alloc, last_part(outbound.base.as_slice()))?;
    zone_folder(alloc, &own, dest.zone, outbound.zone)
}

// Whether a folder of that name is for the points of the address's node.
fn is_of_node(name: &Bytes, dest: &Addr) -> bool
    requires { IsAddress (address dest.now) }
    ensures { Answers (NamesPoints (dest.now.net, dest.now.node) name.now.list) result }
{
    match point_folder_of(name.as_slice()) {
        Some((net, node)) => net == dest.net && node == dest.node,
        None => false,
    }
}

// The folders that have one of these names in a folder, and that name with ASCII case ignored.
fn named_among(
    alloc: Global,
    above: &Bytes,
    names: &[Bytes],
    whole: &Bytes,
) -> Result<Vec<Bytes>, NoMemory>
    ensures { IfOk result (λ folders. AddsFolders above.now.list (NamesSo whole.now.list) (map (λ name. name.list) names.now) [] (map (λ folder. folder.list) folders.items)) }
{
    let mut folders = Vec::new(alloc);
    for name in names {
        if !is_same_word(name.as_slice(), whole.as_slice()) {
            continue;
        }
        folders.push(path_in(alloc, above.as_slice(), name.as_slice())?)?;
    }
    Ok(folders)
}

// The folders that have one of these names in the folder above the base, and are for the zone of the address.
fn zones_among(
    alloc: Global,
    above: &Bytes,
    names: &[Bytes],
    outbound: &OutboundAt<'_>,
    dest: &Addr,
) -> Result<Vec<Bytes>, NoMemory>
    ensures { IfOk result (λ folders. AddsFolders above.now.list (NamesZone outbound.now.base.now.list dest.now.zone outbound.now.zone) (map (λ name. name.list) names.now) [] (map (λ folder. folder.list) folders.items)) }
{
    let whole = zone_name(alloc, outbound, dest)?;
    named_among(alloc, above, names, &whole)
}

// Adds those of these names in the folder of a zone that are for the points of the address's node.
fn add_points(
    alloc: Global,
    zone: &Bytes,
    names: &[Bytes],
    dest: &Addr,
    folders: &mut Vec<Bytes>,
) -> Result<(), NoMemory>
    requires { IsAddress (address dest.now) }
    ensures { OnOk result (AddsFolders zone.now.list (NamesPoints (dest.now.net, dest.now.node)) (map (λ name. name.list) names.now) (map (λ folder. folder.list) folders.old.items) (map (λ folder. folder.list) folders.new.items)) }
{
    for name in names {
        if !is_of_node(name, dest) {
            continue;
        }
        folders.push(path_in(alloc, zone.as_slice(), name.as_slice())?)?;
    }
    Ok(())
}

// The folders of the zone of the address that stand beside the base.
#[tactic(auto, using(outbound_take::proofs::RuledLemmas::ruled_one, outbound_take::proofs::RuledLemmas::ruled_none))]
fn zone_folders<S: Outgoing>(
    store: &mut S,
    alloc: Global,
    outbound: &OutboundAt<'_>,
    dest: &Addr,
) -> Result<Vec<Bytes>, StoreFault>
    requires whole { (S.stand store.old).memory.broken ≡ None }
    requires calm { IsCalm (S.stand store.old) }
    ensures asks { Asks (Settles result) (S.stand store.old) (S.stand store.new) }
    ensures folders { IfOk result (λ folders. (s : Outbound) → told (S.stand store.old) ≡ Some s → ZoneFolders outbound.now.base.now.list dest.now.zone outbound.now.zone s.outside (map (λ folder. folder.list) folders.items)) }
    ensures ruled { Ruled S.rule store.old store.new }
    ensures breaks { Breaks result (S.stand store.new) }
{
    let above = match Bytes::from_slice(alloc, folder_above(outbound.base.as_slice())) {
        Ok(above) => above,
        Err(_) => return Err(StoreFault::NoMemory),
    };
    let names = match store.names(&above) {
        Ok(names) => names,
        Err(fault) => return Err(fault),
    };
    match zones_among(alloc, &above, names.as_slice(), outbound, dest) {
        Ok(folders) => Ok(folders),
        Err(_) => Err(StoreFault::NoMemory),
    }
}

// The folders of the points of the address's node that stand in these folders of its zone.
#[tactic(auto, using(outbound_take::proofs::RuledLemmas::ruled_call, outbound_take::proofs::RuledLemmas::ruled_none))]
fn point_folders<S: Outgoing>(
    store: &mut S,
    alloc: Global,
    zones: &[Bytes],
    dest: &Addr,
) -> Result<Vec<Bytes>, StoreFault>
    requires whole { (S.stand store.old).memory.broken ≡ None }
    requires calm { IsCalm (S.stand store.old) }
    requires address { IsAddress (address dest.now) }
    ensures asks { Asks (Settles result) (S.stand store.old) (S.stand store.new) }
    ensures folders { IfOk result (λ folders. (s : Outbound) → told (S.stand store.old) ≡ Some s → PointFolders (dest.now.net, dest.now.node) s.outside (map (λ zone. zone.list) zones.now) (map (λ folder. folder.list) folders.items)) }
    ensures ruled { Ruled S.rule store.old store.new }
    ensures breaks { Breaks result (S.stand store.new) }
{
    let mut folders = Vec::new(alloc);
    for zone in zones {
        let names = match store.names(zone) {
            Ok(names) => names,
            Err(fault) => return Err(fault),
        };
        if let Err(_) = add_points(alloc, zone, names.as_slice(), dest, &mut folders) {
            return Err(StoreFault::NoMemory);
        }
    }
    Ok(folders)
}

/// The folders in which files of an address may stand: of a node those of its zone, of a point those of its node's points there.
#[tactic(auto, using(outbound_take::proofs::RuledLemmas::ruled_on))]
pub(crate) fn folders_for<S: Outgoing>(
    store: &mut S,
    alloc: Global,
    outbound: &OutboundAt<'_>,
    dest: &Addr,
) -> Result<Vec<Bytes>, StoreFault>
    requires whole { (S.stand store.old).memory.broken ≡ None }
    requires calm { IsCalm (S.stand store.old) }
    requires address { IsAddress (address dest.now) }
    ensures asks { Asks (Settles result) (S.stand store.old) (S.stand store.new) }
    ensures folders { IfOk result (λ folders. (s : Outbound) → told (S.stand store.old) ≡ Some s → FoldersFor outbound.now.base.now.list outbound.now.zone outbound.now.home.now.domain.list (address dest.now) s.outside (map (λ folder. folder.list) folders.items)) }
    ensures ruled { Ruled S.rule store.old store.new }
    ensures breaks { Breaks result (S.stand store.new) }
{
    let zones = match zone_folders(store, alloc, outbound, dest) {
        Ok(zones) => zones,
        Err(fault) => return Err(fault),
    };
    if dest.point == 0 {
        return Ok(zones);
    }
    match point_folders(store, alloc, zones.as_slice(), dest) {
        Ok(folders) => Ok(folders),
        Err(fault) => Err(fault),
    }
}

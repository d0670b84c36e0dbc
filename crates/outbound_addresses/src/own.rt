//! What the store keeps itself: takes that are left, and actions that are still to be done.
ghost use Rattle.std.specs.Prelude.{◌≡◌, ◌&&◌, IfErr, OnOk, drop, map, take};
ghost use Rattle.ledger_rec.specs.Acting.{has_action};
ghost use Rattle.ledger_rec.specs.Items.{entry};
ghost use Rattle.node_model.specs.declared.store.StoreFault.TheVariants.{NoMemory as OutOfMemory};
ghost use Rattle.bso_outbound.specs.Reading.{Reads};
ghost use Rattle.outbound_places.specs.Outbound.{Adds, Grows, OneOf};
ghost use Rattle.outbound_places.specs.Places.{IsPlace, digits_of};
ghost use Rattle.outbound_addresses.specs.Own.{IsActionFor, IsTakeOf};

use crate::asking::note;
use ftn_addr::Bytes;
use ledger_rec::QueueItem;
use node_model::StoreFault;
use node_store::TakeName;
use outbound_places::{Place, PlaceSet, place_in, place_of};

/// The node or point that a take's own name spells.
fn take_place(taken: &TakeName) -> Option<Place>
    ensures { Reads IsPlace digits_of (take 16 (drop 10 taken.now.own)) result }
{
    let name = taken.own.as_slice();
    if name.len() < 26 {
        return None;
    }
    place_of(&name[10..26])
}

/// Notes for whom a take is.
fn note_take(taken: &TakeName, found: &mut PlaceSet) -> Result<(), StoreFault>
    ensures grows { OnOk result (Grows found.old found.new) }
    ensures adds { OnOk result (Adds (IsTakeOf taken.now) found.old found.new) }
    ensures fault { IfErr result (λ fault. fault ≡ OutOfMemory) }
{
    match take_place(taken) {
        None => Ok(()),
        Some(place) => note(place, found),
    }
}

/// Notes for whom takes are.
pub(crate) fn note_takes(takes: &[TakeName], found: &mut PlaceSet) -> Result<(), StoreFault>
    ensures grows { OnOk result (Grows found.old found.new) }
    ensures adds { OnOk result (Adds (OneOf IsTakeOf takes.now) found.old found.new) }
    ensures fault { IfErr result (λ fault. fault ≡ OutOfMemory) }
{
    for taken in takes {
        match note_take(taken, found) {
            Ok(()) => {}
            Err(fault) => return Err(fault),
        }
    }
    Ok(())
}

/// Whether something is still to be done with a file's source.
fn has_action(item: &QueueItem) -> bool
    ensures { result ≡ has_action (entry item.now) }
{
    item.action > 0 && !item.acted
}

/// Notes for whom a queued file is, where something is still to be done with its source.
fn note_action(item: &QueueItem, domain: &Bytes, found: &mut PlaceSet) -> Result<(), StoreFault>
    ensures grows { OnOk result (Grows found.old found.new) }
    ensures adds { OnOk result (Adds (IsActionFor domain.now.list (entry item.now)) found.old found.new) }
    ensures fault { IfErr result (λ fault. fault ≡ OutOfMemory) }
{
    if !has_action(item) {
        return Ok(());
    }
    match place_in(&item.dest, domain) {
        None => Ok(()),
        Some(place) => note(place, found),
    }
}

/// Notes for whom queued files are with whose sources something is still to be done.
pub(crate) fn note_actions(
    queue: &[QueueItem],
    domain: &Bytes,
    found: &mut PlaceSet,
) -> Result<(), StoreFault>
    ensures grows { OnOk result (Grows found.old found.new) }
    ensures adds { OnOk result (Adds (OneOf (IsActionFor domain.now.list) (map entry queue.now)) found.old found.new) }
    ensures fault { IfErr result (λ fault. fault ≡ OutOfMemory) }
{
    for item in queue {
        match note_action(item, domain, found) {
            Ok(()) => {}
            Err(fault) => return Err(fault),
        }
    }
    Ok(())
}

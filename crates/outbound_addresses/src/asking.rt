//! What is asked of a store.
ghost use Rattle.std.specs.Prelude.{◌≡◌, ◌||◌, Err, IfErr, IfOk, IsSome, None, OnOk, false, map, true};
ghost use Rattle.disk_model.specs.declared.answers.OutStat.{OutStat as Stat};
ghost use Rattle.node_model.specs.StoreStates.{IfTold};
ghost use Rattle.node_model.specs.declared.store.StoreFault.TheVariants.{NoMemory as OutOfMemory};
ghost use Rattle.node_store.specs.Stored.{stand_of};
ghost use Rattle.outbound_places.specs.Outbound.{Lists};
ghost use Rattle.outbound_places.specs.Places.{has_place, same_place};
ghost use Rattle.outbound_places.specs.declared.place.Place.{Place as PlaceIn};
ghost use Rattle.outbound_addresses.specs.Asking.{AsksLater, StandsSo};

use disk_model::Yard;
use ftn_addr::{Addr, Bytes};
use node_model::StoreFault;
use node_store::NodeStore;
use outbound_places::{Place, PlaceSet};

/// Where an outbound is: the base, the zone of the base's own folder, and the node's first address.
#[derive(Clone, Copy)]
pub(crate) struct Outbound<'a> {
    pub home: &'a Addr,
    pub base: &'a Bytes,
    pub zone: u16,
}

/// The names that stand directly in a folder.
pub(crate) fn list<D: Yard>(
    store: &mut NodeStore<D>,
    folder: &Bytes,
) -> Result<Vec<Bytes>, StoreFault>
    requires { store.old.memory.broken ≡ None }
    ensures told { IfOk result (λ names. IfTold (stand_of D.tells D.content D.fault_count D.moment D.images store.old).state.content (λ s. Lists folder.now.list s.outside (map (λ name. name.list) names.items))) }
    ensures asks { AsksLater result (stand_of D.tells D.content D.fault_count D.moment D.images store.old) (stand_of D.tells D.content D.fault_count D.moment D.images store.new) }
{
    store.names(folder)
}

/// Whether a file stands under a path.
pub(crate) fn stands<D: Yard>(store: &mut NodeStore<D>, path: &Bytes) -> Result<bool, StoreFault>
    requires { store.old.memory.broken ≡ None }
    ensures told { IfOk result (λ stands. IfTold (stand_of D.tells D.content D.fault_count D.moment D.images store.old).state.content (λ s. StandsSo stands (s.outside path.now.list))) }
    ensures asks { AsksLater result (stand_of D.tells D.content D.fault_count D.moment D.images store.old) (stand_of D.tells D.content D.fault_count D.moment D.images store.new) }
{
    match store.look(path) {
        Ok(stat) => Ok(stat.is_some()),
        Err(fault) => Err(fault),
    }
}

/// One place more.
pub(crate) fn note(place: Place, found: &mut PlaceSet) -> Result<(), StoreFault>
    ensures added { OnOk result ((p : PlaceIn) → has_place found.new p ≡ (has_place found.old p || same_place p place)) }
    ensures fault { IfErr result (λ fault. fault ≡ OutOfMemory) }
{
    match found.insert(place) {
        Ok(()) => Ok(()),
        Err(_) => Err(StoreFault::NoMemory),
    }
}

//! The addresses for which something is to be taken in.
ghost use Rattle.std.specs.Prelude.{◌≡◌, ◌↔◌, IfErr, IfOk, None, OnOk, map, true};
ghost use Rattle.ftn_addr.specs.Address.{Address, address};
ghost use Rattle.ftn_addr.specs.Limits.{IsAddress};
ghost use Rattle.node_model.specs.Lists.{Member};
ghost use Rattle.node_model.specs.StoreStates.{IfTold};
ghost use Rattle.node_model.specs.declared.store.StoreFault.TheVariants.{NoMemory as OutOfMemory};
ghost use Rattle.node_store.specs.Asking.{Asks};
ghost use Rattle.node_store.specs.Stored.{stand_of};
ghost use Rattle.outbound_places.specs.Outbound.{Adds, Grows};
ghost use Rattle.outbound_places.specs.Places.{IsRising};
ghost use Rattle.outbound_addresses.specs.Asking.{AsksLater};
ghost use Rattle.outbound_addresses.specs.Needs.{HasOwn, IsOfDomain, Needs};
ghost use Rattle.outbound_addresses.specs.Own.{HasAll, IsNeeded, IsOwnFor};

use crate::asking::Outbound;
use crate::own::{note_actions, note_takes};
use crate::zones::note_zones;
use disk_model::Yard;
use ftn_addr::{Addr, Bytes};
use node_model::StoreFault;
use node_store::NodeStore;
use outbound_places::PlaceSet;
use std::alloc::Global;

/// Notes for whom takes are left and actions still to be done.
fn note_own<D: Yard>(
    store: &NodeStore<D>,
    domain: &Bytes,
    found: &mut PlaceSet,
) -> Result<(), StoreFault>
    ensures grows { OnOk result (Grows found.old found.new) }
    ensures adds { OnOk result (Adds (IsOwnFor domain.now.list store.now.takes.left store.now.memory.books.folding.state.queue) found.old found.new) }
    ensures fault { IfErr result (λ fault. fault ≡ OutOfMemory) }
{
    match note_takes(store.takes_left(), found) {
        Err(fault) => Err(fault),
        Ok(()) => note_actions(store.state().queue(), domain, found),
    }
}

/// Notes for whom something is to be taken in.
fn note_all<D: Yard>(
    alloc: Global,
    store: &mut NodeStore<D>,
    outbound: Outbound<'_>,
    found: &mut PlaceSet,
) -> Result<(), StoreFault>
    requires whole { store.old.memory.broken ≡ None }
    requires home { IsAddress (address outbound.home.now) }
    ensures grows { OnOk result (Grows found.old found.new) }
    ensures own { OnOk result (HasAll (IsOwnFor outbound.entry.home.now.domain.list store.old.takes.left store.old.memory.books.folding.state.queue) found.new) }
    ensures told { OnOk result (IfTold (stand_of D.tells D.content D.fault_count D.moment D.images store.old).state.content (λ s. Adds (IsNeeded outbound.entry.base.now.list outbound.entry.zone s.outside outbound.entry.home.now.domain.list store.old.takes.left store.old.memory.books.folding.state.queue) found.old found.new)) }
    ensures asks { AsksLater result (stand_of D.tells D.content D.fault_count D.moment D.images store.old) (stand_of D.tells D.content D.fault_count D.moment D.images store.new) }
{
    match note_own(store, &outbound.home.domain, found) {
        Err(fault) => Err(fault),
        Ok(()) => note_zones(alloc, store, outbound, found),
    }
}

/// The addresses for which something is to be taken in, of the home's domain and with numbers of at most
/// 32,767: for which a flow file, netmail or a file request stands in the outbound of that base, whose own
/// folder is for the zone `zone` (FTS-5005), of which a take is left, or on whose source an action is still
/// to be done. They rise by zone, net, node and point, each once.
///
/// It lists the folder above the base, the folders of zones that stand there, and the folders of points in
/// these. The folder above a base without `/` is the empty one, in which the program was started; above a
/// base whose only `/` is its first byte it is `/`. Names are compared with ASCII case ignored. The store
/// keeps what it keeps. The errors are a failing disk and want of memory.
pub fn addresses<D: Yard>(
    alloc: Global,
    store: &mut NodeStore<D>,
    home: &Addr,
    base: &Bytes,
    zone: u16,
) -> Result<Vec<Addr>, StoreFault>
    requires whole { store.old.memory.broken ≡ None }
    requires home { IsAddress (address home.now) }
    ensures rising { IfOk result (λ found. IsRising (map address found.items)) }
    ensures own { IfOk result (λ found. (a : Address) → Member a (map address found.items) → IsOfDomain home.now.domain.list a) }
    ensures kept { IfOk result (λ found. (a : Address) → IsOfDomain home.now.domain.list a → HasOwn store.old.takes.left (stand_of D.tells D.content D.fault_count D.moment D.images store.old).state.stock.state.queue a → Member a (map address found.items)) }
    ensures told { IfOk result (λ found. IfTold (stand_of D.tells D.content D.fault_count D.moment D.images store.old).state.content (λ s. (a : Address) → IsOfDomain home.now.domain.list a
        → Member a (map address found.items) ↔ Needs base.now.list zone s.outside store.old.takes.left (stand_of D.tells D.content D.fault_count D.moment D.images store.old).state.stock.state.queue a)) }
    ensures asks { Asks true result (stand_of D.tells D.content D.fault_count D.moment D.images store.old) (stand_of D.tells D.content D.fault_count D.moment D.images store.new) }
{
    store.opens_as_told();
    let outbound = Outbound { home, base, zone };
    let mut found = PlaceSet::new(alloc);
    match note_all(alloc, store, outbound, &mut found) {
        Err(fault) => Err(fault),
        Ok(()) => match found.addresses(alloc, &home.domain) {
            Ok(addresses) => Ok(addresses),
            Err(_) => Err(StoreFault::NoMemory),
        },
    }
}

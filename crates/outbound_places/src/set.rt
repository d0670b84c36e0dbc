//! Places in order, each once.
ghost use Rattle.std.specs.Prelude.{◌≡◌, ◌||◌, false, true, map, IfOk, OnOk};
ghost use Rattle.ftn_addr.specs.Address.{Address, address};
ghost use Rattle.node_model.specs.Lists.{Member};
ghost use Rattle.outbound_places.specs.Places.{HasAddress, IsRising, address_at, has_place, same_place};
ghost use Rattle.outbound_places.specs.declared.place.Place.{Place as PlaceIn};

use crate::Place;
use ftn_addr::{Addr, Bytes, NoMemory};
use std::alloc::Global;
use std::collections::BTreeSet;

/// Nodes and points of one domain, in the order of their addresses, each once.
#[derive(Debug, Drop)]
pub struct PlaceSet {
    places: BTreeSet<Place>,
}

impl PlaceSet {
    /// None. It takes no memory.
    pub fn new(alloc: Global) -> PlaceSet
        ensures { (p : PlaceIn) → has_place result p ≡ false }
    {
        PlaceSet {
            places: BTreeSet::new(alloc),
        }
    }

    /// One more. The only error is want of memory.
    pub fn insert(&mut self, place: Place) -> Result<(), NoMemory>
        ensures { OnOk result ((p : PlaceIn) → has_place self.new p ≡ (has_place self.old p || same_place p place)) }
    {
        self.places.insert(place)?;
        Ok(())
    }

    /// Their addresses in a domain, rising by zone, net, node and point. The only error is want of memory.
    pub fn addresses(&self, alloc: Global, domain: &Bytes) -> Result<Vec<Addr>, NoMemory>
        ensures rising { IfOk result (λ found. IsRising (map address found.items)) }
        ensures only { IfOk result (λ found. (a : Address) → Member a (map address found.items) → HasAddress domain.now.list self.now a) }
        ensures all { IfOk result (λ found. (p : PlaceIn) → has_place self.now p ≡ true → Member (address_at domain.now.list p) (map address found.items)) }
    {
        let mut found = Vec::new(alloc);
        for place in &self.places {
            found.push(place.at(alloc, domain)?)?;
        }
        Ok(found)
    }
}

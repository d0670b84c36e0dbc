//! Nodes and points of one domain.
ghost use Rattle.std.specs.Prelude.{◌≡◌, IfOk};
ghost use Rattle.ftn_addr.specs.Address.{address};
ghost use Rattle.bso_outbound.specs.Reading.{Reads};
ghost use Rattle.outbound_places.specs.Places.{AreHalves, IsPlace, PlaceIn, address_at, digits_of, digits_of_halves, is_place, joined, place_at};

use bso_outbound::node_of;
use ftn_addr::{Addr, Bytes, MAX_ADDRESS_NUMBER, NoMemory};
use std::alloc::Global;

/// A node or point, without its domain; the point 0 is the node itself.
#[derive(Clone, Copy, Debug, PartialEq, Eq, PartialOrd, Ord)]
pub struct Place {
    pub zone: u16,
    pub net: u16,
    pub node: u16,
    pub point: u16,
}

impl Place {
    /// Its address in a domain. The only error is want of memory.
    pub(crate) fn at(self, alloc: Global, domain: &Bytes) -> Result<Addr, NoMemory>
        ensures { IfOk result (λ found. address found ≡ address_at domain.now.list self) }
    {
        let Place {
            zone,
            net,
            node,
            point,
        } = self;
        let domain = domain.copy(alloc)?;
        Ok(Addr {
            zone,
            net,
            node,
            point,
            domain,
        })
    }
}

/// Whether its numbers are at most 32,767.
fn is_within(place: Place) -> bool
    ensures { result ≡ is_place place }
{
    place.zone <= MAX_ADDRESS_NUMBER
        && place.net <= MAX_ADDRESS_NUMBER
        && place.node <= MAX_ADDRESS_NUMBER
        && place.point <= MAX_ADDRESS_NUMBER
}

/// An address without its domain.
pub(crate) fn place_at(addr: &Addr) -> Place
    ensures { result ≡ place_at (address addr.now) }
{
    Place {
        zone: addr.zone,
        net: addr.net,
        node: addr.node,
        point: addr.point,
    }
}

/// The node or point of an address, where it is one of that domain.
///
/// None exactly where it has another domain, or a number above 32,767.
pub fn place_in(addr: &Addr, domain: &Bytes) -> Option<Place>
    ensures { PlaceIn domain.now.list (address addr.now) result }
{
    if addr.domain.as_slice() != domain.as_slice() {
        return None;
    }
    let place = place_at(addr);
    if !is_within(place) {
        return None;
    }
    Some(place)
}

fn join(halves: ((u16, u16), (u16, u16))) -> Place
    ensures { result ≡ joined halves }
{
    let ((zone, net), (node, point)) = halves;
    Place {
        zone,
        net,
        node,
        point,
    }
}

/// Zone and net, node and point, by sixteen digits.
fn halves_of(digits: &[u8]) -> Option<((u16, u16), (u16, u16))>
    ensures { Reads AreHalves digits_of_halves digits.now result }
{
    if digits.len() != 16 {
        return None;
    }
    let (front, back) = digits.split_at(8);
    node_of(front).zip(node_of(back))
}

/// The node or point that sixteen hexadecimal digits spell: zone, net, node and point, four each, with
/// ASCII case ignored.
///
/// None exactly where none with numbers of at most 32,767 is spelled so.
pub fn place_of(digits: &[u8]) -> Option<Place>
    ensures { Reads IsPlace digits_of digits.now result }
{
    Some(join(halves_of(digits)?))
}

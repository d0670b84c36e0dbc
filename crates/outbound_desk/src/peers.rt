//! The take-in of the outbound of a session's peer.
ghost use Rattle.std.specs.Prelude.{◌≡◌, None, Option, map};
ghost use Rattle.std.specs.List.{All};
ghost use Rattle.ftn_addr.specs.Address.{address};
ghost use Rattle.ftn_addr.specs.Limits.{IsAddress};
ghost use Rattle.node_store.specs.Stored.{stand_of};
ghost use Rattle.outbound_desk.specs.Lines.{TakesIn, WantsSo};
ghost use Rattle.outbound_store.specs.Calls.{CallOf};
ghost use Rattle.outbound_take.specs.Ruled.{Ruled};

use disk_model::Yard;
use ftn_addr::{Addr, is_same_address};
use node_model::StoreFault;
use outbound_addresses::addresses;
use outbound_intake::{OutboundAt, take_in};
use outbound_store::TakingStore;
use outbound_take::{TakeFault, Taken};
use std::alloc::Global;
use take_steps::Wanting;

// Whether it is one of these addresses, and isn't the home.
fn is_served(home: &Addr, found: &[Addr], peer: &Addr) -> bool {
    !is_same_address(peer, home) && found.iter().any(|addr| is_same_address(addr, peer))
}

// What a take-in found no more of: what the calls of its store did, or memory for itself.
fn shortage(taken: &Result<Taken, TakeFault>, wanting: Option<Wanting>) -> Option<Wanting>
    ensures { WantsSo wanting result }
{
    match wanting {
        Some(wanting) => Some(wanting),
        None => match taken {
            Err(TakeFault::NoMemory) => Some(Wanting::Memory),
            _ => None,
        },
    }
}

// Takes in the outbound of one peer, where something is to be taken in for it. Where another program has marked it, it is passed
// over.
#[tactic(auto, using(outbound_take::proofs::RuledLemmas::ruled_none))]
fn take_peer<D: Yard>(
    alloc: Global,
    taking: &mut TakingStore<D>,
    outbound: &OutboundAt<'_>,
    found: &[Addr],
    peer: &Addr,
    now: u64,
) -> Option<Wanting>
    requires whole { taking.old.store.memory.broken ≡ None }
    requires unwanted { taking.old.wanting ≡ None }
    requires address { IsAddress (address peer.now) }
    requires home { IsAddress (address outbound.now.home.now) }
    ensures ruled { Ruled (λ s t. CallOf (stand_of D.tells D.content D.fault_count D.moment D.images s.store) s.wanting (stand_of D.tells D.content D.fault_count D.moment D.images t.store) t.wanting) taking.old taking.new }
    ensures wants { WantsSo taking.new.wanting result }
{
    if !is_served(outbound.home, found, peer) {
        return None;
    }
    taking.now_is_told();
    let taken = take_in(taking, alloc, outbound, peer, now);
    shortage(&taken, taking.wanting())
}

// Takes in the outbound of each of these peers for which something is to be taken in, up to the first at which something was wanted
// or the disk failed.
#[tactic(auto, using(outbound_take::proofs::RuledLemmas::ruled_on, outbound_take::proofs::RuledLemmas::ruled_none))]
fn take_each<D: Yard>(
    alloc: Global,
    taking: &mut TakingStore<D>,
    outbound: &OutboundAt<'_>,
    found: &[Addr],
    peers: &[Addr],
    now: u64,
) -> Option<Wanting>
    requires whole { taking.old.store.memory.broken ≡ None }
    requires unwanted { taking.old.wanting ≡ None }
    requires limits { All IsAddress (map address peers.now) }
    requires home { IsAddress (address outbound.now.home.now) }
    ensures ruled { Ruled (λ s t. CallOf (stand_of D.tells D.content D.fault_count D.moment D.images s.store) s.wanting (stand_of D.tells D.content D.fault_count D.moment D.images t.store) t.wanting) taking.old taking.new }
    ensures wants { WantsSo taking.new.wanting result }
{
    for peer in peers {
        if let Some(wanting) = take_peer(alloc, taking, outbound, found, peer, now) {
            return Some(wanting);
        }
        if taking.store().broken().is_some() {
            return None;
        }
    }
    None
}

/// Takes in the outbound of each of these peers for which something is to be taken in, up to the first at which something was wanted
/// or the disk failed. It is first listed for whom there is something.
pub(crate) fn take_peers<D: Yard>(
    alloc: Global,
    taking: &mut TakingStore<D>,
    outbound: &OutboundAt<'_>,
    peers: &[Addr],
    now: u64,
) -> Option<Wanting>
    requires whole { taking.old.store.memory.broken ≡ None }
    requires unwanted { taking.old.wanting ≡ None }
    requires limits { All IsAddress (map address peers.now) }
    requires home { IsAddress (address outbound.now.home.now) }
    ensures rows { TakesIn (stand_of D.tells D.content D.fault_count D.moment D.images taking.old.store) (stand_of D.tells D.content D.fault_count D.moment D.images taking.new.store) taking.new.wanting }
    ensures wants { WantsSo taking.new.wanting result }
{
    let found = match addresses(
        alloc,
        &mut taking.store,
        outbound.home,
        outbound.base,
        outbound.zone,
    ) {
        Ok(found) => found,
        Err(StoreFault::NoMemory) => return Some(Wanting::Memory),
        Err(_) => return None,
    };
    take_each(alloc, taking, outbound, found.as_slice(), peers, now)
}

ghost use Rattle.std.specs.Prelude.{◌≡◌, ◌+◌, IfSome};
ghost use Rattle.ftn_addr.specs.Address.{address};
ghost use Rattle.ftn_addr.specs.Limits.{IsAddress};
ghost use Rattle.hub_core.specs.Hubs.{hub_state};
ghost use Rattle.mem_store.specs.ListStates.{stand_of};
ghost use Rattle.turn_gate.specs.Passes.{view};
ghost use Rattle.shared_desk.specs.AtGate.{IsAtGate};
ghost use Rattle.test_shared.specs.Resting.{IsFresh, nobody};
ghost use Rattle.mem_shared.specs.Sights.{sight_by};

use crate::hubs::{peer, shared_hub};
use ftn_addr::Addr;
use mem_shared::RoundDesk;
use node_model::{Desk, Offer, Role};
use shared_desk::{GateDesk, GateName, Roams};
use std::alloc::Global;
use std::marker::Brand;
use std::sync::Wait;
use turn_gate::{Gate, Pass};

// Begins a session with the peer at a seat, and asks what it is offered.
fn first_offer<W: Wait, V: Roams, G: GateName>(
    rt: &W,
    gate: &Gate<V>,
    pass: Pass<V>,
    alloc: Global,
    addr: Addr,
) -> (Option<Offer>, Pass<V>)
    requires ready { IsAtGate V.sight G.table gate.now pass }
    requires none_yet { (V.sight).part (view pass).seat (view pass).left ≡ nobody }
    requires limits { IsAddress (address addr) }
    ensures turns { IfSome result.0 (λ offer. (view result.1).turns ≡ (view pass).turns + 2) }
{
    let mut desk = GateDesk::<W, V, G>::new(rt, gate, pass);
    let peers = [addr];
    let offer = match desk.begin(alloc, Role::Answers, &peers, false, 1_000_000_000) {
        Ok(_) => desk.offer(alloc).ok(),
        Err(_) => None,
    };
    (offer, desk.into_pass())
}

// Both seats do so, one behind the other. They made four turns together.
fn two_offers<W: Wait>(
    rt: &W,
    gate: &Gate<RoundDesk>,
    first: Pass<RoundDesk>,
    second: Pass<RoundDesk>,
    alloc: Global,
) -> Option<((Offer, Offer), (Pass<RoundDesk>, Pass<RoundDesk>))>
    requires first { IsFresh (sight_by (λ h. stand_of h.store) (λ h. hub_state h.seats)) gate.now first }
    requires second { IsFresh (sight_by (λ h. stand_of h.store) (λ h. hub_state h.seats)) gate.now second }
    ensures turns { IfSome result (λ r. (view r.1.0).turns + (view r.1.1).turns ≡ 4) }
{
    let (one, first) = first_offer::<W, RoundDesk, Brand>(
        rt,
        gate,
        first,
        alloc,
        peer(alloc).ok()?,
    );
    let (other, second) = first_offer::<W, RoundDesk, Brand>(
        rt,
        gate,
        second,
        alloc,
        peer(alloc).ok()?,
    );
    Some(((one?, other?), (first, second)))
}

#[test]
fn one_of_two_seats_is_offered_the_one_file(rt: HostRuntime) {
    let alloc = rt.alloc();
    let (gate, mut passes) = shared_hub(alloc).expect(&rt, "memory");
    let second = passes.pop().expect(&rt, "two passes");
    let first = passes.pop().expect(&rt, "two passes");
    let (offers, _passes) = two_offers(&rt, &gate, first, second, alloc).expect(&rt, "memory");
    assert!(rt; matches!(offers.0, Offer::File(1, _)));
    assert!(rt; matches!(offers.1, Offer::Nothing));
}

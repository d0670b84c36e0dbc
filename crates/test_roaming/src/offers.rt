ghost use Rattle.std.specs.Prelude.{◌≡◌, ◌+◌, IfSome, None, false, true};
ghost use Rattle.ftn_addr.specs.Address.{address};
ghost use Rattle.ftn_addr.specs.Limits.{IsAddress};
ghost use Rattle.outbound_desk.specs.Roaming.{line_sight};
ghost use Rattle.shared_desk.specs.AtGate.{IsAtGate};
ghost use Rattle.test_roaming.specs.Resting.{IsFresh, nobody};
ghost use Rattle.turn_gate.specs.Passes.{view};

use crate::hubs::{Roamer, disk_with_file, peer, shared_hub};
use disk_model::Yard;
use ftn_addr::{Addr, NoMemory};
use node_model::{Desk, Offer, Role};
use outbound_desk::OutboundDesk;
use shared_desk::GateName;
use std::alloc::Global;
use std::marker::Brand;
use std::sync::Wait;
use turn_gate::{Gate, Pass};

/// What a seat was offered, and its pass.
pub type Offered<D> = (Option<Offer>, Pass<Roamer<D>>);

// Opens a session with the peer, and says whether it could.
fn begin<K: Desk>(desk: &mut K, alloc: Global, addr: Addr) -> bool
    requires ready { K.ready desk.old }
    requires none_yet { (K.part desk.old).open_now ≡ false }
    requires free { (K.part desk.old).claim ≡ None }
    requires limits { IsAddress (address addr) }
    ensures ready { K.ready desk.new }
    ensures opened { result ≡ true → ((K.part desk.new).open_now ≡ true) × ((K.part desk.new).claim ≡ None) }
    ensures rule { K.rule desk.old desk.new }
{
    let peers = [addr];
    match desk.begin(alloc, Role::Answers, &peers, false, 1_000_000_000) {
        Ok(_) => true,
        Err(_) => false,
    }
}

// What its session is offered.
fn offer<K: Desk>(desk: &mut K, alloc: Global) -> Option<Offer>
    requires ready { K.ready desk.old }
    requires in_session { (K.part desk.old).open_now ≡ true }
    requires free { (K.part desk.old).claim ≡ None }
    ensures ready { K.ready desk.new }
    ensures rule { K.rule desk.old desk.new }
{
    desk.offer(alloc).ok()
}

/// Opens a session with the peer at a seat, which first takes its outbound in, and asks what it is offered.
pub fn first_offer<W: Wait, D: Yard, G: GateName>(
    rt: &W,
    gate: &Gate<Roamer<D>>,
    pass: Pass<Roamer<D>>,
    alloc: Global,
    addr: Addr,
) -> Offered<D>
    requires ready { IsAtGate (line_sight D.tells D.content D.fault_count D.moment D.images) G.table gate.now pass }
    requires none_yet { (line_sight D.tells D.content D.fault_count D.moment D.images).part (view pass).seat (view pass).left ≡ nobody }
    requires limits { IsAddress (address addr) }
    ensures turns { IfSome result.0 (λ offer. (view result.1).turns ≡ (view pass).turns + 2) }
{
    let mut desk = OutboundDesk::<W, D, G>::new(rt, gate, pass);
    let offer = if begin(&mut desk, alloc, addr) {
        offer(&mut desk, alloc)
    } else {
        None
    };
    (offer, desk.into_pass())
}

// Both seats open a session, and then both ask what they are offered.
fn offers_in_turn<W: Wait, D: Yard, G: GateName>(
    rt: &W,
    gate: &Gate<Roamer<D>>,
    first: Pass<Roamer<D>>,
    second: Pass<Roamer<D>>,
    alloc: Global,
) -> Result<Option<(Offered<D>, Offered<D>)>, NoMemory>
    requires named { gate.now.table.shared.table_id ≡ G.table }
    requires first { IsFresh (line_sight D.tells D.content D.fault_count D.moment D.images) gate.now first }
    requires second { IsFresh (line_sight D.tells D.content D.fault_count D.moment D.images) gate.now second }
{
    let mut one = OutboundDesk::<W, D, G>::new(rt, gate, first);
    let mut other = OutboundDesk::<W, D, G>::new(rt, gate, second);
    if !begin(&mut one, alloc, peer(alloc)?) {
        return Ok(None);
    }
    if !begin(&mut other, alloc, peer(alloc)?) {
        return Ok(None);
    }
    let offer_of_one = offer(&mut one, alloc);
    let offer_of_other = offer(&mut other, alloc);
    Ok(Some((
        (offer_of_one, one.into_pass()),
        (offer_of_other, other.into_pass()),
    )))
}

// The same, at a gate that is named so.
fn two_offers<W: Wait, D: Yard>(
    rt: &W,
    gate: &Gate<Roamer<D>>,
    first: Pass<Roamer<D>>,
    second: Pass<Roamer<D>>,
    alloc: Global,
) -> Result<Option<(Offered<D>, Offered<D>)>, NoMemory>
    requires first { IsFresh (line_sight D.tells D.content D.fault_count D.moment D.images) gate.now first }
    requires second { IsFresh (line_sight D.tells D.content D.fault_count D.moment D.images) gate.now second }
{
    offers_in_turn::<W, D, Brand>(rt, gate, first, second, alloc)
}

#[test]
fn the_first_seat_to_ask_is_offered_the_one_file(rt: HostRuntime) {
    let alloc = rt.alloc();
    let disk = disk_with_file(alloc).expect(&rt, "memory");
    let (gate, first, second) = shared_hub(alloc, disk.into_ready()).expect(&rt, "a store");
    let offers = two_offers(&rt, &gate, first, second, alloc).expect(&rt, "memory");
    let (one, other) = offers.expect(&rt, "two sessions");
    assert!(rt; matches!(one.0, Some(Offer::File(1, _))));
    assert!(rt; matches!(other.0, Some(Offer::Nothing)));
    // One record that the file is queued, and one that its take is.
    assert_eq!(rt; (one.1.seen(), other.1.seen()), (2, 2));
}

//! The take-in of one address after another.
ghost use Rattle.std.specs.Prelude.{◌≡◌, ◌≢◌, Result, None, Some, map};
ghost use Rattle.ftn_addr.specs.Address.{Address, address};
ghost use Rattle.ftn_addr.specs.Limits.{IsAddress};
ghost use Rattle.node_model.specs.Lists.{Member};
ghost use Rattle.node_store.specs.Stored.{stand_of};
ghost use Rattle.outbound_store.specs.Calls.{CallOf};
ghost use Rattle.outbound_store.specs.GoesOn.{GoesOn};
ghost use Rattle.outbound_store.specs.Held.{seen_on};
ghost use Rattle.outbound_take.specs.Ruled.{Ruled};
ghost use Rattle.outbound_take.specs.declared.words.TakeFault.{TakeFault as TakeFaultOf};
ghost use Rattle.outbound_take.specs.declared.words.Taken.{Taken as TakenOf};
ghost use Rattle.outbound_round.specs.Round.{TakesAddress, TakesThem, TellsMore, told_of};
ghost use Rattle.outbound_round.specs.declared.words.RoundFault.TheVariants.{Disk};

use crate::telling::{nothing_told, tell_more};
use crate::words::{Round, Telling};
use disk_model::Yard;
use ftn_addr::Addr;
use outbound_intake::{OutboundAt, take_in};
use outbound_store::TakingStore;
use outbound_take::{TakeFault, Taken};
use std::alloc::Global;

fn take_address<D: Yard>(
    alloc: Global,
    taking: &mut TakingStore<D>,
    outbound: &OutboundAt<'_>,
    dest: &Addr,
    now: u64,
) -> Result<Taken, TakeFault>
    requires whole { taking.old.store.memory.broken ≡ None }
    requires address { IsAddress (address dest.now) }
    requires home { IsAddress (address outbound.now.home.now) }
    ensures takes { TakesAddress outbound.now.base.now.list outbound.now.zone (address outbound.now.home.now) now (address dest.now) result (seen_on D.tells D.content D.fault_count D.moment D.images taking.old.store) (seen_on D.tells D.content D.fault_count D.moment D.images taking.new.store) }
    ensures ruled { Ruled (λ s t. CallOf (stand_of D.tells D.content D.fault_count D.moment D.images s.store) s.wanting (stand_of D.tells D.content D.fault_count D.moment D.images t.store) t.wanting) taking.old taking.new }
    ensures goes_on { GoesOn (stand_of D.tells D.content D.fault_count D.moment D.images taking.old.store) (stand_of D.tells D.content D.fault_count D.moment D.images taking.new.store) }
{
    taking.now_is_told();
    take_in(taking, alloc, outbound, dest, now)
}

// Takes in one address more, and tells of it.
fn take_next<D: Yard>(
    alloc: Global,
    taking: &mut TakingStore<D>,
    outbound: &OutboundAt<'_>,
    dest: &Addr,
    now: u64,
    telling: Telling,
    round: &mut Round,
)
    requires whole { taking.old.store.memory.broken ≡ None }
    requires address { IsAddress (address dest.now) }
    requires home { IsAddress (address outbound.now.home.now) }
    ensures takes { (end : Result TakenOf TakeFaultOf) × TakesAddress outbound.now.base.now.list outbound.now.zone (address outbound.now.home.now) now (address dest.now) end (seen_on D.tells D.content D.fault_count D.moment D.images taking.old.store) (seen_on D.tells D.content D.fault_count D.moment D.images taking.new.store)
        × TellsMore telling taking.new.store.memory.broken (address dest.now, end) (told_of round.old) (told_of round.new) }
    ensures ruled { Ruled (λ s t. CallOf (stand_of D.tells D.content D.fault_count D.moment D.images s.store) s.wanting (stand_of D.tells D.content D.fault_count D.moment D.images t.store) t.wanting) taking.old taking.new }
    ensures goes_on { GoesOn (stand_of D.tells D.content D.fault_count D.moment D.images taking.old.store) (stand_of D.tells D.content D.fault_count D.moment D.images taking.new.store) }
    ensures broke { (told_of round.new).fault ≡ Some Disk → taking.new.store.memory.broken ≢ None }
{
    let end = take_address(alloc, taking, outbound, dest, now);
    let broken = taking.store().broken();
    tell_more(alloc, dest, telling, broken, end, round);
}

/// Takes in these addresses, one after another, up to the first that ends the round.
#[tactic(auto, using(outbound_take::proofs::RuledLemmas::ruled_none))]
pub(crate) fn take_each<D: Yard>(
    alloc: Global,
    taking: &mut TakingStore<D>,
    outbound: &OutboundAt<'_>,
    now: u64,
    telling: Telling,
    found: &[Addr],
) -> Round
    requires whole { taking.old.store.memory.broken ≡ None }
    requires within { (a : Address) → Member a (map address found.now) → IsAddress a }
    requires home { IsAddress (address outbound.now.home.now) }
    ensures takes { TakesThem (seen_on D.tells D.content D.fault_count D.moment D.images) telling outbound.now.base.now.list outbound.now.zone (address outbound.now.home.now) now (map address found.now) (told_of result) taking.old.store taking.new.store }
    ensures ruled { Ruled (λ s t. CallOf (stand_of D.tells D.content D.fault_count D.moment D.images s.store) s.wanting (stand_of D.tells D.content D.fault_count D.moment D.images t.store) t.wanting) taking.old taking.new }
    ensures goes_on { GoesOn (stand_of D.tells D.content D.fault_count D.moment D.images taking.old.store) (stand_of D.tells D.content D.fault_count D.moment D.images taking.new.store) }
    ensures broke { (told_of result).fault ≡ Some Disk → taking.new.store.memory.broken ≢ None }
{
    let mut round = nothing_told(alloc, None);
    for dest in found {
        take_next(alloc, taking, outbound, dest, now, telling, &mut round);
        match round.fault {
            None => {}
            Some(_) => return round,
        }
    }
    round
}

//! The take-in of a whole outbound.
ghost use Rattle.std.specs.Prelude.{◌≡◌, ◌≢◌, None, Some};
ghost use Rattle.ftn_addr.specs.Address.{address};
ghost use Rattle.ftn_addr.specs.Limits.{IsAddress};
ghost use Rattle.node_store.specs.Stored.{stand_of};
ghost use Rattle.outbound_store.specs.Calls.{CallOf};
ghost use Rattle.outbound_store.specs.GoesOn.{GoesOn};
ghost use Rattle.outbound_store.specs.Held.{seen_on};
ghost use Rattle.outbound_take.specs.Ruled.{Ruled};
ghost use Rattle.outbound_round.specs.Round.{TakesRound, fault_of, told_of};
ghost use Rattle.outbound_round.specs.declared.words.RoundFault.TheVariants.{Disk};

use crate::taking::take_each;
use crate::telling::nothing_told;
use crate::words::{Round, RoundFault, Telling};
use disk_model::Yard;
use node_model::StoreFault;
use outbound_addresses::addresses;
use outbound_intake::OutboundAt;
use outbound_store::TakingStore;
use std::alloc::Global;

fn fault_of(fault: StoreFault) -> RoundFault
    ensures { result ≡ fault_of fault }
{
    match fault {
        StoreFault::Disk => RoundFault::Disk,
        StoreFault::Read => RoundFault::Disk,
        StoreFault::Full => RoundFault::Full,
        StoreFault::NoMemory => RoundFault::NoMemory,
    }
}

/// Takes in an outbound: each address for which something is to be taken in, rising by zone, net, node and point, each once. An
/// address that another program has marked is passed over. Any other fault ends the round, and so does want of memory for a line;
/// what was taken in before stays. `now` is the moment in seconds, which packets and requests have as their time.
///
/// At [`RoundFault::Disk`] the store is broken, and has to be opened again. At every other answer it is whole, and what it found no
/// more of stays wanted until that is forgotten ([`TakingStore::begin_anew`]).
pub fn take_round<D: Yard>(
    alloc: Global,
    taking: &mut TakingStore<D>,
    outbound: &OutboundAt<'_>,
    now: u64,
    telling: Telling,
) -> Round
    requires whole { taking.old.store.memory.broken ≡ None }
    requires unwanted { taking.old.wanting ≡ None }
    requires home { IsAddress (address outbound.now.home.now) }
    ensures round { TakesRound D.tells D.content D.fault_count D.moment D.images telling outbound.now.base.now.list outbound.now.zone (address outbound.now.home.now) now (told_of result) taking.old.store taking.new.store }
    ensures ruled { Ruled (λ s t. CallOf (stand_of D.tells D.content D.fault_count D.moment D.images s.store) s.wanting (stand_of D.tells D.content D.fault_count D.moment D.images t.store) t.wanting) taking.old taking.new }
    ensures goes_on { GoesOn (stand_of D.tells D.content D.fault_count D.moment D.images taking.old.store) (stand_of D.tells D.content D.fault_count D.moment D.images taking.new.store) }
    ensures broke { (told_of result).fault ≡ Some Disk → taking.new.store.memory.broken ≢ None }
    ensures whole { (told_of result).fault ≢ Some Disk → taking.new.store.memory.broken ≡ None }
{
    match addresses(
        alloc,
        &mut taking.store,
        outbound.home,
        outbound.base,
        outbound.zone,
    ) {
        Ok(found) => take_each(alloc, taking, outbound, now, telling, found.as_slice()),
        Err(fault) => nothing_told(alloc, Some(fault_of(fault))),
    }
}

//! Taking in what a stop left.
ghost use Rattle.outbound_take.specs.Ruled.{Ruled};
ghost use Rattle.std.specs.Prelude.{◌≡◌, IfOk, None};
ghost use Rattle.ftn_addr.specs.Address.{address};
ghost use Rattle.ftn_addr.specs.Limits.{IsAddress};
ghost use Rattle.outbound_take.specs.Ours.{AreOver, OnlyFor, Ours, all_took};
ghost use Rattle.outbound_take.specs.Stand.{Breaks, IsCalm, Settles, TakeStand, told};

use crate::Outgoing;
use crate::taking::take_one;
use crate::words::{Taken, TookFile};
use ftn_addr::Addr;
use node_model::StoreFault;
use std::alloc::Global;

/// Takes in each take of the address that a stop left. Of those that are recorded nothing is told. A packet or a request of more
/// than 2,147,483,647 bytes stays, and is told as over.
#[tactic(auto, using(crate::proofs::RuledLemmas::ruled_call, crate::proofs::RuledLemmas::ruled_on))]
pub fn take_rest<S: Outgoing>(
    store: &mut S,
    alloc: Global,
    dest: &Addr,
    now: u64,
) -> Result<Taken, StoreFault>
    requires whole { (S.stand store.old).memory.broken ≡ None }
    requires calm { IsCalm (S.stand store.old) }
    requires address { IsAddress (address dest.now) }
    ensures works { Ours (address dest.now) now (λ taken. all_took taken.files.items) result (S.stand store.old) (S.stand store.new) }
    ensures whole { Settles result → (S.stand store.new).memory.broken ≡ None }
    ensures left { IfOk result (λ taken. OnlyFor (address dest.now) taken.over.items (S.stand store.new).memory.left) }
    ensures over { IfOk result (λ taken. AreOver (address dest.now) taken.over.items (told (S.stand store.new))) }
    ensures ruled { Ruled S.rule store.old store.new }
    ensures breaks { Breaks result (S.stand store.new) }
{
    let mut files = Vec::new(alloc);
    let mut over = Vec::new(alloc);
    let mut above = None;
    'takes: loop {
        let take = match store.first_left(dest, above) {
            Some(take) => take,
            None => return Ok(Taken { files, over }),
        };
        if take.recorded {
            match store.finish_take(&take.own) {
                Ok(()) => {}
                Err(fault) => return Err(fault),
            }
        } else {
            match take_one(store, alloc, dest, now, &take.own, take.kind) {
                Ok(Some(fates)) => {
                    let kind = take.kind;
                    if let Err(_) = files.push(TookFile { kind, fates }) {
                        return Err(StoreFault::NoMemory);
                    }
                }
                Ok(None) => {
                    if let Err(_) = over.push(take.take) {
                        return Err(StoreFault::NoMemory);
                    }
                    above = Some(take.take);
                }
                Err(fault) => return Err(fault),
            }
        }
    }
}

//! Taking in one file that was moved: it is queued, its actions are done, and the take is removed.
ghost use Rattle.outbound_take.specs.Ruled.{Ruled};
ghost use Rattle.std.specs.Prelude.{◌≡◌, ◌≢◌, ◌++◌, ◌∷◌, [], List, IfNone, IfOk, OnOk, None, Some, false, map};
ghost use Rattle.ftn_addr.specs.Address.{address};
ghost use Rattle.ftn_addr.specs.Limits.{IsAddress};
ghost use Rattle.outbound_take.specs.Calls.{Has, IsTakeFor, owns};
ghost use Rattle.outbound_take.specs.Ours.{Ours, names_behind, queued_as};
ghost use Rattle.outbound_take.specs.Plans.{WaitsOver};
ghost use Rattle.outbound_take.specs.Spares.{SparesOthers, SparesTakes, TellsSo};
ghost use Rattle.outbound_take.specs.Stand.{Breaks, IsCalm, Settles, TakeStand, told};

use crate::Outgoing;
use crate::queueing::queue_take;
use bso_outbound::Kind;
use disk_model::Name;
use ftn_addr::Addr;
use node_model::StoreFault;
use outbound_model::Fate;
use std::alloc::Global;

/// Does the actions of an address that are not done.
#[tactic(auto, using(crate::proofs::RuledLemmas::ruled_call))]
pub fn do_actions<S: Outgoing>(store: &mut S, dest: &Addr, now: u64) -> Result<(), StoreFault>
    requires whole { (S.stand store.old).memory.broken ≡ None }
    requires calm { IsCalm (S.stand store.old) }
    ensures works { Ours (address dest.now) now (λ done. []) result (S.stand store.old) (S.stand store.new) }
    ensures left { Settles result → (S.stand store.new).memory.left ≡ (S.stand store.old).memory.left }
    ensures whole { Settles result → (S.stand store.new).memory.broken ≡ None }
    ensures spares { OnOk result (TellsSo SparesTakes (S.stand store.old) (S.stand store.new)) }
    ensures ruled { Ruled S.rule store.old store.new }
    ensures breaks { Breaks result (S.stand store.new) }
{
    'acts: loop {
        match store.act_next(dest) {
            Ok(Some(_)) => {}
            Ok(None) => return Ok(()),
            Err(fault) => return Err(fault),
        }
    }
}

/// Takes in a take that waits, and removes it. A packet or a request of more than 2,147,483,647 bytes stays as it is, and has no
/// fates.
pub fn take_one<S: Outgoing>(
    store: &mut S,
    alloc: Global,
    dest: &Addr,
    now: u64,
    own: &Name,
    kind: Kind,
) -> Result<Option<Vec<Fate>>, StoreFault>
    requires whole { (S.stand store.old).memory.broken ≡ None }
    requires calm { IsCalm (S.stand store.old) }
    requires address { IsAddress (address dest.now) }
    requires named { IsTakeFor (address dest.now) kind own.now }
    requires left { Has own.now false (S.stand store.old).memory.left }
    ensures works { Ours (address dest.now) now (λ fates. queued_as kind fates) result (S.stand store.old) (S.stand store.new) }
    ensures whole { Settles result → (S.stand store.new).memory.broken ≡ None }
    ensures left { IfOk result (λ fates. owns (S.stand store.new).memory.left ≡ names_behind own.now fates (owns (S.stand store.old).memory.left)) }
    ensures spares { OnOk result (TellsSo (SparesOthers own.now) (S.stand store.old) (S.stand store.new)) }
    ensures over { IfOk result (λ fates. IfNone fates (WaitsOver kind own.now (told (S.stand store.new)))) }
    ensures ruled { Ruled S.rule store.old store.new }
    ensures breaks { Breaks result (S.stand store.new) }
{
    let fates = match queue_take(store, alloc, dest, now, own, kind) {
        Ok(Some(fates)) => fates,
        Ok(None) => return Ok(None),
        Err(fault) => return Err(fault),
    };
    match do_actions(store, dest, now) {
        Ok(()) => {}
        Err(fault) => return Err(fault),
    }
    match store.finish_take(own) {
        Ok(()) => Ok(Some(fates)),
        Err(fault) => Err(fault),
    }
}

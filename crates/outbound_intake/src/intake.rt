//! The take-in of one address.
ghost use Rattle.std.specs.Prelude.{◌≡◌, IfErr, IfOk, None, OnOk, codes};
ghost use Rattle.ftn_addr.specs.Address.{address};
ghost use Rattle.ftn_addr.specs.Limits.{IsAddress};
ghost use Rattle.busy_marks.specs.Text.{mark_text};
ghost use Rattle.bso_outbound.specs.Names.{path_ending};
ghost use Rattle.outbound_take.specs.Ours.{AreOver};
ghost use Rattle.outbound_take.specs.Ruled.{Ruled};
ghost use Rattle.outbound_take.specs.Stand.{IsCalm, TakeStand, told};
ghost use Rattle.outbound_intake.specs.Answers.{Answered, EndsMark, FaultBreaks, OnlyTakes, WasMarked};
ghost use Rattle.outbound_intake.specs.Files.{AllDone};

use crate::marking::{BusyMark, unmarked};
use crate::taking::take_all;
use crate::words::OutboundAt;
use disk_model::Marking;
use ftn_addr::Addr;
use node_model::StoreFault;
use outbound_take::{Outgoing, TakeFault, Taken};
use std::alloc::Global;

/// Takes in the outbound of an address: does its actions that wait, takes in what a stop left, and then each flow file, packet and
/// request for it that stands and isn't over its limit. Between, its busy mark stands. `now` is the moment in seconds, which packets
/// and requests have as their time.
#[tactic(auto, using(outbound_take::proofs::RuledLemmas::ruled_one, outbound_take::proofs::RuledLemmas::ruled_none))]
pub fn take_in<S: Outgoing>(
    store: &mut S,
    alloc: Global,
    outbound: &OutboundAt<'_>,
    dest: &Addr,
    now: u64,
) -> Result<Taken, TakeFault>
    requires whole { (S.stand store.old).memory.broken ≡ None }
    requires calm { IsCalm (S.stand store.old) }
    requires address { IsAddress (address dest.now) }
    requires home { IsAddress (address outbound.now.home.now) }
    ensures works { Answered (address dest.now) now (mark_text (address outbound.now.home.now)) result (S.stand store.old) (S.stand store.new) }
    ensures left { IfOk result (λ taken. OnlyTakes (address dest.now) taken.over.items (told (S.stand store.new))) }
    ensures over { IfOk result (λ taken. AreOver (address dest.now) taken.over.items (told (S.stand store.new))) }
    ensures done { OnOk result (AllDone outbound.now.base.now.list outbound.now.zone outbound.now.home.now.domain.list (address dest.now) (told (S.stand store.new))) }
    ensures mark { EndsMark (path_ending (address dest.now) (codes ".bsy") outbound.now.base.now.list outbound.now.zone) result (told (S.stand store.old)) (told (S.stand store.new)) }
    ensures marked { IfErr result (WasMarked (path_ending (address dest.now) (codes ".bsy") outbound.now.base.now.list outbound.now.zone) (told (S.stand store.old)) (told (S.stand store.new))) }
    ensures ruled { Ruled S.rule store.old store.new }
    ensures breaks { IfErr result (λ fault. FaultBreaks fault (S.stand store.new)) }
{
    let mark = match BusyMark::of(alloc, outbound, dest) {
        Ok(mark) => mark,
        Err(_) => return Err(TakeFault::NoMemory),
    };
    match store.mark(dest, &mark.path, &mark.text) {
        Ok(Marking::Made) => {}
        Ok(Marking::Exists) => return Err(TakeFault::Marked(mark.name)),
        Err(_) => return Err(TakeFault::Disk),
    }
    match take_all(store, alloc, outbound, dest, now) {
        Ok(taken) => match store.unmark(dest, &mark.path, &mark.text) {
            Ok(()) => {
                store.tied();
                Ok(taken)
            }
            Err(_) => Err(TakeFault::Disk),
        },
        Err(StoreFault::Disk) => Err(TakeFault::Disk),
        Err(StoreFault::Read) => Err(TakeFault::Disk),
        Err(StoreFault::Full) => Err(unmarked(store, dest, now, &mark, TakeFault::Full)),
        Err(StoreFault::NoMemory) => Err(unmarked(store, dest, now, &mark, TakeFault::NoMemory)),
    }
}

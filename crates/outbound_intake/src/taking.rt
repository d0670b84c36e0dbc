//! The take-in of what stands for one address.
ghost use Rattle.std.specs.Prelude.{◌≡◌, ◌++◌, IfOk, OnOk, None};
ghost use Rattle.ftn_addr.specs.Address.{address};
ghost use Rattle.ftn_addr.specs.Limits.{IsAddress};
ghost use Rattle.node_model.specs.Lists.{Each};
ghost use Rattle.outbound_take.specs.Ends.{IsDone, end_over, end_took};
ghost use Rattle.outbound_take.specs.Ours.{AreOver, OnlyFor, Ours, all_took};
ghost use Rattle.outbound_take.specs.Ruled.{Ruled};
ghost use Rattle.outbound_take.specs.Stand.{Breaks, IsCalm, Settles, TakeStand, told};
ghost use Rattle.outbound_intake.specs.Files.{AllDone};

use crate::finding::found_files;
use crate::words::{Found, OutboundAt};
use ftn_addr::{Addr, NoMemory};
use node_model::StoreFault;
use outbound_take::{FileEnd, Outgoing, Taken, do_actions, take_found, take_rest};
use std::alloc::Global;

// What became of one file more.
fn add_end(taken: &mut Taken, end: FileEnd) -> Result<(), NoMemory>
    ensures files { OnOk result (all_took taken.new.files.items ≡ all_took taken.old.files.items ++ end_took end) }
    ensures over { OnOk result (taken.new.over.items ≡ end_over taken.old.over.items end) }
{
    match end {
        FileEnd::Stays => {}
        FileEnd::Took(file) => taken.files.push(file)?,
        FileEnd::Over(take) => taken.over.push(take)?,
    }
    Ok(())
}

// Takes in these files, behind what was taken in. Of each nothing more is to be taken in then.
#[tactic(auto, using(outbound_take::proofs::RuledLemmas::ruled_on, outbound_take::proofs::RuledLemmas::ruled_none))]
fn take_each<S: Outgoing>(
    store: &mut S,
    alloc: Global,
    dest: &Addr,
    now: u64,
    found: &[Found],
    taken: &mut Taken,
) -> Result<(), StoreFault>
    requires whole { (S.stand store.old).memory.broken ≡ None }
    requires calm { IsCalm (S.stand store.old) }
    requires address { IsAddress (address dest.now) }
    requires left { OnlyFor (address dest.now) taken.old.over.items (S.stand store.old).memory.left }
    requires over { AreOver (address dest.now) taken.old.over.items (told (S.stand store.old)) }
    ensures works { (more : _) × OnOk result (all_took taken.new.files.items ≡ all_took taken.old.files.items ++ more) × Ours (address dest.now) now (λ done. more) result (S.stand store.old) (S.stand store.new) }
    ensures whole { Settles result → (S.stand store.new).memory.broken ≡ None }
    ensures left { OnOk result (OnlyFor (address dest.now) taken.new.over.items (S.stand store.new).memory.left) }
    ensures over { OnOk result (AreOver (address dest.now) taken.new.over.items (told (S.stand store.new))) }
    ensures done { OnOk result (Each (λ f. IsDone f.path.list f.kind (told (S.stand store.new))) found.now) }
    ensures ruled { Ruled S.rule store.old store.new }
    ensures breaks { Breaks result (S.stand store.new) }
{
    for file in found {
        let end = match take_found(store, alloc, dest, now, &file.path, file.kind) {
            Ok(end) => end,
            Err(fault) => return Err(fault),
        };
        if let Err(_) = add_end(taken, end) {
            return Err(StoreFault::NoMemory);
        }
    }
    Ok(())
}

/// Does the actions that wait, takes in what a stop left, and takes in the files of the outbound that stand.
#[tactic(auto, using(outbound_take::proofs::RuledLemmas::ruled_on))]
pub(crate) fn take_all<S: Outgoing>(
    store: &mut S,
    alloc: Global,
    outbound: &OutboundAt<'_>,
    dest: &Addr,
    now: u64,
) -> Result<Taken, StoreFault>
    requires whole { (S.stand store.old).memory.broken ≡ None }
    requires calm { IsCalm (S.stand store.old) }
    requires address { IsAddress (address dest.now) }
    requires home { IsAddress (address outbound.now.home.now) }
    ensures works { Ours (address dest.now) now (λ taken. all_took taken.files.items) result (S.stand store.old) (S.stand store.new) }
    ensures whole { Settles result → (S.stand store.new).memory.broken ≡ None }
    ensures left { IfOk result (λ taken. OnlyFor (address dest.now) taken.over.items (S.stand store.new).memory.left) }
    ensures over { IfOk result (λ taken. AreOver (address dest.now) taken.over.items (told (S.stand store.new))) }
    ensures done { OnOk result (AllDone outbound.now.base.now.list outbound.now.zone outbound.now.home.now.domain.list (address dest.now) (told (S.stand store.new))) }
    ensures ruled { Ruled S.rule store.old store.new }
    ensures breaks { Breaks result (S.stand store.new) }
{
    match do_actions(store, dest, now) {
        Ok(()) => {}
        Err(fault) => return Err(fault),
    }
    let mut taken = match take_rest(store, alloc, dest, now) {
        Ok(taken) => taken,
        Err(fault) => return Err(fault),
    };
    let found = match found_files(store, alloc, outbound, dest) {
        Ok(found) => found,
        Err(fault) => return Err(fault),
    };
    match take_each(store, alloc, dest, now, found.as_slice(), &mut taken) {
        Ok(()) => Ok(taken),
        Err(fault) => Err(fault),
    }
}

//! The busy mark of one address.
ghost use Rattle.std.specs.Prelude.{◌≡◌, [], IfOk, None, Some, codes};
ghost use Rattle.ftn_addr.specs.Address.{address};
ghost use Rattle.bso_outbound.specs.Names.{path_ending};
ghost use Rattle.bso_outbound.specs.Paths.{last_part};
ghost use Rattle.busy_marks.specs.Text.{mark_text};
ghost use Rattle.outbound_take.specs.Ours.{FaultSettles, IsOurs};
ghost use Rattle.outbound_take.specs.Ruled.{Ruled};
ghost use Rattle.outbound_take.specs.Stand.{TakeStand, Works, told};
ghost use Rattle.outbound_intake.specs.Answers.{FaultBreaks, Frees, IsOwnFault};

use crate::words::OutboundAt;
use bso_outbound::{Kind, last_part, name_of};
use busy_marks::mark_text;
use ftn_addr::{Addr, Bytes, NoMemory};
use outbound_take::{Outgoing, TakeFault};
use std::alloc::Global;

/// The busy mark of an address: its path, its text, and the name of its file.
#[derive(Debug, Drop)]
pub(crate) struct BusyMark {
    pub(crate) path: Bytes,
    pub(crate) text: Bytes,
    pub(crate) name: Bytes,
}

// The path of the mark: that of a request, but for its ending.
fn mark_path(alloc: Global, outbound: &OutboundAt<'_>, dest: &Addr) -> Result<Bytes, NoMemory>
    ensures { IfOk result (λ path. path.list ≡ path_ending (address dest.now) (codes ".bsy") outbound.now.base.now.list outbound.now.zone) }
{
    let mut path = name_of(alloc, dest, Kind::Request, outbound.base, outbound.zone)?;
    let front = path.len().saturating_sub(4);
    path.truncate(front);
    path.push_slice(b".bsy")?;
    Ok(path)
}

impl BusyMark {
    pub(crate) fn of(
        alloc: Global,
        outbound: &OutboundAt<'_>,
        dest: &Addr,
    ) -> Result<BusyMark, NoMemory>
        ensures path { IfOk result (λ mark. mark.path.list ≡ path_ending (address dest.now) (codes ".bsy") outbound.now.base.now.list outbound.now.zone) }
        ensures text { IfOk result (λ mark. mark.text.list ≡ mark_text (address outbound.now.home.now)) }
        ensures name { IfOk result (λ mark. mark.name.list ≡ last_part mark.path.list) }
    {
        let path = mark_path(alloc, outbound, dest)?;
        let text = mark_text(alloc, outbound.home)?;
        let name = Bytes::from_slice(alloc, last_part(path.as_slice()))?;
        Ok(BusyMark { path, text, name })
    }
}

/// Takes the mark away, behind a take-in that ended so.
#[tactic(auto, using(outbound_take::proofs::RuledLemmas::ruled_one))]
pub(crate) fn unmarked<S: Outgoing>(
    store: &mut S,
    dest: &Addr,
    now: u64,
    mark: &BusyMark,
    fault: TakeFault,
) -> TakeFault
    requires whole { (S.stand store.old).memory.broken ≡ None }
    requires fault { IsOwnFault fault }
    requires settles { FaultSettles fault }
    ensures works { Works (IsOurs (address dest.now) now (Some mark.now.text.list)) (FaultSettles result) [] (S.stand store.old) (S.stand store.new) }
    ensures fault { IsOwnFault result }
    ensures frees { Frees mark.now.path.list mark.now.text.list result (told (S.stand store.old)) (told (S.stand store.new)) }
    ensures ruled { Ruled S.rule store.old store.new }
    ensures breaks { FaultBreaks result (S.stand store.new) }
{
    match store.unmark(dest, &mark.path, &mark.text) {
        Ok(()) => fault,
        Err(_) => TakeFault::Disk,
    }
}

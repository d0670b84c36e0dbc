//! Taking in one file of the outbound: it is moved into the own folder, and what it brings is queued.
ghost use Rattle.outbound_take.specs.Ruled.{Ruled};
ghost use Rattle.std.specs.Prelude.{◌≡◌, ℕ, List, IfOk, OnOk, None, Some, true, false, option_map};
ghost use Rattle.ftn_addr.specs.Address.{address};
ghost use Rattle.ftn_addr.specs.Limits.{IsAddress};
ghost use Rattle.outbound_take.specs.Calls.{IsLike};
ghost use Rattle.outbound_take.specs.Ends.{IsDone, end_over, end_took, limit_of};
ghost use Rattle.outbound_take.specs.Ours.{AreOver, OnlyFor, Ours};
ghost use Rattle.outbound_take.specs.Stand.{Breaks, IsCalm, Kept, Same, Settles, TakeStand, told};

use crate::Outgoing;
use crate::taking::take_one;
use crate::words::{FileEnd, TookFile};
use bso_outbound::Kind;
use disk_model::Moved;
use ftn_addr::{Addr, Bytes, MAX_SIZE};
use node_model::StoreFault;
use std::alloc::Global;

/// The greatest size of a flow file, in bytes.
const MAX_FLOW: u64 = 1_048_576;

// The most bytes of a file that is taken.
fn limit_of(kind: Kind) -> u64
    ensures { result ≡ limit_of kind }
{
    match kind {
        Kind::Flow(_) => MAX_FLOW,
        Kind::Mail(_) => MAX_SIZE,
        Kind::Request => MAX_SIZE,
    }
}

// Whether a file stands there that isn't over its limit.
#[tactic(auto, using(crate::proofs::RuledLemmas::ruled_one))]
fn can_take<S: Outgoing>(store: &mut S, path: &Bytes, kind: Kind) -> Result<bool, StoreFault>
    requires { (S.stand store.old).memory.broken ≡ None }
    ensures kept { Kept Same (Settles result) (S.stand store.old) (S.stand store.new) }
    ensures memory { Settles result → IsLike (S.stand store.old).memory (S.stand store.new).memory }
    ensures done { IfOk result (λ can. can ≡ false → IsDone path.now.list kind (told (S.stand store.old))) }
    ensures ruled { Ruled S.rule store.old store.new }
    ensures breaks { Breaks result (S.stand store.new) }
{
    match store.look(path) {
        Ok(Some(stat)) => Ok(stat.size <= limit_of(kind)),
        Ok(None) => Ok(false),
        Err(fault) => Err(fault),
    }
}

/// Takes in a file of the outbound that stands and isn't over its limit, which is 1,048,576 bytes for a flow file and 2,147,483,647
/// for a packet or a request. It is moved into the own folder first.
pub fn take_found<S: Outgoing>(
    store: &mut S,
    alloc: Global,
    dest: &Addr,
    now: u64,
    path: &Bytes,
    kind: Kind,
) -> Result<FileEnd, StoreFault>
    requires whole { (S.stand store.old).memory.broken ≡ None }
    requires calm { IsCalm (S.stand store.old) }
    requires address { IsAddress (address dest.now) }
    ensures works { Ours (address dest.now) now end_took result (S.stand store.old) (S.stand store.new) }
    ensures whole { Settles result → (S.stand store.new).memory.broken ≡ None }
    ensures left { IfOk result (λ end. (over : List ℕ) → OnlyFor (address dest.now) over (S.stand store.old).memory.left → OnlyFor (address dest.now) (end_over over end) (S.stand store.new).memory.left) }
    ensures over { IfOk result (λ end. (over : List ℕ) → AreOver (address dest.now) over (told (S.stand store.old)) → AreOver (address dest.now) (end_over over end) (told (S.stand store.new))) }
    ensures done { OnOk result (IsDone path.now.list kind (told (S.stand store.new))) }
    ensures ruled { Ruled S.rule store.old store.new }
    ensures breaks { Breaks result (S.stand store.new) }
{
    match can_take(store, path, kind) {
        Ok(true) => {}
        Ok(false) => return Ok(FileEnd::Stays),
        Err(fault) => return Err(fault),
    }
    let take = match store.next_take() {
        Ok(take) => take,
        Err(fault) => return Err(fault),
    };
    let own = store.own_name(take, dest, kind);
    match store.take_file(path, &own) {
        Ok(Moved::Done) => {}
        Ok(Moved::Absent) => return Ok(FileEnd::Stays),
        Err(fault) => return Err(fault),
    }
    match take_one(store, alloc, dest, now, &own, kind) {
        Ok(Some(fates)) => Ok(FileEnd::Took(TookFile { kind, fates })),
        Ok(None) => Ok(FileEnd::Over(take)),
        Err(fault) => Err(fault),
    }
}

//! The fold of a ledger that was read.
ghost use Rattle.std.specs.Prelude.{◌≡◌, ◌⊎◌, [], IfErr, IfOk, IsErrOf, None, OnOk, Some};
ghost use Rattle.ledger_rec.specs.Payloads.{fold_of, stepped};
ghost use Rattle.ledger_rec.specs.declared.fault.FoldFault.TheVariants.{BadFold as BreaksRule};
ghost use Rattle.node_store.specs.Opening.{Misfolds};
ghost use Rattle.node_store.specs.declared.opening.fault.StoreOpenFault.TheVariants.{NoMemory as OutOfMemory};

use crate::opening::fault::StoreOpenFault;
use ftn_addr::Addr;
use ledger_file::Ledger;
use ledger_rec::{FoldFault, Folded, RecFault, read_record};
use std::alloc::Global;

// Folds the record of one more payload in.
fn fold_payload(
    alloc: Global,
    payload: &[u8],
    home: &Addr,
    folded: &mut Folded,
) -> Result<(), FoldFault>
    ensures ok { OnOk result (stepped (Some folded.old.state) payload.now ≡ Some folded.new.state) }
    ensures bad { IsErrOf result BreaksRule → stepped (Some folded.old.state) payload.now ≡ None }
    ensures holds { folded.new.holds ≡ folded.old.holds }
{
    match read_record(alloc, payload, home) {
        Ok(rec) => folded.add_owned(rec),
        Err(RecFault::BadRecord) => Err(FoldFault::BadFold),
        Err(RecFault::NoMemory) => Err(FoldFault::NoMemory),
    }
}

/// Folds the records of a ledger, one after another. The first that spells no record, or one that doesn't follow, is told by its
/// place.
pub(crate) fn fold_ledger(
    alloc: Global,
    home: &Addr,
    ledger: &Ledger,
) -> Result<Folded, StoreOpenFault>
    ensures folds { IfOk result (λ folded. fold_of ledger.now.payloads ≡ Some folded.state) }
    ensures holds { IfOk result (λ folded. folded.holds ≡ []) }
    ensures bad { IfErr result (λ fault. (fault ≡ OutOfMemory) ⊎ Misfolds ledger.now.payloads fault) }
{
    let mut folded = Folded::new(alloc);
    for i in 0..ledger.count() {
        match fold_payload(alloc, ledger.payload(i), home, &mut folded) {
            Ok(()) => (),
            Err(FoldFault::BadFold) => return Err(StoreOpenFault::LedgerBad(ledger.place(i))),
            Err(FoldFault::NoMemory) => return Err(StoreOpenFault::NoMemory),
        }
    }
    Ok(folded)
}

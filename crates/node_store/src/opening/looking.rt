//! The own files of a ledger's fold, before anything is changed.
ghost use Rattle.std.specs.Prelude.{◌≡◌, ◌⊎◌, IfErr, IfOk, OnOk};
ghost use Rattle.disk_model.specs.Changes.{Every};
ghost use Rattle.disk_model.specs.Moments.{Now};
ghost use Rattle.ledger_file.specs.Ledger.{LedgerIs};
ghost use Rattle.node_store.specs.Keeping.{AreReceipts, Beside, Finds, HasReason, IsUntouched, given_in};
ghost use Rattle.node_store.specs.Opening.{IsNewBooks};
ghost use Rattle.node_store.specs.Tending.{IsNear, IsTended};
ghost use Rattle.node_store.specs.Worlds.{IsBadFile};
ghost use Rattle.node_store.specs.declared.opening.fault.StoreOpenFault.TheVariants.{NoMemory as OutOfMemory};

use crate::books::Books;
use crate::opening::fault::StoreOpenFault;
use crate::opening::own_files::keep_files;
use disk_model::Disk;
use std::alloc::Global;

/// Looks the files of the books through and makes them durable, and gives the numbers of the receipts whose files don't stand.
pub(crate) fn look_through<D: Disk>(
    alloc: Global,
    disk: &mut D,
    books: &Books,
) -> Result<Vec<u32>, StoreOpenFault>
    requires books { IsNewBooks books.now }
    requires durable { Every (Now D.moment D.images disk.old) (LedgerIs books.now.payloads) }
    requires near { Beside D.files D.moment D.images (IsNear books.now.folding.state) disk.old }
    ensures untouched { IsUntouched D.files D.moment D.images disk.old disk.new }
    ensures given { IfOk result (λ given. Every (D.files disk.new) (λ f. given.items ≡ given_in f books.now.folding.state.inbox)) }
    ensures receipts { IfOk result (λ given. AreReceipts given.items books.now.folding.state.inbox) }
    ensures tended { OnOk result (IsTended D.files D.moment D.images books.now.payloads books.now.folding.state disk.new) }
    ensures bad { IfErr result (λ fault. (fault ≡ OutOfMemory) ⊎ Finds (λ name. Every (D.files disk.new) (λ f. IsBadFile books.now.folding.state f name)) fault) }
    ensures reason { HasReason (D.fault_count disk.old) (D.fault_count disk.new) result }
{
    match keep_files(alloc, disk, books.folded()) {
        Ok(given) => Ok(given),
        Err(fault) => Err(fault),
    }
}

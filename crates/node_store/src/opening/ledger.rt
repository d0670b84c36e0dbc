//! The ledger of a store that is opened, with its fold.
ghost use Rattle.std.specs.Prelude.{◌≡◌, ◌⊎◌, [], true, Some, IfErr, IfOk};
ghost use Rattle.disk_model.specs.Changes.{Every, Follows};
ghost use Rattle.disk_model.specs.Moments.{Leaves, Now};
ghost use Rattle.ledger_file.specs.Ledger.{LedgerIs};
ghost use Rattle.ledger_rec.specs.Fold.{State};
ghost use Rattle.ledger_rec.specs.Payloads.{fold_of};
ghost use Rattle.node_store.specs.Clearing.{Restores};
ghost use Rattle.node_store.specs.Books.{Books as Held};
ghost use Rattle.node_store.specs.Keeping.{Beside, HasReason};
ghost use Rattle.node_store.specs.Opening.{IsNewBooks, IsReady, IsRefused};
ghost use Rattle.node_store.specs.Tending.{IsNear};
ghost use Rattle.node_store.specs.Worlds.{LedgerOf};
ghost use Rattle.node_store.specs.declared.opening.fault.StoreOpenFault.TheVariants.{Disk as DiskFailed, NoMemory as OutOfMemory};

use crate::books::Books;
use crate::opening::fault::{StoreOpenFault, of_ledger};
use crate::opening::folding::fold_ledger;
use disk_model::Disk;
use ftn_addr::Addr;
use ledger_file::Ledger;
use std::alloc::Global;

fn open_ledger<D: Disk>(alloc: Global, disk: &mut D) -> Result<Ledger, StoreOpenFault>
    requires ready { D.tells ≡ true → Every (Now D.moment D.images disk.old) (IsReady (D.content disk.old)) }
    ensures places { IfOk result (λ ledger. ledger.reserved ≡ 0) }
    ensures found { IfOk result (λ ledger. D.tells ≡ true → LedgerOf ledger.payloads (D.content disk.old)) }
    ensures durable { IfOk result (λ ledger. Every (Now D.moment D.images disk.new) (LedgerIs ledger.payloads)) }
    ensures near { IfOk result (λ ledger. (s : State) → fold_of ledger.payloads ≡ Some s → Beside D.files D.moment D.images (IsNear s) disk.new) }
    ensures same { IfOk result (λ ledger. D.tells ≡ true → (D.content disk.new ≡ D.content disk.old) ⊎ (ledger.payloads ≡ [])) }
    ensures refused { IfErr result (λ fault. (fault ≡ DiskFailed) ⊎ ((fault ≡ OutOfMemory) ⊎ (D.tells ≡ true → IsRefused fault (D.content disk.old)))) }
    ensures stop { D.tells ≡ true → Leaves D.moment D.images Restores disk.old disk.new }
    ensures read { Follows Restores (D.files disk.old) (D.files disk.new) }
    ensures reason { HasReason (D.fault_count disk.old) (D.fault_count disk.new) result }
{
    match Ledger::open(alloc, disk) {
        Ok(ledger) => Ok(ledger),
        Err(fault) => Err(of_ledger(fault)),
    }
}

/// Opens the ledger of a disk, and folds its records.
pub(crate) fn open_books<D: Disk>(
    alloc: Global,
    disk: &mut D,
    home: &Addr,
) -> Result<Books, StoreOpenFault>
    requires ready { D.tells ≡ true → Every (Now D.moment D.images disk.old) (IsReady (D.content disk.old)) }
    ensures books { IfOk result IsNewBooks }
    ensures found { IfOk result (λ (b : Held). D.tells ≡ true → LedgerOf b.payloads (D.content disk.old)) }
    ensures durable { IfOk result (λ (b : Held). Every (Now D.moment D.images disk.new) (LedgerIs b.payloads)) }
    ensures near { IfOk result (λ (b : Held). Beside D.files D.moment D.images (IsNear b.folding.state) disk.new) }
    ensures same { IfOk result (λ (b : Held). D.tells ≡ true → (D.content disk.new ≡ D.content disk.old) ⊎ (b.payloads ≡ [])) }
    ensures refused { IfErr result (λ fault. (fault ≡ DiskFailed) ⊎ ((fault ≡ OutOfMemory) ⊎ (D.tells ≡ true → IsRefused fault (D.content disk.old)))) }
    ensures stop { D.tells ≡ true → Leaves D.moment D.images Restores disk.old disk.new }
    ensures read { Follows Restores (D.files disk.old) (D.files disk.new) }
    ensures reason { HasReason (D.fault_count disk.old) (D.fault_count disk.new) result }
{
    let ledger = match open_ledger(alloc, disk) {
        Ok(ledger) => ledger,
        Err(fault) => return Err(fault),
    };
    match fold_ledger(alloc, home, &ledger) {
        Ok(folded) => Ok(Books::new(alloc, ledger, folded)),
        Err(fault) => Err(fault),
    }
}

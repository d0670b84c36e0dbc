//! What an opening takes away of the own files.
ghost use Rattle.std.specs.Prelude.{◌≡◌, ◌⊎◌, IfErr, IfOk, OnOk};
ghost use Rattle.disk_model.specs.Changes.{Every, Follows};
ghost use Rattle.disk_model.specs.Folders.{ListsFiles};
ghost use Rattle.disk_model.specs.Moments.{Leaves};
ghost use Rattle.node_store.specs.Clearing.{Restores};
ghost use Rattle.node_store.specs.Keeping.{HasReason, IsUntouched};
ghost use Rattle.node_store.specs.Standing.{StandSo};
ghost use Rattle.node_store.specs.Strays.{HasNoStray};
ghost use Rattle.node_store.specs.Tending.{HasCutParts, IsTended};
ghost use Rattle.node_store.specs.declared.opening.fault.StoreOpenFault.TheVariants.{Disk as DiskFailed, NoMemory as OutOfMemory};

use crate::books::Books;
use crate::opening::fault::StoreOpenFault;
use crate::opening::parts::cut_parts;
use crate::opening::standing::keep_takes;
use crate::opening::strays::remove_strays;
use crate::takes::StandingTakes;
use disk_model::{Disk, ListFault, Name};
use std::alloc::Global;

/// The names of all own files.
pub(crate) fn list_names<D: Disk>(disk: &mut D) -> Result<Vec<Name>, StoreOpenFault>
    ensures untouched { IsUntouched D.files D.moment D.images disk.old disk.new }
    ensures listed { IfOk result (λ names. Every (D.files disk.new) (λ f. ListsFiles f.own names.items)) }
    ensures fault { IfErr result (λ fault. (fault ≡ DiskFailed) ⊎ (fault ≡ OutOfMemory)) }
    ensures reason { HasReason (D.fault_count disk.old) (D.fault_count disk.new) result }
{
    match disk.list() {
        Ok(names) => Ok(names),
        Err(ListFault::Failed) => Err(StoreOpenFault::Disk),
        Err(ListFault::NoMemory) => Err(StoreOpenFault::NoMemory),
    }
}

/// What was found as the own files were tidied: the takes that stand, and how many strays were removed.
#[derive(Drop)]
pub(crate) struct Tidied {
    pub(crate) takes: StandingTakes,
    pub(crate) removed: u32,
}

/// Cuts the parts to their marks, makes the takes durable that stand, and removes strays.
pub(crate) fn tidy<D: Disk>(
    alloc: Global,
    disk: &mut D,
    books: &Books,
) -> Result<Tidied, StoreOpenFault>
    requires { IsTended D.files D.moment D.images books.now.payloads books.now.folding.state disk.old }
    ensures tended { OnOk result (IsTended D.files D.moment D.images books.now.payloads books.now.folding.state disk.new) }
    ensures none { OnOk result (Every (D.files disk.new) (HasNoStray books.now.folding.state)) }
    ensures cut { OnOk result (Every (D.files disk.new) (HasCutParts books.now.folding.state)) }
    ensures takes { IfOk result (λ x. StandSo (D.files disk.new) books.now.folding.state x.takes) }
    ensures stop { Leaves D.moment D.images Restores disk.old disk.new }
    ensures read { Follows Restores (D.files disk.old) (D.files disk.new) }
    ensures fault { IfErr result (λ fault. (fault ≡ DiskFailed) ⊎ (fault ≡ OutOfMemory)) }
    ensures reason { HasReason (D.fault_count disk.old) (D.fault_count disk.new) result }
{
    match cut_parts(disk, books) {
        Ok(()) => (),
        Err(fault) => return Err(fault),
    }
    let names = match list_names(disk) {
        Ok(names) => names,
        Err(fault) => return Err(fault),
    };
    let recorded = books.folded().takes();
    let takes = match keep_takes(alloc, disk, names.as_slice(), recorded) {
        Ok(takes) => takes,
        Err(fault) => return Err(fault),
    };
    match remove_strays(disk, names.as_slice(), books) {
        Ok(removed) => Ok(Tidied { takes, removed }),
        Err(fault) => Err(fault),
    }
}

//! The own files that belong to a ledger: each is looked at, and made durable as it is read.
ghost use Rattle.std.specs.Prelude.{◌≡◌, ◌≢◌, ◌⊎◌, ◌≤◌, List, ℕ, length, Bool, not, Some, IfErr, IfOk, OnOk};
ghost use Rattle.disk_model.specs.Changes.{Every, SameAt};
ghost use Rattle.disk_model.specs.World.{World};
ghost use Rattle.node_store.specs.Keeping.{Beside, Finds, HasReason, IsUntouched};
ghost use Rattle.node_store.specs.Worlds.{HasFront, HasLength, HasNoOther, is_absent};

use crate::opening::fault::StoreOpenFault;
use disk_model::{Disk, Name};

/// Makes a file of that size durable.
pub(crate) fn keep_whole<D: Disk>(
    disk: &mut D,
    name: &Name,
    size: u64,
) -> Result<(), StoreOpenFault>
    ensures untouched { IsUntouched D.files D.moment D.images disk.old disk.new }
    ensures kept { OnOk result (Beside D.files D.moment D.images (λ f c. HasLength name.now size f × SameAt name.now f c) disk.new) }
    ensures bad { IfErr result (Finds (λ bad. (bad ≡ name.now) × Every (D.files disk.new) (λ f. HasLength name.now size f → ⊥))) }
    ensures reason { HasReason (D.fault_count disk.old) (D.fault_count disk.new) result }
{
    let stands = disk.stat(name)?;
    if stands != Some(size) {
        return Err(StoreOpenFault::FileBad(*name));
    }
    disk.sync(name)?;
    Ok(())
}

/// Makes a file of at least that length durable.
pub(crate) fn keep_front<D: Disk>(disk: &mut D, name: &Name, len: u64) -> Result<(), StoreOpenFault>
    ensures untouched { IsUntouched D.files D.moment D.images disk.old disk.new }
    ensures kept { OnOk result (Beside D.files D.moment D.images (λ f c. HasFront name.now len f × SameAt name.now f c) disk.new) }
    ensures bad { IfErr result (Finds (λ bad. (bad ≡ name.now) × Every (D.files disk.new) (λ f. HasFront name.now len f → ⊥))) }
    ensures reason { HasReason (D.fault_count disk.old) (D.fault_count disk.new) result }
{
    match disk.stat(name)? {
        Some(stands) if len <= stands => (),
        _ => return Err(StoreOpenFault::FileBad(*name)),
    }
    disk.sync(name)?;
    Ok(())
}

/// Makes a file of that size durable, where it stands, and says whether it does.
pub(crate) fn keep_if_there<D: Disk>(
    disk: &mut D,
    name: &Name,
    size: u64,
) -> Result<bool, StoreOpenFault>
    ensures untouched { IsUntouched D.files D.moment D.images disk.old disk.new }
    ensures there { IfOk result (λ there. Every (D.files disk.new) (λ f. there ≡ not (is_absent (f.own name.now)))) }
    ensures kept { OnOk result (Beside D.files D.moment D.images (λ f c. HasNoOther name.now size f × ((bytes : List ℕ) → f.own name.now ≡ Some bytes → SameAt name.now f c)) disk.new) }
    ensures bad { IfErr result (Finds (λ bad. (bad ≡ name.now) × Every (D.files disk.new) (λ f. HasNoOther name.now size f → ⊥))) }
    ensures reason { HasReason (D.fault_count disk.old) (D.fault_count disk.new) result }
{
    let Some(stands) = disk.stat(name)? else {
        return Ok(false);
    };
    if stands != size {
        return Err(StoreOpenFault::FileBad(*name));
    }
    disk.sync(name)?;
    Ok(true)
}

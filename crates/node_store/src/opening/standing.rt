//! The takes that stand are found and made durable.
ghost use Rattle.std.specs.Prelude.{◌≡◌, ◌⊎◌, IfErr, IfOk, OnOk};
ghost use Rattle.disk_model.specs.Changes.{Every, Stands};
ghost use Rattle.disk_model.specs.Folders.{ListsFiles};
ghost use Rattle.node_store.specs.Keeping.{Beside, HasReason, IsUntouched};
ghost use Rattle.node_store.specs.Standing.{AreKept, found_takes, found_under};
ghost use Rattle.node_store.specs.declared.opening.fault.StoreOpenFault.TheVariants.{Disk as DiskFailed, NoMemory as OutOfMemory};

use crate::names::take_number;
use crate::opening::fault::StoreOpenFault;
use crate::opening::numbers::greatest;
use crate::opening::strays::is_recorded;
use crate::takes::StandingTakes;
use disk_model::{Disk, Name};
use std::alloc::Global;

// Makes the take of that name durable, where its number isn't recorded, and puts it to those that stand.
fn keep_take<D: Disk>(
    disk: &mut D,
    name: &Name,
    recorded: &[u32],
    takes: &mut StandingTakes,
) -> Result<(), StoreOpenFault>
    requires stands { Every (D.files disk.old) (Stands name.now 0) }
    ensures untouched { IsUntouched D.files D.moment D.images disk.old disk.new }
    ensures takes { OnOk result (takes.new ≡ found_under recorded.now name.now takes.old) }
    ensures kept { OnOk result (Beside D.files D.moment D.images (AreKept takes.old) disk.old → Beside D.files D.moment D.images (AreKept takes.new) disk.new) }
    ensures fault { IfErr result (λ fault. (fault ≡ DiskFailed) ⊎ (fault ≡ OutOfMemory)) }
    ensures reason { HasReason (D.fault_count disk.old) (D.fault_count disk.new) result }
{
    let Some(take) = take_number(name) else {
        return Ok(());
    };
    if is_recorded(take, recorded) {
        return Ok(());
    }
    disk.sync(name)?;
    takes.add(take, *name)?;
    Ok(())
}

/// The takes among the files of a disk, whose names are these, but for those that are recorded. They are made durable.
pub(crate) fn keep_takes<D: Disk>(
    alloc: Global,
    disk: &mut D,
    names: &[Name],
    recorded: &[u32],
) -> Result<StandingTakes, StoreOpenFault>
    requires { Every (D.files disk.old) (λ f. ListsFiles f.own names.now) }
    ensures untouched { IsUntouched D.files D.moment D.images disk.old disk.new }
    ensures takes { IfOk result (λ takes. takes ≡ found_takes recorded.now names.now) }
    ensures kept { IfOk result (λ takes. Beside D.files D.moment D.images (AreKept takes) disk.new) }
    ensures fault { IfErr result (λ fault. (fault ≡ DiskFailed) ⊎ (fault ≡ OutOfMemory)) }
    ensures reason { HasReason (D.fault_count disk.old) (D.fault_count disk.new) result }
{
    let mut takes = StandingTakes::behind(alloc, greatest(recorded));
    for name in names {
        match keep_take(disk, name, recorded, &mut takes) {
            Ok(()) => (),
            Err(fault) => return Err(fault),
        }
    }
    Ok(takes)
}

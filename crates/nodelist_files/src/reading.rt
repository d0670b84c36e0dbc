//! Reading an own file whole.
ghost use Rattle.std.specs.Prelude.{◌≡◌, ◌≤◌, length, option_map, Some, IfOk, IsErrOf, OnOk};
ghost use Rattle.disk_model.specs.Changes.{Every, Same};
ghost use Rattle.disk_model.specs.Moments.{Leaves};
ghost use Rattle.ftn_addr.specs.Counts.{Increased};

use disk_model::{Disk, Name};
use ftn_addr::Failed;
use std::alloc::{AllocError, Global};

/// Why a file wasn't read.
#[derive(Clone, Copy, Debug, PartialEq, Eq)]
pub(crate) enum ReadFault {
    Disk,
    NoMemory,
}

impl From<Failed> for ReadFault {
    ghost use Rattle.std.specs.Prelude.{◌≡◌};
    ghost use Rattle.nodelist_files.specs.declared.reading.ReadFault.TheVariants.{Disk};

    ghost from_gives = { λ _ fault. fault ≡ Disk };

    fn from(_error: Failed) -> ReadFault {
        ReadFault::Disk
    }
}

impl From<AllocError> for ReadFault {
    ghost use Rattle.std.specs.Prelude.{◌≡◌};
    ghost use Rattle.nodelist_files.specs.declared.reading.ReadFault.TheVariants.{NoMemory as OutOfMemory};

    ghost from_gives = { λ _ fault. fault ≡ OutOfMemory };

    fn from(_error: AllocError) -> ReadFault {
        ReadFault::NoMemory
    }
}

/// The bytes of a file that has so many.
pub(crate) fn read_whole<D: Disk>(
    alloc: Global,
    disk: &mut D,
    name: &Name,
    len: u64,
) -> Result<Vec<u8>, ReadFault>
    requires { Every (D.files disk.old) (λ w. Some len ≡ option_map length (w.own name.now)) }
    ensures bytes { IfOk result (λ bytes. Every (D.files disk.old) (λ w. w.own name.now ≡ Some bytes.items)) }
    ensures read { Every (D.files disk.new) (D.files disk.old) }
    ensures stop { Leaves D.moment D.images Same disk.old disk.new }
    ensures disk { IsErrOf result ReadFault.Disk → Increased (D.fault_count disk.old) (D.fault_count disk.new) }
    ensures faults { D.fault_count disk.old ≤ D.fault_count disk.new }
    ensures calm { OnOk result (D.fault_count disk.new ≡ D.fault_count disk.old) }
{
    let mut bytes = vec![in alloc; 0; len as usize]?;
    disk.read_at(name, 0, &mut bytes)?;
    Ok(bytes)
}

//! What a command came to.
ghost use Rattle.std.specs.Prelude.{◌≡◌};
ghost use Rattle.command_base.specs.Statuses.{status_text, status_unopened, status_unset};
ghost use Rattle.still_commands.specs.Came.{only, told_of};

use command_base::{SettingsFault, Status, status_unopened, status_unset};
use disk_model::Disk;
use ftn_addr::Bytes;
use node_store::StoreOpenFault;
use std::alloc::Global;

/// What a command came to, before anything is printed: its lines and its status.
#[derive(Drop)]
pub(crate) struct Came {
    pub lines: Bytes,
    pub status: Status,
}

/// Nothing but that status is told.
pub(crate) fn only(alloc: Global, status: Status) -> Came
    ensures { told_of result ≡ only (status_text status) }
{
    Came {
        lines: Bytes::new(alloc),
        status,
    }
}

/// The settings weren't read.
pub(crate) fn unset<D: Disk>(alloc: Global, fault: SettingsFault, disk: D) -> (Came, D)
    ensures told { told_of result.0 ≡ only (status_unset fault (D.fault_count disk)) }
    ensures disk { result.1 ≡ disk }
{
    let faults = disk.faults();
    (only(alloc, status_unset(fault, faults)), disk)
}

/// No store was opened.
pub(crate) fn unopened<D: Disk>(alloc: Global, fault: StoreOpenFault, disk: D) -> (Came, D)
    ensures told { told_of result.0 ≡ only (status_unopened fault (D.fault_count disk)) }
    ensures disk { result.1 ≡ disk }
{
    let faults = disk.faults();
    (only(alloc, status_unopened(fault, faults)), disk)
}

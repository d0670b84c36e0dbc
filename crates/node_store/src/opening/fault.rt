//! Why a store isn't opened.
ghost use Rattle.std.specs.Prelude.{◌≡◌};
ghost use Rattle.node_store.specs.Opening.{fault_of};

use disk_model::Name;
use ftn_addr::{Failed, NoMemory};
use ledger_file::OpenFault;
use std::alloc::AllocError;
use thiserror::Error;

/// Why a store isn't opened.
#[derive(Clone, Copy, Debug, PartialEq, Eq, Error)]
pub enum StoreOpenFault {
    /// The disk failed. Its count of faults rose.
    #[error("the disk failed")]
    Disk,
    /// The ledger is none of records that follow one another. The place is that of the header (0), of its version (8), or of
    /// the gate of the first bad record, in bytes from the start of the file.
    #[error("a ledger that is bad at {0}")]
    LedgerBad(u64),
    /// The own file of a live entry or a mark is missing or too short, or has a length that isn't its own.
    #[error("an own file that doesn't fit the ledger")]
    FileBad(Name),
    /// No memory.
    #[error("out of memory")]
    NoMemory,
}

impl From<NoMemory> for StoreOpenFault {
    ghost use Rattle.std.specs.Prelude.{◌≡◌};
    ghost use Rattle.node_store.specs.declared.opening.fault.StoreOpenFault.TheVariants.{NoMemory};

    ghost from_gives = { λ _ e. e ≡ NoMemory };

    fn from(_: NoMemory) -> Self {
        StoreOpenFault::NoMemory
    }
}

impl From<AllocError> for StoreOpenFault {
    ghost use Rattle.std.specs.Prelude.{◌≡◌};
    ghost use Rattle.node_store.specs.declared.opening.fault.StoreOpenFault.TheVariants.{NoMemory};

    ghost from_gives = { λ _ e. e ≡ NoMemory };

    fn from(_: AllocError) -> Self {
        StoreOpenFault::NoMemory
    }
}

impl From<Failed> for StoreOpenFault {
    ghost use Rattle.std.specs.Prelude.{◌≡◌};
    ghost use Rattle.node_store.specs.declared.opening.fault.StoreOpenFault.TheVariants.{Disk};

    ghost from_gives = { λ _ e. e ≡ Disk };

    fn from(_: Failed) -> Self {
        StoreOpenFault::Disk
    }
}

/// Why a store isn't opened whose ledger isn't.
pub(crate) fn of_ledger(fault: OpenFault) -> StoreOpenFault
    ensures { result ≡ fault_of fault }
{
    match fault {
        OpenFault::Disk => StoreOpenFault::Disk,
        OpenFault::NotLedger => StoreOpenFault::LedgerBad(0),
        OpenFault::Version(_) => StoreOpenFault::LedgerBad(8),
        OpenFault::Cut(place) | OpenFault::Over(place) => StoreOpenFault::LedgerBad(place),
        OpenFault::NoMemory => StoreOpenFault::NoMemory,
    }
}

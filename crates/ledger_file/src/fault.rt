//! Why a ledger isn't opened, or takes no more.
use ftn_addr::{Failed, NoMemory};
use std::alloc::AllocError;
use thiserror::Error;

/// Why a ledger isn't opened.
#[derive(Clone, Copy, Debug, PartialEq, Eq, Error)]
pub enum OpenFault {
    /// The disk failed. Its count of faults rose.
    #[error("the disk failed")]
    Disk,
    /// The file doesn't begin with a header.
    #[error("not a ledger")]
    NotLedger,
    /// The header has this version, which isn't 1.
    #[error("a ledger of version {0}")]
    Version(u32),
    /// The file ends where a gate is due, or the record of the open gate at this place, in bytes from the
    /// file's start, isn't whole.
    #[error("a ledger that is cut at {0}")]
    Cut(u64),
    /// The gate at this place is open, behind as many records as a ledger can have.
    #[error("a ledger with a record too many at {0}")]
    Over(u64),
    /// No memory. The file is as it was.
    #[error("out of memory")]
    NoMemory,
}

/// Why a ledger takes no more payloads.
#[derive(Clone, Copy, Debug, PartialEq, Eq, Error)]
pub enum AppendFault {
    /// The disk failed, and its count of faults rose. The ledger has to be opened again.
    #[error("the disk failed")]
    Disk,
    /// A ledger has at most 262,144 records, places reserved among them. Nothing changed.
    #[error("the ledger is full")]
    Full,
    /// No memory. Nothing changed.
    #[error("out of memory")]
    NoMemory,
}

impl From<NoMemory> for OpenFault {
    ghost use Rattle.std.specs.Prelude.{◌≡◌};
    ghost use Rattle.ledger_file.specs.declared.fault.OpenFault.TheVariants.{NoMemory};

    ghost from_gives = { λ _ e. e ≡ NoMemory };

    fn from(_: NoMemory) -> Self {
        OpenFault::NoMemory
    }
}

impl From<AllocError> for OpenFault {
    ghost use Rattle.std.specs.Prelude.{◌≡◌};
    ghost use Rattle.ledger_file.specs.declared.fault.OpenFault.TheVariants.{NoMemory};

    ghost from_gives = { λ _ e. e ≡ NoMemory };

    fn from(_: AllocError) -> Self {
        OpenFault::NoMemory
    }
}

impl From<Failed> for OpenFault {
    ghost use Rattle.std.specs.Prelude.{◌≡◌};
    ghost use Rattle.ledger_file.specs.declared.fault.OpenFault.TheVariants.{Disk};

    ghost from_gives = { λ _ e. e ≡ Disk };

    fn from(_: Failed) -> Self {
        OpenFault::Disk
    }
}

impl From<NoMemory> for AppendFault {
    ghost use Rattle.std.specs.Prelude.{◌≡◌};
    ghost use Rattle.ledger_file.specs.declared.fault.AppendFault.TheVariants.{NoMemory};

    ghost from_gives = { λ _ e. e ≡ NoMemory };

    fn from(_: NoMemory) -> Self {
        AppendFault::NoMemory
    }
}

impl From<Failed> for AppendFault {
    ghost use Rattle.std.specs.Prelude.{◌≡◌};
    ghost use Rattle.ledger_file.specs.declared.fault.AppendFault.TheVariants.{Disk};

    ghost from_gives = { λ _ e. e ≡ Disk };

    fn from(_: Failed) -> Self {
        AppendFault::Disk
    }
}

//! What can be wrong with a record.
ghost use Rattle.std.specs.Prelude.{◌≡◌};
ghost use Rattle.ledger_rec.specs.declared.fault.FoldFault.TheVariants.{NoMemory as FoldOutOfMemory};
ghost use Rattle.ledger_rec.specs.declared.fault.RecFault.TheVariants.{NoMemory as OutOfMemory};

use ftn_addr::NoMemory;
use thiserror::Error;

/// Why a payload gives no record.
#[derive(Clone, Copy, Debug, PartialEq, Eq, Error)]
pub enum RecFault {
    /// It spells none.
    #[error("no record")]
    BadRecord,
    #[error("out of memory")]
    NoMemory,
}

impl From<NoMemory> for RecFault {
    ghost from_gives = { λ _ fault. fault ≡ OutOfMemory };

    fn from(_error: NoMemory) -> RecFault {
        RecFault::NoMemory
    }
}

/// Why a record isn't folded.
#[derive(Clone, Copy, Debug, PartialEq, Eq, Error)]
pub enum FoldFault {
    /// It breaks a rule of the fold after those before it.
    #[error("the record doesn't follow from those before")]
    BadFold,
    #[error("out of memory")]
    NoMemory,
}

impl From<NoMemory> for FoldFault {
    ghost from_gives = { λ _ fault. fault ≡ FoldOutOfMemory };

    fn from(_error: NoMemory) -> FoldFault {
        FoldFault::NoMemory
    }
}

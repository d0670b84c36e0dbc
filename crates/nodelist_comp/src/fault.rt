//! What is wrong with a nodelist.
ghost use Rattle.std.specs.Prelude.{◌≡◌};
ghost use Rattle.nodelist_comp.specs.declared.fault.ListCause.TheVariants.{NoMemory as OutOfMemory};

use ftn_addr::NoMemory;
use std::alloc::AllocFailed;
use thiserror::Error;

/// Why a line of a nodelist can't be taken.
#[derive(Clone, Copy, Debug, PartialEq, Eq, Error)]
pub enum ListCause {
    #[error("no zone above")]
    NoZone,
    #[error("no number from 0 to 32767")]
    BadNumber,
    #[error("unknown keyword")]
    UnknownKeyword,
    #[error("more than 65536 nodes")]
    TooMany,
    #[error("out of memory")]
    NoMemory,
}

impl From<NoMemory> for ListCause {
    ghost from_gives = { λ _ cause. cause ≡ OutOfMemory };

    fn from(_error: NoMemory) -> ListCause {
        ListCause::NoMemory
    }
}

impl<T: Drop> From<AllocFailed<T>> for ListCause {
    ghost from_gives = { λ _ cause. cause ≡ OutOfMemory };

    fn from(_error: AllocFailed<T>) -> ListCause {
        ListCause::NoMemory
    }
}

/// The first line of a nodelist that can't be taken.
#[derive(Clone, Copy, Debug, PartialEq, Eq, Error)]
#[error("line {line}: {cause}")]
pub struct ListTextFault {
    /// Counted from 1; the greatest `u32` stands for all lines from there on.
    pub line: u32,
    pub cause: ListCause,
}

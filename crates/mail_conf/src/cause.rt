//! What is wrong with settings.
ghost use Rattle.std.specs.Prelude.{◌≡◌};
ghost use Rattle.mail_conf.specs.declared.cause.ConfCause.TheVariants.{NoMemory as OutOfMemory};

use ftn_addr::NoMemory;
use std::alloc::AllocFailed;
use thiserror::Error;

/// Why settings are refused.
#[derive(Clone, Copy, Debug, PartialEq, Eq, Error)]
pub enum ConfCause {
    #[error("unknown word")]
    UnknownWord,
    #[error("a word is missing")]
    MissingWord,
    #[error("no address or domain")]
    BadAddress,
    #[error("no number, or one out of its range")]
    BadNumber,
    #[error("set twice")]
    Twice,
    #[error("no address is set")]
    NoAddress,
    #[error("no settings")]
    NoText,
    #[error("more than 1048576 bytes")]
    TooLong,
    #[error("out of memory")]
    NoMemory,
}

impl From<NoMemory> for ConfCause {
    ghost from_gives = { λ _ cause. cause ≡ OutOfMemory };

    fn from(_error: NoMemory) -> ConfCause {
        ConfCause::NoMemory
    }
}

impl<T: Drop> From<AllocFailed<T>> for ConfCause {
    ghost from_gives = { λ _ cause. cause ≡ OutOfMemory };

    fn from(_error: AllocFailed<T>) -> ConfCause {
        ConfCause::NoMemory
    }
}

/// Where settings are refused, and why.
#[derive(Clone, Copy, Debug, PartialEq, Eq, Error)]
#[error("line {line}: {cause}")]
pub struct ConfFault {
    /// Counted from 1; 0 for the settings as a whole.
    pub line: u32,
    pub cause: ConfCause,
}

ghost use Rattle.std.specs.Prelude.{◌≡◌};
ghost use Rattle.binkp_args.specs.declared.fault.ArgFault.TheVariants.{NoMemory as OutOfMemory};

use ftn_addr::NoMemory;
use thiserror::Error;

/// Why an argument can't be read. Words are counted from 1.
#[derive(Clone, Copy, Debug, PartialEq, Eq, Error)]
pub enum ArgFault {
    /// There are fewer words.
    #[error("word {0} is missing")]
    MissingWord(u32),
    /// The word isn't digits alone, or its number is above 9,223,372,036,854,775,807.
    #[error("word {0} is no number")]
    BadNumber(u32),
    /// The name has more than 200 bytes.
    #[error("the name is too long")]
    LongName,
    /// The file has more than [`ftn_addr::MAX_SIZE`] bytes.
    #[error("the file is too large")]
    TooLarge,
    /// The offset is above the file's size.
    #[error("the offset is past the file's end")]
    PastEnd,
    /// No word of an M_ADR is an address.
    #[error("no address")]
    NoAddress,
    #[error("out of memory")]
    NoMemory,
}

impl From<NoMemory> for ArgFault {
    ghost from_gives = { λ _ fault. fault ≡ OutOfMemory };

    fn from(_error: NoMemory) -> ArgFault {
        ArgFault::NoMemory
    }
}

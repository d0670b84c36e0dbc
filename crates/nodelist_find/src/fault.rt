//! What is wrong with an index.
ghost use Rattle.std.specs.Prelude.{◌≡◌};
ghost use Rattle.nodelist_find.specs.declared.fault.IndexFault.TheVariants.{NoMemory as OutOfMemory};

use ftn_addr::NoMemory;
use std::alloc::AllocFailed;
use thiserror::Error;

/// Why bytes are no index.
#[derive(Clone, Copy, Debug, PartialEq, Eq, Error)]
pub enum IndexFault {
    /// The offset of the first byte that fits no index. It is the length where the bytes end too early.
    #[error("no index goes on so at {0}")]
    Bad(u64),
    #[error("out of memory")]
    NoMemory,
}

impl From<NoMemory> for IndexFault {
    ghost from_gives = { λ _ fault. fault ≡ OutOfMemory };

    fn from(_error: NoMemory) -> IndexFault {
        IndexFault::NoMemory
    }
}

impl<T: Drop> From<AllocFailed<T>> for IndexFault {
    ghost from_gives = { λ _ fault. fault ≡ OutOfMemory };

    fn from(_error: AllocFailed<T>) -> IndexFault {
        IndexFault::NoMemory
    }
}

//! Why a nodelist isn't compiled, or its index isn't read.
ghost use Rattle.std.specs.Prelude.{◌≡◌};

use crate::reading::ReadFault;
use ftn_addr::{Failed, NoMemory};
use nodelist_comp::ListTextFault;
use thiserror::Error;

/// Why a nodelist isn't compiled.
#[derive(Clone, Copy, Debug, PartialEq, Eq, Error)]
pub enum CompileFault {
    /// The disk failed. Its count of faults rose.
    #[error("the disk failed")]
    Disk,
    /// No file stands under the path, or it has more than 16,777,216 bytes. List and index are as before.
    #[error("no nodelist of at most 16777216 bytes")]
    NoFile,
    /// The first line that can't be taken. List and index are as before.
    #[error("{0}")]
    ListBad(ListTextFault),
    /// No memory. List and index are as before.
    #[error("out of memory")]
    NoMemory,
}

impl From<Failed> for CompileFault {
    ghost use Rattle.std.specs.Prelude.{◌≡◌};
    ghost use Rattle.nodelist_files.specs.declared.fault.CompileFault.TheVariants.{Disk};

    ghost from_gives = { λ _ fault. fault ≡ Disk };

    fn from(_error: Failed) -> CompileFault {
        CompileFault::Disk
    }
}

impl From<NoMemory> for CompileFault {
    ghost use Rattle.std.specs.Prelude.{◌≡◌};
    ghost use Rattle.nodelist_files.specs.declared.fault.CompileFault.TheVariants.{NoMemory as OutOfMemory};

    ghost from_gives = { λ _ fault. fault ≡ OutOfMemory };

    fn from(_error: NoMemory) -> CompileFault {
        CompileFault::NoMemory
    }
}

impl From<ReadFault> for CompileFault {
    ghost use Rattle.std.specs.Prelude.{◌≡◌};
    ghost use Rattle.nodelist_files.specs.Reading.{compile_fault};

    ghost from_gives = { λ error fault. fault ≡ compile_fault error };

    fn from(error: ReadFault) -> CompileFault {
        match error {
            ReadFault::Disk => CompileFault::Disk,
            ReadFault::NoMemory => CompileFault::NoMemory,
        }
    }
}

/// Why the index of the own folder isn't read.
#[derive(Clone, Copy, Debug, PartialEq, Eq, Error)]
pub enum IndexFileFault {
    /// The disk failed. Its count of faults rose.
    #[error("the disk failed")]
    Disk,
    /// The bytes of the file are no index.
    #[error("no index")]
    Bad,
    #[error("out of memory")]
    NoMemory,
}

impl From<Failed> for IndexFileFault {
    ghost use Rattle.std.specs.Prelude.{◌≡◌};
    ghost use Rattle.nodelist_files.specs.declared.fault.IndexFileFault.TheVariants.{Disk};

    ghost from_gives = { λ _ fault. fault ≡ Disk };

    fn from(_error: Failed) -> IndexFileFault {
        IndexFileFault::Disk
    }
}

impl From<ReadFault> for IndexFileFault {
    ghost use Rattle.std.specs.Prelude.{◌≡◌};
    ghost use Rattle.nodelist_files.specs.Reading.{index_fault};

    ghost from_gives = { λ error fault. fault ≡ index_fault error };

    fn from(error: ReadFault) -> IndexFileFault {
        match error {
            ReadFault::Disk => IndexFileFault::Disk,
            ReadFault::NoMemory => IndexFileFault::NoMemory,
        }
    }
}

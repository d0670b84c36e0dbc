//! Why a note isn't cleared.
use thiserror::Error;

/// Why a note isn't cleared.
#[derive(Clone, Copy, Debug, PartialEq, Eq, Error)]
pub enum ClearFault {
    /// The disk failed. Its count of faults rose.
    #[error("the disk failed")]
    Failed,
    /// No memory for the path that the note holds. Nothing changed.
    #[error("out of memory")]
    NoMemory,
}

//! The system's lock on the own folder.
use std::fs::{File, TryLockError};
use std::io;
use thiserror::Error;

/// Why the folder can't be had.
#[derive(Debug, Drop, Error)]
pub enum LockFault {
    #[error("another program works on the folder")]
    Held,
    #[error("the folder can't be locked: {0}")]
    Refused(io::Error),
}

/// Takes the system's lock on the folder of that path, which is held as long as the answer is. Where no folder stands there none is
/// held, and the first call on the folder says why.
///
/// # Errors
/// Another program holds the lock, or the system doesn't open the folder or gives no lock: then nobody knows who works on it.
pub fn lock(rt: &HostRuntime, path: &str) -> Result<Option<File>, LockFault> {
    let folder = match File::open(rt, path) {
        Ok(folder) => folder,
        Err(error) if is_no_folder(error.kind()) => return Ok(None),
        Err(error) => return Err(LockFault::Refused(error)),
    };
    match folder.try_lock() {
        Ok(()) => Ok(Some(folder)),
        Err(TryLockError::WouldBlock) => Err(LockFault::Held),
        Err(TryLockError::Error(error)) => Err(LockFault::Refused(error)),
    }
}

// Whether the error says that no folder stands there.
fn is_no_folder(kind: io::ErrorKind) -> bool {
    matches!(kind, io::ErrorKind::NotFound | io::ErrorKind::NotADirectory)
}

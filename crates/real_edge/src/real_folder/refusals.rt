//! What the system refuses for want of a right.
use crate::error::{Answer, SystemCall, SystemError, told};
use std::io;

/// The last call on a file of another program that the system refused, where nobody was to be stopped by that.
///
/// What may not be seen or opened stands for nobody, and what may not be changed is another's. Such a call is no failure of the
/// folder; its reason is kept, so that it can be told.
#[derive(Drop)]
pub struct Refusals {
    last: Option<SystemError>,
}

impl Refusals {
    pub fn new() -> Refusals {
        Refusals { last: None }
    }

    /// The reason of the last refusal since it was asked last.
    pub fn take(&mut self) -> Option<SystemError> {
        self.last.take()
    }

    /// What was found, or None where no file stands there or it may not be seen or opened.
    pub fn found<T>(&mut self, call: SystemCall, answer: io::Result<T>) -> Answer<Option<T>> {
        match answer {
            Err(error) if error.kind() == io::ErrorKind::PermissionDenied => {
                self.last = Some(SystemError { call, error });
                Ok(None)
            }
            answer => found(call, answer),
        }
    }

    /// The same of a call that changes a file: a system that is read only and a program that runs refuse it too.
    pub fn changed<T>(&mut self, call: SystemCall, answer: io::Result<T>) -> Answer<Option<T>> {
        match answer {
            Err(error) if is_kept(error.kind()) => {
                self.last = Some(SystemError { call, error });
                Ok(None)
            }
            answer => found(call, answer),
        }
    }
}

// Whether the error says that a file may not be changed.
fn is_kept(kind: io::ErrorKind) -> bool {
    matches!(
        kind,
        io::ErrorKind::PermissionDenied
            | io::ErrorKind::ReadOnlyFilesystem
            | io::ErrorKind::ExecutableFileBusy
    )
}

// Whether the error says that no file stands under a path: nothing does, what stands above is no folder,
// links lead in a circle, or no file can have a name in it.
fn is_no_file(kind: io::ErrorKind) -> bool {
    matches!(
        kind,
        io::ErrorKind::NotFound
            | io::ErrorKind::NotADirectory
            | io::ErrorKind::FilesystemLoop
            | io::ErrorKind::InvalidFilename
            | io::ErrorKind::InvalidInput
    )
}

/// What was found, or None where no file stands there.
pub fn found<T>(call: SystemCall, answer: io::Result<T>) -> Answer<Option<T>> {
    match answer {
        Ok(it) => Ok(Some(it)),
        Err(e) if is_no_file(e.kind()) => Ok(None),
        Err(e) => told(call, Err(e)),
    }
}

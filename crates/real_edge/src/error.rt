//! Calls of the system, and why one failed.
ghost use Rattle.std.specs.Prelude.{◌≡◌, Ok, Err, IfOk, IfErr};

use ftn_addr::NoMemory;
use std::alloc::{AllocError, AllocFailed};
use std::fmt::{Display, Formatter, Write};
use std::{fmt, io};

/// A call of the system.
#[derive(Clone, Copy, Debug)]
pub enum SystemCall {
    /// To spell a path, for which there may be no memory.
    Path,
    Open,
    Stat,
    Seek,
    Read,
    Write,
    Truncate,
    Sync,
    Rename,
    Link,
    Remove,
    MakeFolder,
    List,
    Random,
}

impl SystemCall {
    fn as_str(self) -> &'static str {
        match self {
            SystemCall::Path => "path",
            SystemCall::Open => "open",
            SystemCall::Stat => "stat",
            SystemCall::Seek => "lseek",
            SystemCall::Read => "read",
            SystemCall::Write => "write",
            SystemCall::Truncate => "ftruncate",
            SystemCall::Sync => "fsync",
            SystemCall::Rename => "rename",
            SystemCall::Link => "link",
            SystemCall::Remove => "unlink",
            SystemCall::MakeFolder => "mkdir",
            SystemCall::List => "readdir",
            SystemCall::Random => "getentropy",
        }
    }
}

/// A call of the system that failed, and the system's reason.
#[derive(Clone, Copy, Debug)]
pub struct SystemError {
    pub call: SystemCall,
    pub error: io::Error,
}

/// The call's name, `: ` and the system's reason.
impl Display for SystemError {
    fn fmt<W: Write>(&self, f: &mut Formatter<W>) -> fmt::Result {
        f.write_str(self.call.as_str())?;
        f.write_str(": ")?;
        self.error.fmt(f)
    }
}

/// What a call answered, or why it failed.
pub type Answer<T> = Result<T, SystemError>;

/// The same answer with the name of the call.
pub fn told<T>(call: SystemCall, answer: io::Result<T>) -> Answer<T>
    ensures ok { IfOk result (λ it. answer ≡ Ok it) }
    ensures err { IfErr result (λ e. (e.call ≡ call) × (answer ≡ Err e.error)) }
{
    match answer {
        Ok(it) => Ok(it),
        Err(error) => Err(SystemError { call, error }),
    }
}

/// A call that is refused before the system is asked.
pub fn refused(call: SystemCall, kind: io::ErrorKind) -> SystemError {
    SystemError {
        call,
        error: kind.into(),
    }
}

/// Why a folder could not be listed.
pub enum ListError {
    System(SystemError),
    NoMemory,
}

impl From<SystemError> for ListError {
    fn from(e: SystemError) -> ListError {
        match e.error.kind() {
            io::ErrorKind::OutOfMemory => ListError::NoMemory,
            _ => ListError::System(e),
        }
    }
}

impl From<NoMemory> for ListError {
    fn from(_: NoMemory) -> ListError {
        ListError::NoMemory
    }
}

impl From<AllocError> for ListError {
    fn from(_: AllocError) -> ListError {
        ListError::NoMemory
    }
}

impl<T: Drop> From<AllocFailed<T>> for ListError {
    fn from(_: AllocFailed<T>) -> ListError {
        ListError::NoMemory
    }
}

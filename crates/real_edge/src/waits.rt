//! Waiting for the two ways of a line.
use std::io;
use std::time::Duration;

/// What a wait found.
#[derive(Clone, Copy, Debug, PartialEq, Eq)]
pub struct Ready {
    /// Whether a read would find bytes, the end or a failure.
    pub input: bool,
    /// Whether a write would take bytes, or fail.
    pub output: bool,
}

/// Waits for the system, on behalf of a line.
pub trait Waits {
    /// Waits until the input is ready, at most so long. Whether it is.
    fn for_input(&mut self, most: Duration) -> io::Result<bool>;

    /// Waits until the output is ready, or, where that is heeded, the input; at most so long.
    fn for_output(&mut self, most: Duration, heeds_input: bool) -> io::Result<Ready>;

    /// Waits so long, whatever comes.
    fn pause(&mut self, time: Duration) -> io::Result<()>;
}

/// The input of a line, which may have read more than was asked of it.
pub trait ReadsAhead {
    /// Whether bytes are held that no read has given yet.
    fn holds_bytes(&self) -> bool;
}

/// The output of a line, which may be ended before it is dropped.
pub trait Ends {
    /// Tells the peer that no more comes. The waits are those of the line.
    fn end<W: Waits>(&mut self, waits: &mut W);
}

//! How a node that serves ends.

/// How many lines it is given at most.
pub const MOST_LINES: u32 = 65_536;

/// For how many seconds behind a take-in of its outbound none is due.
pub const PAUSE: u64 = 60;

/// Why it ended.
#[derive(Clone, Copy, Debug, PartialEq, Eq)]
pub enum ServeEnd {
    /// It was told to stop.
    Stop,
    /// Waiting for a caller failed.
    Lines,
    /// The disk failed, and that is its count of faults: the store must be opened again.
    Disk(u64),
    /// It was given [`MOST_LINES`] lines.
    Count,
}

/// What serving came to.
#[derive(Clone, Copy, Debug, PartialEq, Eq)]
pub struct Served {
    pub end: ServeEnd,
    /// Whether there was no memory for something that was passed over then: the line of a session or of a take-in, or a call.
    pub short: bool,
}

//! What a trial comes to.

/// What a trial comes to: what its files are, and what the two nodes hold behind the last round.
#[derive(Clone, Copy, Debug, PartialEq, Eq)]
pub struct Totals {
    pub files: u32,
    /// The sizes of all files together.
    pub bytes: u64,
    /// The rounds, with one session each.
    pub sessions: u32,
    /// The receipts of both nodes, up to the end of 32 bits.
    pub received: u32,
    /// Queued files of both nodes that wait to be sent, up to the end of 32 bits.
    pub live: u32,
}

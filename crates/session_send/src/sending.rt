//! The file that a session sends.
ghost use Rattle.std.specs.Prelude.{◌<◌, ◌≤◌, length};

use ftn_addr::FileKey;

/// The file under way to the peer: it was offered, and the peer hasn't answered for it yet.
#[derive(Debug, Drop)]
pub struct Sending {
    /// The number of its entry in the queue.
    pub number: u32,
    pub key: FileKey,
    /// How many bytes of it are behind the next data to be sent.
    pub place: u64,
    /// Whether a frame of no data is still to come behind its M_FILE.
    pub bare: bool,
    ghost some: { 0 < length key.name.list },
    ghost short: { length key.name.list ≤ 200 },
    ghost inside: { place ≤ key.size },
}

/// The sending half of a session.
#[derive(Debug, Drop)]
pub struct Sender {
    /// The most bytes of data in a frame.
    pub block: u16,
    pub sending: Option<Sending>,
    /// How many files the peer acknowledged, up to the end of 32 bits.
    pub sent: u32,
    /// How many files it left to a later session, up to the end of 32 bits.
    pub skipped: u32,
    ghost some: { 0 < block },
    ghost fits: { block ≤ 32767 },
}

/// What a sender's next step was.
#[derive(Clone, Copy, Debug, PartialEq, Eq)]
pub enum SendStep {
    /// A frame was written.
    Sent,
    /// The file under way is sent to its end, and the peer hasn't answered for it.
    Waiting,
    /// No file is under way, and none waits for the peer.
    Empty,
}

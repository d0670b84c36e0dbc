//! How a session ends.

use binkp_args::ArgFault;
use ftn_addr::Bytes;

/// What was wrong with a frame of the peer's.
#[derive(Clone, Copy, Debug, PartialEq, Eq)]
pub enum Cause {
    /// Its argument can't be read.
    Arg(ArgFault),
    /// It doesn't belong here.
    OutOfTurn,
    /// The called address isn't among the peer's.
    NotCalled,
    /// The same file was offered again from a place that isn't the one asked for.
    Late,
    /// More data than the file has.
    TooMuch,
}

/// How a session ended.
#[derive(Debug, PartialEq, Eq, Drop)]
pub enum End {
    /// Both sides said that they are done, and nothing was held.
    Finished,
    /// The peer said M_ERR with that text.
    PeerError(Bytes),
    /// The peer said M_BSY.
    PeerBusy,
    /// The caller's password isn't the right one: what was wanted, and what was given.
    BadPassword(Bytes, Bytes),
    /// The peer's frame with that number was refused. Frames that aren't empty are counted from 1.
    Broke(Cause, u64),
    /// The peer ended the line first.
    Dropped,
    LineFault,
    /// The node's store is broken with that count of faults.
    DiskFault(u64),
    LedgerFull,
    /// Sixty reads or writes on end found nothing to move.
    Quiet,
    /// The bytes taken and written reached the limit.
    Endless,
    /// As many sessions were open as the settings allow.
    TurnedAway,
    NoMemory,
}

/// What became of a frame.
#[derive(Debug, PartialEq, Eq, Drop)]
pub enum Took {
    More,
    Ended(End),
}

/// What became of an own turn.
#[derive(Debug, PartialEq, Eq, Drop)]
pub enum Gave {
    /// A frame was written.
    Sent,
    /// Nothing is to be said until the peer says something.
    Waits,
    Ended(End),
}

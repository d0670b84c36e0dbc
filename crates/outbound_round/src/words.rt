//! What is told of a round.
use ftn_addr::Bytes;

/// Why a round ended before its last address.
#[derive(Clone, Copy, Debug, PartialEq, Eq)]
pub enum RoundFault {
    /// The disk failed: the store must be opened again, and the next round goes on.
    Disk,
    /// No place in the ledger, or no number.
    Full,
    /// No memory.
    NoMemory,
}

/// Of which addresses a round has lines.
#[derive(Clone, Copy, Debug, PartialEq, Eq)]
pub enum Telling {
    /// Of each.
    All,
    /// Of those at which something was passed over: a missing source, a file that is too long, or all, by a mark of another program.
    PassedOver,
}

/// What a round came to.
#[derive(Drop)]
pub struct Round {
    /// What is told of the addresses, rising: `took ..` or `marked ..`.
    pub lines: Bytes,
    /// The name of the first mark of another program that was met.
    pub marked: Option<Bytes>,
    /// What ended it before its last address.
    pub fault: Option<RoundFault>,
}

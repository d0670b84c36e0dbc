//! How far a session has come.
use node_model::Role;
use session_recv::Receiver;
use session_send::Sender;

/// A session after login: its side, its two halves, and whether each M_EOB has passed.
#[derive(Debug, Drop)]
pub struct Talking {
    pub role: Role,
    pub sender: Sender,
    pub receiver: Receiver,
    pub own_end: bool,
    pub peer_end: bool,
}

/// How far a session has come.
#[derive(Debug, Drop)]
pub enum Stage {
    /// It has its login before it.
    LogsIn,
    Talks(Talking),
}

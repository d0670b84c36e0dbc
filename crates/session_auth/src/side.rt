//! The two sides of a session.

use ftn_addr::Addr;

/// Which side of its line a session is.
#[derive(Debug, Drop)]
pub enum Side {
    /// The peer called.
    Answers,
    /// This side called the node of that address.
    Calls(Addr),
}

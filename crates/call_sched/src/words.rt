//! What waits, what was tried, and whom to call.
use ftn_addr::Addr;
use node_model::Flavour;

/// For how many seconds behind a call its address isn't called again.
pub const PAUSE: u64 = 300;

/// A file that waits for an address.
#[derive(Debug, PartialEq, Eq, Drop)]
pub struct Wanted {
    pub addr: Addr,
    pub flavour: Flavour,
    /// Whether a host is known for its address.
    pub callable: bool,
}

/// A call that was made.
#[derive(Debug, PartialEq, Eq, Drop)]
pub struct Try {
    pub addr: Addr,
    /// Its moment, in seconds since the start of 1970.
    pub at: u64,
}

/// Whose turn it is.
#[derive(Clone, Copy, Debug, PartialEq, Eq)]
pub enum Next {
    /// That of the address which the wanted item at this place waits for.
    Call(usize),
    /// Nobody's before this moment, in seconds since the start of 1970.
    WaitUntil(u64),
    /// Nobody's: nothing waits that may be called for.
    Nothing,
}

//! The file that a session holds.
ghost use Rattle.std.specs.Prelude.{◌<◌, ◌≤◌, length};

use ftn_addr::FileKey;

/// A file that is being received, and how many bytes of it are still to come.
#[derive(Debug, Drop)]
pub struct Held {
    pub key: FileKey,
    pub left: u64,
    ghost some: { 0 < length key.name.list },
    ghost short: { length key.name.list ≤ 200 },
}

/// The file that the session holds, as its desk does.
#[derive(Debug, Drop)]
pub enum Holding {
    Idle,
    /// It was asked for from another place, and what comes before it is offered again is dropped.
    Dropping(Held),
    Taking(Held),
}

/// The receiving half of a session: the file that it holds, and how many receipts were made in it, up to the end of 32
/// bits.
#[derive(Debug, Drop)]
pub struct Receiver {
    pub holding: Holding,
    pub received: u32,
}

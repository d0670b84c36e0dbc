//! What the records so far leave, item by item.
use ftn_addr::{Addr, Bytes, FileKey};

/// A queued file. What was queued stays, also once it is done.
#[derive(Debug, Drop)]
pub struct QueueItem {
    pub number: u32,
    /// For whom it is.
    pub dest: Addr,
    pub key: FileKey,
    /// From 0 to 4, as in [`NewFileRec`](crate::NewFileRec).
    pub flavour: u8,
    /// The outside file that it came from; none where it came from no file.
    pub source: Bytes,
    /// From 0 to 2, as in [`NewFileRec`](crate::NewFileRec).
    pub action: u8,
    /// Whether the action is done.
    pub acted: bool,
    /// Whether it waits to be sent.
    pub live: bool,
}

/// A received file.
#[derive(Debug, Drop)]
pub struct InboxItem {
    pub receipt: u32,
    /// The sender's first address.
    pub from: Addr,
    pub key: FileKey,
    /// Whether it came in a secure session.
    pub secure: bool,
    /// Whether it is a request that was answered.
    pub answered: bool,
}

/// A refused file.
#[derive(Debug, Drop)]
pub struct RefusedItem {
    /// The sender's first address.
    pub from: Addr,
    pub key: FileKey,
}

/// The front of a file that came in part.
#[derive(Debug, Drop)]
pub struct MarkItem {
    pub part: u32,
    /// The sender's first address.
    pub from: Addr,
    pub key: FileKey,
    /// How many bytes are kept.
    pub len: u64,
}

/// A sender and a key that are held.
#[derive(Debug, Drop)]
pub(crate) struct Held {
    pub from: Addr,
    pub key: FileKey,
}

//! The lists that records leave.
use crate::index::Index;
use crate::items::{InboxItem, MarkItem, QueueItem, RefusedItem};

/// The lists of a fold.
#[derive(Debug, Drop)]
pub(crate) struct Lists {
    pub queue: Vec<QueueItem>,
    pub inbox: Vec<InboxItem>,
    pub refused: Vec<RefusedItem>,
    /// Rising by part.
    pub marks: Vec<MarkItem>,
    /// The numbers of all parts and receipts so far.
    pub parts: Vec<u32>,
    /// The takes that are recorded.
    pub takes: Vec<u32>,
    pub index: Index,
}

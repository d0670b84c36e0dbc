//! The ordered indices beside the lists.
ghost use Rattle.std.specs.Prelude.{◌≡◌, ◌≤◌, length, map};
ghost use Rattle.std.specs.List.{list_all};
ghost use Rattle.ftn_addr.specs.Address.{address};
ghost use Rattle.ftn_addr.specs.Key.{key_of};

use file_index::{FileIndex, NumberIndex};
use std::alloc::Global;

/// What stands in the lists, so that a look-up walks none.
#[derive(Debug, Drop)]
pub(crate) struct Index {
    /// The files received.
    pub received: FileIndex,
    /// The files refused.
    pub refused: FileIndex,
    /// The files queued.
    pub queued: FileIndex,
    /// The numbers of the queue.
    pub numbers: NumberIndex,
    /// The receipts of the inbox.
    pub receipts: NumberIndex,
    pub parts: NumberIndex,
    pub takes: NumberIndex,
    /// The last number of the queue, which is its greatest; 0 where the queue is empty.
    pub greatest: u32,
}

impl Index {
    ghost use Rattle.ledger_rec.specs.Fold.{nothing_folded};
    ghost use Rattle.ledger_rec.specs.Indexed.{Agrees};

    /// The index of empty lists, which takes no memory.
    pub(crate) fn new(alloc: Global) -> Index
        ensures { Agrees result nothing_folded }
    {
        Index {
            received: FileIndex::new(alloc),
            refused: FileIndex::new(alloc),
            queued: FileIndex::new(alloc),
            numbers: NumberIndex::new(alloc),
            receipts: NumberIndex::new(alloc),
            parts: NumberIndex::new(alloc),
            takes: NumberIndex::new(alloc),
            greatest: 0,
        }
    }
}

//! A disk in memory.
ghost use Rattle.std.specs.Prelude.{◌≡◌};
ghost use Rattle.mem_disk.specs.Holding.{calls_in, calm, replay};
ghost use Rattle.mem_disk.specs.Picks.{counts_along};

use crate::call::Call;
use crate::holdings::Holdings;
use std::alloc::Global;

/// A disk and a yard in memory: the files now, those at the start, and every call since.
#[derive(Drop)]
pub struct MemDisk {
    pub(crate) alloc: Global,
    pub(crate) first: Holdings,
    pub(crate) held: Holdings,
    pub(crate) log: Vec<Call>,
    // Behind each item of the log: how many own files had unsynced changes.
    pub(crate) changed: Vec<usize>,
    pub(crate) calls: u64,
    pub(crate) failing: Vec<u64>,
    pub(crate) faults: u64,
    ghost replayed: { held ≡ replay first log.items },
    ghost synced: { first ≡ calm first },
    ghost counted: { calls ≡ calls_in log.items },
    ghost changes: { changed.items ≡ counts_along first log.items },
}

//! A node's own folder on a disk in memory, and what is done with it there, for tests: files are put into it and beside it, a
//! queue is filled, outside files are taken, marked and acted on, an outbound is taken in, calls fail, and the disk is stopped
//! behind each of them. Then it is read back.
//!
//! [`Resting`] is a disk at rest, over which a store may be opened; what is done gives a [`MemDisk`](mem_disk::MemDisk), of which
//! [`reopened`] and [`stopped`] make one at rest again. The node is 2:5020/1042@fidonet, and its peer 2:5047/13@fidonet.
//!
//! ```
//! let (taken, disk) = take_once(alloc, with_outside(alloc, Resting::new(alloc), path, bytes)?, path)?;
//! for pick in 0..picks_at(&disk, 3) { .. stopped(disk, 3, pick)? .. }
//! ```
//!
//! Left out: sessions and commands (`mem_mailer`).
#![tactic(auto)]

mod behind;
mod files;
mod finishing;
mod gifts;
mod marks;
mod queues;
mod resting;
mod store;
mod takes;
mod taking;

pub use behind::{Behind, left_behind};
pub use files::{
    disk_with, files_of, is_file, names_in, outside_file, own_file, settled, size_at, with_outside,
    with_own, with_settings, with_timed,
};
pub use finishing::{finish_once, staged};
pub use gifts::{act_once, with_source};
pub use marks::{mark_and_unmark, mark_once};
pub use queues::with_queued;
pub use resting::{Resting, picks_at, reopened, stopped};
pub use takes::{Took, found, listed, read_once, seen, take_once};
pub use taking::{Intake, queue_of, take_in_once};

//! A disk and a yard in memory, for tests and for theorems about programs over a disk.
//!
//! [`MemDisk`] keeps its files, the outside files and the gifts, and every call. It lets those calls fail
//! that a test names, and gives the images of a stop behind any of its calls: its contracts say that what
//! it gives is one of the images of the stated disk. It tells its content always.
//!
//! `specs/Holding.antt` has what is kept and how each call changes it, `specs/MemoryDisk.antt` what a stop
//! may leave and which calls fail, and `specs/Picks.antt` which image a number picks.
//!
//! ```text
//! let mut disk = MemDisk::new(alloc);
//! disk.fail_at(3)?;
//! let answer = store(&mut disk);
//! let after = disk.calls();
//! for pick in 0..disk.picks(after) { .. disk.stop(after, pick) .. }
//! ```
//!
//! Left out: a real folder (`real_edge`).
#![tactic(auto)]

mod block;
mod call;
mod disk;
mod file;
mod holdings;
mod noting;
mod outside;
mod outside_files;
mod own_calls;
mod own_files;
mod stop;
mod yard_calls;

pub use disk::MemDisk;

//! The stated disk: what a read gives, and what a stop at any moment may have left, also inside a call.
//!
//! [`Disk`] is the mailer's own folder of files, each under a [`Name`]. [`Yard`] adds the folders that
//! are shared with other programs. Their contracts speak of a *world*: the own files, the outside files
//! and the gifts. `files` is the world as a read gives it, `images` are the worlds that a stop at a
//! moment may have left, and each call says in one line how it leads from the old ones to the new. A
//! caller goes from call to call by the lemmas of `proofs/MomentLemmas.antt`. What the model says, and
//! what it allows beyond that, is told in `docs/disk.md`.
//!
//! [`write_twice`] shows on a few lines what a caller gets from these contracts:
//!
//! ```text
//! let name = Name::new(b"parts.1").ok_or(Failed)?;
//! disk.create(&name)?;
//! write_twice(&mut disk, &name, Piece { at: 0, bytes: b"ab" }, Piece { at: 0, bytes: b"c" })?;
//! ```
//!
//! Left out: the disk in memory (`mem_disk`), and a real folder (`real_edge`).
#![tactic(auto)]

mod answers;
mod disk;
mod example;
mod name;
mod yard;

pub use answers::{Copied, Giving, Hit, ListFault, Made, Marking, Moved, OutStat};
pub use disk::Disk;
pub use example::{Piece, write_twice};
pub use name::Name;
pub use yard::Yard;

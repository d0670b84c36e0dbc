//! A runtime in front of the system's files, for tests: it notes each call of the system, or its syncs alone.
//!
//! No contract says what a file system does, so tests stand in front of it. [`Watched`] is such a runtime over another one,
//! and [`Seen`] has what it saw, lets one call fail, and lets another program come before one.
//!
//! ```
//! let seen = Seen::new();
//! let mut folder = RealFolder::new(Watched { rt, seen: &seen }, "own")?;
//! folder.sync(&name)?;
//! seen.take();                                 // `lstat own/a,open own/a,fstat own/a,sync own/a,open own,sync own,`
//! ```
//!
//! Left out: what a runtime has beside files, as the clock and the standard streams.
#![tactic(auto)]

mod journal;
mod watched;

pub use journal::Journal;
pub use watched::{Race, Seen, Watched};

//! The program's calls and commands over a node's own folder in memory, for tests: a session with a peer whose bytes are given, a
//! command without a session, and how the program ends. [`Ran`] is what came of one, and has the disk.
//!
//! ```
//! let ran = call_by(alloc, settled(alloc, text)?, &[b"answer"], said)?;
//! let again = call_by(alloc, reopened(disk_of(ran))?, &[b"answer"], said)?;
//! ```
//!
//! Left out: what is put on the disk before and read from it then (`mem_node`).
#![tactic(auto)]

mod lines;
mod ran;
mod running;
mod script;
mod serving;

pub use ran::{Ran, disk_of};
pub use running::{call_by, call_over, call_slowly, end_of, run};
pub use script::{Found, Takes};
pub use serving::{Calls, serve_by};

//! A trial of two nodes, in memory and in one thread: whether all that they send one another arrives, though lines are cut and
//! nodes are stopped.
//!
//! [`Trial::run`] draws files by a [`Generator`], queues each at one of two nodes for the other, and lets them hold one session a
//! round until nothing waits, in 64 rounds at most. The nodes are the mailer's own: a store over a disk in memory, a hub with one
//! seat, and sessions turn by turn over a line in memory. Up to the 32nd round each session is cut behind a drawn number of bytes,
//! and in every fourth of these the answering node is stopped behind a drawn number of its disk calls and opened again. [`Totals`]
//! says what the nodes hold then.
//!
//! ```
//! let totals = Trial::run(alloc, 100, 1)?;
//! let all_came = totals.received == totals.files && totals.live == 0;
//! ```
//!
//! That all files arrive isn't promised: this is what a trial tries. Its files and their bytes, and that it ends, are.
//!
//! Left out: threads, settings, real disks and lines, and how totals are printed.
#![tactic(auto)]

mod disturbance;
mod file;
mod filling;
mod generator;
mod node;
mod party;
mod round;
mod told;
mod totals;
mod trial;
mod who;

pub use disturbance::{Disturbance, Stop};
pub use file::{Sender, TrialFile};
pub use generator::Generator;
pub use totals::Totals;
pub use trial::Trial;

//! The sending half of a session of binkp (FTS-1026): a queued file after another, each until the peer answers for it.
//!
//! [`Sender::next`] makes the next step: it offers a file, sends a frame of the data of the one under way, or waits for
//! the peer's answer; [`SendStep`] says which. [`Sender::take`] takes the peer's commands, of which M_GOT, M_SKIP and
//! M_GET of the file under way are such answers. Both ask the node through a [`Desk`](node_model::Desk), and put what is
//! to be said behind the bytes to be written.
//!
//! ```
//! let mut sender = Sender::new(4_096);
//! loop {
//!     match sender.next(alloc, &mut desk, &mut output)? {
//!         SendStep::Sent => {}
//!         SendStep::Waiting => break, // for the peer
//!         SendStep::Empty => break,   // nothing more is queued
//!     }
//! }
//! sender.take(alloc, &command, &mut desk, &mut output)?;
//! ```
//!
//! Behind an M_FILE behind which no data is due, of a size of 0 or from the file's end, goes one frame of no data: other
//! mailers take a file whole only with a data frame.
//!
//! Left out: the login, the receiving half, the end of the batch, and the texts of errors.
#![tactic(auto)]

mod offering;
mod saying;
mod sections;
mod sender;
mod sending;

pub use sending::{SendStep, Sender, Sending};

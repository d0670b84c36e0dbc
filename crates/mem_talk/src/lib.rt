//! Two sessions that talk to one another: two nodes, each a hub over a store in memory, at the two ends of a line in
//! memory.
//!
//! [`Node`] is a node that no session uses: its settings, and what it keeps. A [`Half`] is one end of a line with the
//! session that a node holds over it, and [`talk`] lets two of these make their turns, one after the other, and carries
//! what each wrote to the other. A [`Peer`] says to a session the [`Word`]s that a test tells it to say. A [`Post`] is a
//! node that holds two sessions at a time, and [`cross`] lets two nodes hold two sessions with one another, each over a
//! line of its own; at [`cross_and_cut`] one of them is cut. A [`Pair`] of nodes does whole calls, and answers what came
//! of them. [`talk_slowly`] is a session of one node over a line that takes one byte of each write, or nothing, and tells how
//! much was left to write.
//!
//! ```
//! let mut pair = Pair::new(Node::new(alloc, 1)?, Node::new(alloc, 2)?);
//! pair.queue_near(alloc, 2, &[Offered(1, 4097)])?;
//! pair.call(alloc, u64::MAX)?;
//! let report = pair.called();                  // one file sent, at the near node
//! ```
//!
//! Their fields are closed, so that a test that holds one pays nothing for these.
#![tactic(auto)]

mod came;
mod crossed;
mod crossing;
mod half;
mod kept;
mod leg;
mod node;
mod offered;
mod pair;
mod peer;
mod slow;
mod talking;
mod told;
mod who;
mod word;

pub use came::Came;
pub use crossed::{cross, cross_and_cut};
pub use crossing::Post;
pub use half::Half;
pub use kept::{has_each, kept_of, live};
pub use leg::Plan;
pub use node::Node;
pub use offered::{Offered, address, side_of};
pub use pair::{Cut, Pair};
pub use peer::Peer;
pub use slow::{Slow, Takes, talk_slowly};
pub use talking::talk;
pub use word::{Word, bytes_of};

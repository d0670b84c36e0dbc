//! Nodelists (FTS-5000): the nodes of a text, and the bytes of an index of them.
//!
//! [`compile`] gives a [`Listed`] for each line that stands for a node, in the order of the lines, or the
//! first line that stands for none with its cause. Where a node has the flag `IBN` (FTS-5001), it gives
//! the host and the port at which it answers binkp. [`index_bytes`] writes the nodes in the order of
//! their addresses, for a fast look-up.
//!
//! ```
//! let nodes = compile(alloc, b"Zone,2,Europe,Town,One,-Unpublished-,300,IBN:z.example\n")?;
//! let index = index_bytes(alloc, nodes.as_slice())?;
//! ```
//!
//! Left out: reading the index, and looking an address up (`nodelist_find`).
#![tactic(auto)]

mod comma;
mod fault;
mod fields;
mod flags;
mod index;
mod listing;
mod node;

pub use fault::{ListCause, ListTextFault};
pub use index::index_bytes;
pub use listing::compile;
pub use node::{Listed, NodeKind};

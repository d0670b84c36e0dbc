//! Look-up in a nodelist by its index.
//!
//! [`Index::open`] reads the bytes that `nodelist_comp` writes. [`Index::find`] finds an address by halves
//! and [`Index::node`] gives its node. [`Index::route`] says how a node is reached: by its own host, by
//! the host of its net, or not at all.
//!
//! ```
//! let index = Index::open(alloc, bytes)?;
//! match index.route(&addr) {
//!     Route::Direct(i) | Route::ViaHost(i) => call(&index.node(i).host),
//!     Route::Down | Route::Unknown => wait(),
//! }
//! ```
//!
//! Left out: reading the file, and the settings of a node, which go before the nodelist.
#![tactic(auto)]

mod cursor;
mod fault;
mod index;
mod laws;
mod nodes;
mod search;

pub use fault::IndexFault;
pub use index::{Index, Route};
pub use laws::{finds_what_the_list_has, reads_what_is_written, what_is_read_is_an_index};

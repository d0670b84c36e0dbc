//! The nodelist of the own folder: a text is compiled into it, and its index is read.
//!
//! [`compile_list`] copies a nodelist's text from outside to `nodelist.txt`, and writes the index of its nodes to `nodelist.idx`.
//! At every moment a stop leaves the old list with the old index, or the new list with the old or the new one, each whole; the
//! next call mends it. A text that is refused changes neither. [`read_index`] gives the index, and [`direct_node`] the node whose
//! own host is to be called.
//!
//! ```
//! let nodes = compile_list(alloc, &mut disk, &path)?;
//! if let Some(index) = read_index(alloc, &mut disk)? {
//!     let node = direct_node(&index, &addr);
//! }
//! ```
//!
//! Left out: the words of the program and what it prints.
#![tactic(auto)]

mod compiling;
mod fault;
mod index_file;
mod law;
mod list_files;
mod reading;
mod replacing;
mod staging;

pub use compiling::compile_list;
pub use fault::{CompileFault, IndexFileFault};
pub use index_file::{direct_node, read_index};
pub use law::what_is_compiled_is_read;

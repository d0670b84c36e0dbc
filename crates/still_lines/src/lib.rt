//! The lines that the commands without a session print.
//!
//! [`lookup_line`] says how the node of an address is reached by a nodelist's index, and [`nodes_line`] how many nodes a list has.
//!
//! ```
//! match lookup_line(alloc, &index, &addr)? {
//!     Some(line) => out.put(line.as_slice()),  // 2:5020/1042@fidonet direct n.example:24555
//!     None => not_listed(),
//! }
//! ```
//!
//! Left out: the line of a status, which is every command's.
#![tactic(auto)]

mod lists;

pub use lists::{lookup_line, nodes_line};

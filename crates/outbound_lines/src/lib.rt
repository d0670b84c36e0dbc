//! The lines that `list` and `take` print.
//!
//! [`list_lines`] tells what a ledger leaves: the files that wait to be sent, those that came in part, and how many there are.
//! [`took_line`] tells what became of an outbound that was taken in, and [`marked_line`] that another program holds it.
//!
//! ```
//! let lines = list_lines(alloc, store.state())?;
//! // 7 2:5020/1042@fidonet normal 5 1000000000 a.txt
//! // part 3 2:5047/13@fidonet 16777216 50000000 b.zip
//! // live 1 parts 1 received 0 refused 0
//! ```
//!
//! Left out: the line of a status, which is every command's.
#![tactic(auto)]

mod counts;
mod listing;
mod taking;

pub use listing::list_lines;
pub use taking::{TookCounts, marked_line, took_line};

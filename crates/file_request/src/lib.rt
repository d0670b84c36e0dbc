//! File requests (own): a text whose lines name files, and which files of the node's shares it
//! gets.
//!
//! A [`Share`] is a folder with the names of the files in it that may be requested. [`answer_request`]
//! gives the paths of the files that a text asks for, and how many of its lines got none.
//!
//! ```
//! let answer = answer_request(alloc, b"readme.txt\r\nno.such\r\n", shares.as_slice())?;
//! // answer.files are the paths of the files, answer.passed counts the lines that got none
//! ```
//!
//! Left out: listing the folders, and sending the files.
#![tactic(auto)]

mod answer;
mod files;
mod share;

pub use answer::{Answer, answer_request};
pub use share::Share;

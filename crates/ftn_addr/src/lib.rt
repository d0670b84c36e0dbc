//! The base of every crate: FidoNet addresses, the keys of files, the list of bytes that they are made of,
//! and the lines and words of a text.
//!
//! An address is read by [`read_addr`] and written by [`write_addr`] (FTS-5005, FTS-5000); [`is_domain`]
//! says what a domain is. [`Bytes`] is the list of bytes that every other crate stores and hands on;
//! contracts see it as a list with a spare. [`NoMemory`] and [`Failed`] are the two refusals that have no
//! cause inside the program. Every limit has a name: [`MAX_SIZE`] and its kin.
//!
//! [`first_line`] takes the lines off a text one by one; they end by LF or CR LF. In a line spaces and
//! tabs are blanks: [`words`] is what stands between them, [`trimmed`] the line without those at its
//! ends, and [`first_word`] the first word and the rest. [`is_same_word`] compares words with the case of
//! letters ignored.
//!
//! ```
//! let home = read_addr(alloc, b"2:5020/1042@fidonet", &own)?;
//! let addr = read_addr(alloc, b"5047/13.7", &home)?;
//! let mut text = Bytes::new(alloc);
//! write_addr(alloc, &addr, &mut text)?; // 2:5047/13.7@fidonet
//! ```
//!
//! The definitions in `specs/` that several crates share stand here too: what a function returns that
//! reads in steps (`Outcomes`), how counts rise (`Counts`) and moments follow one another (`Moments`), how
//! a binkp frame is spelled (`Frames`), and what addresses and keys may be (`Limits`).
//!
//! Left out: frames as values (`binkp_frame`), the arguments of commands (`binkp_args`), and what the
//! lines of a text mean, which is for the crates above.
#![tactic(auto)]

mod addr;
mod blanks;
mod byte_list;
mod case;
mod digits;
mod domain;
mod limits;
mod line;
mod part;
mod reading;
mod refusals;
mod same;
mod source_file;
mod word;
mod writing;

pub use addr::{Addr, FileKey};
pub use blanks::trimmed;
pub use byte_list::Bytes;
pub use case::is_same_word;
pub use digits::read_digits;
pub use domain::is_domain;
pub use limits::{MAX_ADDRESS_NUMBER, MAX_DOMAIN, MAX_FRAME_DATA, MAX_NAME, MAX_NUMBER, MAX_SIZE};
pub use line::first_line;
pub use reading::{AddrFault, read_addr};
pub use refusals::{Failed, NoMemory};
pub use same::{is_same_address, is_same_key};
pub use source_file::Action;
pub use word::{first_word, words};
pub use writing::{reads_what_is_written, write_addr};

//! The arguments of binkp's commands (FTS-1026), read and written.
//!
//! [`read_command`] makes a [`Command`] of a command frame's number and argument, or tells by an
//! [`ArgFault`] what is wrong with the leftmost bad word. [`write_command`] writes a command as one whole
//! frame. A file's name is one word, whose other bytes are escaped by [`escape`] and read by [`unescape`].
//!
//! ```
//! // of the command frame 80 13 03 "a.txt 5 1000000000 0"
//! let command = read_command(alloc, 3, b"a.txt 5 1000000000 0", &home)?;
//! let mut frame = Bytes::new(alloc);
//! write_command(alloc, &command, &mut frame)?;
//! ```
//!
//! `specs/Command.antt` says what a number and an argument mean, `specs/Writing.antt` how a command is
//! written. Three laws about them are functions with empty bodies: [`reads_what_is_written`],
//! [`reads_what_is_escaped`] and [`fits_a_frame`]. `specs/Limits.antt` has the limits of what is read.
//!
//! Left out: what a session does at a command, and what an M_NUL's or an M_PWD's text says.
#![tactic(auto)]

mod addresses;
mod command;
mod fault;
mod file;
mod names;
mod reading;
mod words;
mod writing;

pub use command::Command;
pub use fault::ArgFault;
pub use names::{escape, reads_what_is_escaped, unescape};
pub use reading::read_command;
pub use writing::{fits_a_frame, reads_what_is_written, write_command};

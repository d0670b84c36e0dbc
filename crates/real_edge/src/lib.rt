//! The adapters of the real outside: a folder of the file system, lines and the streams, the clock and random bytes.
//!
//! [`RealFolder`] is a [`Disk`](disk_model::Disk) and a [`Yard`](disk_model::Yard) over the files of the
//! runtime that it is given. It doesn't tell its content: no contract says what the operating system keeps
//! in its files. What is proved of it is that its calls are safe and end, and that an answer Failed comes
//! only where its count of failed calls rose. What else a caller relies on is told in `docs/disk.md`, and
//! has to be read in these few lines:
//!
//! - `real_folder/own.rt` has the calls on the own folder, `real_folder/outside.rt` those on outside
//!   folders, each as one function that answers what the system answered;
//! - `real_folder/placed.rt` has an open file with the place at which its handle stands, so that no call goes there twice;
//! - `real_folder/paths.rt` spells their paths, and `real_folder/system.rt` has the few calls of the
//!   system that need more than a line;
//! - `real_folder/calls.rt` counts the answers.
//!
//! ```text
//! let mut folder = RealFolder::new(rt, "binkp")?;
//! folder.create(&name)?;
//! folder.write_at(&name, 0, b"hello")?;
//! folder.sync(&name)?;                         // a stop leaves `hello` from now on
//! if let Some(error) = folder.last_error() { .. }
//! ```
//!
//! [`WaitingLine`] is a line over a reader and a writer that never wait by themselves, and over what waits for them, which is
//! [`Waits`]; [`StdSink`] is the sink over a writer, as standard error is. They tell no bytes, and where reader and writer tell theirs
//! the contracts say which of them went through. [`standard_line`] is the line over the standard streams. [`SystemLines`] gives that
//! one, where it has it, the lines of callers in its place once it listens, and those of dials. What a socket or a pipe does and how
//! long a wait lasts no contract says.
//!
//! ```text
//! let standard = standard_line(&rt, rt.stdin(), rt.stdout())?;
//! let mut lines = SystemLines::new(rt, Some(standard), stop_file, Duration::from_secs(5));
//! match lines.next() {                         // a caller, once it listens: it waits for one
//!     NextLine::Came(line) => talk(line),
//!     NextLine::Nothing => {}
//!     NextLine::Stop | NextLine::Failed => done(),
//! }
//! ```
//!
//! [`SystemClock`] and [`SystemDice`] are the clock and the dice of the system. The dice are made once, from bytes that the system
//! gives, and refused where it gives none; no draw after that fails.
//!
//! ```text
//! let moment = SystemClock::new(&rt).seconds();
//! let challenge = SystemDice::new(&rt)?.sixteen();
//! ```
//!
//! Left out: who listens and dials, and when.
#![tactic(auto)]

mod dialling;
mod error;
mod line_streams;
mod poller;
mod ready_streams;
mod real_folder;
mod std_sink;
mod system_clock;
mod system_dice;
mod system_lines;
mod waiting_line;
mod waits;

pub use error::{SystemCall, SystemError};
pub use line_streams::{LineInput, LineOutput, SystemLine, standard_line};
pub use poller::Poller;
pub use ready_streams::{ReadyReader, ReadyWriter};
pub use real_folder::RealFolder;
pub use std_sink::StdSink;
pub use system_clock::SystemClock;
pub use system_dice::SystemDice;
pub use system_lines::SystemLines;
pub use waiting_line::WaitingLine;
pub use waits::{Ends, ReadsAhead, Ready, Waits};

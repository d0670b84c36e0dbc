//! What a session talks over, and where the program gets it: lines to peers, a sink for text, a clock, random bytes.
//!
//! [`Line`] and [`Sink`] are the traits of a session. A line says by counts what it answered, and, where it tells them,
//! which bytes it took and gave. [`Lines`] gives the lines of many sessions: callers, and hosts that are dialled.
//! [`Clock`] and [`Dice`] give moments and random bytes.
//!
//! In memory, for tests: [`MemLine`] plays scripts of [`ReadAct`] and [`WriteAct`]; [`MemPipe`] is one end of a line, and
//! [`MemPipe::carry`] takes what it wrote to the other end; [`MemLines`] plays a script of [`NextAct`] and keeps the lines
//! that are handed back; [`MemClock`] and [`MemDice`] give the items of a list; [`MemSink`] keeps what was put. A
//! [`Tally`] has the counts of a line. Over the system: the line and the sink of `real_edge`.
//!
//! ```
//! let mut line = MemLine::new(alloc, reads, Vec::new(alloc));
//! match line.read(&mut piece, true) {          // it waits
//!     ReadAnswer::Came(n) => take(&piece[..n]),
//!     ReadAnswer::End => done(),
//!     ReadAnswer::NotYet | ReadAnswer::Quiet | ReadAnswer::Failed => {}
//! }
//! line.write(b"\x80\x01\x05");                 // M_EOB
//! ```
//!
//! Left out: frames and commands, and what a session says.
#![tactic(auto)]

mod acts;
mod callers;
mod counting;
mod line_source;
mod link;
mod mem_line;
mod mem_line_source;
mod mem_pipe;
mod mem_sink;
mod mem_sources;
mod read_script;
mod sources;
mod stream;
mod write_script;

pub use acts::{ReadAct, WriteAct};
pub use callers::NextAct;
pub use counting::Tally;
pub use line_source::{Dialled, LineCounts, Lines, NextLine};
pub use link::{Line, ReadAnswer, Sink, WriteAnswer};
pub use mem_line::MemLine;
pub use mem_line_source::MemLines;
pub use mem_pipe::MemPipe;
pub use mem_sink::MemSink;
pub use mem_sources::{MemClock, MemDice};
pub use sources::{Clock, Dice};

//! A desk in memory: it has at most one file to offer, answers as it is told, and can be told to refuse.
//!
//! [`ScriptedDesk`] is a desk for tests of the session alone. What becomes of the peer's next file is set by
//! [`ScriptedDesk::set_answer`], and what becomes of the calls that can be refused by [`ScriptedDesk::set_next`]; what was done
//! is told by plain numbers.
//!
//! ```
//! let mut desk = ScriptedDesk::in_session(Filling::Places);
//! desk.queue(key);                              // offered as entry 7
//! desk.set_answer(FileIn::From(3));             // the peer's next file goes on from there
//! ```
//!
//! Left out: a store. Nothing that comes is kept; its bytes are counted.
#![tactic(auto)]

mod coming;
mod scripted_desk;

pub use scripted_desk::{Filling, Next, ScriptedDesk, byte_at};

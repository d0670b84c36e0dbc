//! One session over a line, from the opening to the close.
//!
//! [`run_session`] is the whole session, at the side that answers or the one that calls: it greets, reads pieces, takes
//! their frames, makes own turns and writes, until the session's end or the line's. [`Course`] is the same turn by turn,
//! for whoever holds several sessions at a time. A [`Report`] says what came of it. What a session holds is bounded, whatever its
//! peer does: with [`MOST_TO_TURN`] bytes left to write it says no more of its own, with [`MOST_TO_READ`] it reads no more, and
//! [`MOST_LEFT`] are never left.
//!
//! ```
//! let mut desk = HubDesk { hub, seat };         // of `hub_core`
//! let report = run_session(alloc, Side::Calls(peer), &mut line, &mut desk, &conf, challenge, now);
//! let end = report.end;                        // `End::Finished`, or why not
//! ```
//!
//! Left out: the words of the program and its statuses.
#![tactic(auto)]

mod leaving;
mod opening;
mod report;
mod run;
mod turns;
mod unsent;

pub use leaving::leaving_marks_what_came;
pub use report::Report;
pub use run::Run;
pub use turns::{Course, Going, Turn, run_session};
pub use unsent::{MOST_LEFT, MOST_TO_READ, MOST_TO_TURN, Unsent};

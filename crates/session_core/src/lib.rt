//! One session of binkp (FTS-1026), frame by frame, at either side of the line.
//!
//! [`Session::take`] takes a frame of the peer's, and [`Session::give`] makes the own turn. Both ask the
//! node through a desk, and put what is to be said behind the bytes to be written. [`Took`] and [`Gave`] say
//! whether the session goes on, and [`End`] how it ended. In order of meeting: what a session is lent (`terms`), how far
//! it has come (`stage`), the login (`login`), whose rows and greeting are those of `session_auth`, the rows after it and
//! the own turn (`logged`), which are the rows of its two halves, `session_send` and `session_recv`, and what is said
//! (`saying`). The settings are lent at each call that asks them: the same ones throughout a session.
//!
//! ```
//! let mut session = Session::new(Side::Answers, &conf, challenge, now);
//! session.greet(alloc, &conf, &mut output);
//! for frame in &frames {
//!     match session.take(alloc, frame, &conf, &mut desk, &mut output) {
//!         Took::More => {}
//!         Took::Ended(end) => return end,
//!     }
//! }
//! session.give(alloc, &mut desk, &mut output)
//! ```
//!
//! Left out: lines, pieces of frames and the time that passes.
#![tactic(auto)]

mod ending;
mod logged;
mod login;
mod saying;
mod session;
mod stage;
mod tally;
mod terms;

pub use ending::{Cause, End, Gave, Took};
pub use login::{Login, home_of, role_of};
pub use saying::{refuse, turn_away};
pub use session::Session;
pub use session_auth::Side;
pub use stage::{Stage, Talking};
pub use tally::Tally;
pub use terms::Setting;

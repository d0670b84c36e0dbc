//! A node that serves: it answers who calls, takes its outbound in, calls whom it has mail for, and gives what it receives, one session
//! at a time.
//!
//! [`serve`] is given a desk over an open store, which it holds every session at, and lines, and goes on until it is told to stop. What
//! it does between two lines are [`take_outbound`], [`give_received`] and [`hold`].
//!
//! ```text
//! let served = serve(rt, alloc, &conf, &index, &mut desk, &mut lines, &mut clock, &mut dice, &mut out);
//! // session 1 peer 2:5020/1042@fidonet sent 2 received 0 skipped 0 end Finished
//! // took 2:5047/13@fidonet queued 0 again 0 missing 1 over 0 passed 0
//! ```
//!
//! Its files, from the bottom: `words` has how it ends, `watch` what it remembers, `resting` what it does over its store, `telling` what
//! it tells, `calling` whom it may call, `serving` has one turn, and `served` all of them.
//!
//! Left out: the opening of the store and the settings (`binkp_mailer`), the session (`session_run`), and whom to call next
//! (`call_sched`).
#![tactic(auto)]

mod calling;
mod resting;
mod served;
mod serving;
mod telling;
mod watch;
mod words;

pub use resting::{give_received, hold, take_outbound};
pub use served::serve;
pub use words::{MOST_LINES, PAUSE, ServeEnd, Served};

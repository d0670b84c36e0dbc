//! What is told of a session: its line.
//!
//! ```
//! push_session(alloc, &report, &mut line)?;
//! // session 3 peer 2:5020/1042@fidonet sent 2 received 0 skipped 1 end Finished
//! ```
//!
//! Left out: the session and its report (`session_run`), and where the line is put.
#![tactic(auto)]

mod line;

pub use line::push_session;

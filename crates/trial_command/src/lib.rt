//! `trial COUNT START`: the command that tries two nodes against one another in memory, and touches no disk.
//!
//! [`run_trial`] holds the trial (`node_trial`), prints what it came to in one line, and answers the status: Done where it was held,
//! whatever came of it, since the line says how many files arrived.
//!
//! ```
//! let status = run_trial(alloc, TrialForm { count: 100, start: 1 }, &mut out);
//! // files 100 bytes 503388 sessions 33 received 100 live 0
//! ```
//!
//! Left out: the trial itself, and which words ask for one (`command_words`).
#![tactic(auto)]

mod line;
mod trial;

pub use line::totals_line;
pub use trial::run_trial;

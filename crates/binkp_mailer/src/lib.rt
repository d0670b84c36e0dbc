//! `binkp_mailer` is the program but for what only the system has: it answers a caller, calls a node, serves, or does a command without
//! a session. What it receives stays on a disk, and what came of a call goes to a sink.
//!
//! [`run_program`] is given the words behind the folder, a disk, the lines, a clock, random bytes and a sink, and answers the exit status.
//! It reads the words once, and hands their form on: to [`run_serve`], which serves until it is told to stop (`binkp_serve`), to
//! [`run_still`](still_commands::run_still), to [`run_trial`](trial_command::run_trial), or to [`run_call`], which reads the settings of the disk
//! ([`read_settings`](command_base::read_settings)), opens its store, and answers who calls next ([`answer_next`]), or calls a node at
//! its host under its call mark ([`call_node`]). The session begins with the take-in of its peer's outbound
//! ([`hold_with_outbound`]); behind it what is received goes to the inbound folders ([`give_behind`]), and what came of it is printed
//! ([`print`]). Their contracts say what all of it does. That the node below is one of the two that `world_pair` speaks of is the law
//! [`one_node`].
//!
//! ```
//! let (status, disk) = run_call(alloc, SessionForm::Answer, disk, &mut lines, now, challenge, &mut out);
//! let exit = status.number();                  // 0 where both ends finished
//! ```
//!
//! Left out: the program itself (`binkp`), and what the commands without a session do (`still_commands`, `trial_command`).
#![tactic(auto)]

mod call_mark;
mod inbound;
mod node_laws;
mod over_disk;
mod over_lines;
mod over_serve;
mod program;
mod reaching;
mod report;
mod settings;
mod with_outbound;
mod words;

pub use inbound::give_behind;
pub use node_laws::{
    calls_are_courses, gives_are_steps, one_node, one_receipt_over_calls, openings_are_stops,
    receipts_stay_over_calls,
};
pub use over_disk::run_call;
pub use over_lines::{answer_next, call_node};
pub use over_serve::run_serve;
pub use program::{Ended, explanation, refuse_for_memory, run_program};
pub use report::{Outcome, print};
pub use settings::hub_conf;
pub use with_outbound::hold_with_outbound;

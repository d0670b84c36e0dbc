//! The commands that hold no session: `compile FILE`, `lookup ADDR`, `list` and `take`.
//!
//! [`run_still`] reads the settings of the disk, opens its store and does the command over that disk, prints what came
//! of it, and answers the status. `compile` puts a nodelist and its index into the own folder, and `lookup` says by that index how
//! a node is reached; `list` tells what the store keeps, and `take` takes the outbound in. The contract says what all of it does, and
//! what a stop at each moment leaves.
//!
//! ```
//! let (status, disk) = run_still(alloc, StillForm::List, disk, now, &mut out);
//! ```
//!
//! What refuses a command is judged in one order: the settings, the store's opening, the index, whether there is a file
//! or a node, and then the text of a nodelist.
//!
//! Left out: how an outbound is taken in (`outbound_round`), and the commands with a session.
#![tactic(auto)]

mod came;
mod compiling;
mod listing;
mod looking;
mod still;
mod taking;

pub use still::run_still;

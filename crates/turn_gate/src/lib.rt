//! A value whose history only grows, behind a gate that hands it to one seat at a time.
//!
//! [`Grows`] is what the gate asks of a value: a state of plain data, from which one reads its list of entries and
//! each seat's part. [`Gate::new`] puts a value behind a gate and gives a [`Pass`] for each seat. A thread enters
//! with its pass, works on the value of the [`Held`] that it gets, and leaves; [`Gate::close`] takes all passes in
//! and gives the value back.
//!
//! Contracts say what a caller knows of the others: the state handed out is reached from the one that its pass last
//! left by turns of other seats alone. So the history begins with what the caller had seen, and no seat but its own
//! changed its part. `docs/gate.md` tells how it works.
//!
//! ```
//! let Ok((gate, mut passes)) = Gate::new(alloc, value, 2) else { .. };
//! let mut held = gate.enter(rt, &mut passes[0]);
//! held.value.append(passes[0].seat(), entry);
//! held.leave(&gate, &mut passes[0]);
//! let value = gate.close(passes);
//! ```
//!
//! Left out: what a value and its entries are, threads, and any promise that a caller ever gets its turn.
#![tactic(auto)]

mod gate;
mod grows;
mod held;
mod no_turn;
mod pass;
mod rule;
mod seats;
mod steps;
mod view;

pub use gate::Gate;
pub use grows::Grows;
pub use held::Held;
pub use no_turn::NoTurn;
pub use pass::Pass;
pub use rule::{GateRule, Opening};
pub use view::{Counted, Joined, View};

//! Sessions that are held in threads, each at the seat of its pass behind a turn gate.
//!
//! A session is begun with a pass that was taken out of the slot of its seat, and the thread that holds it promises the whole clause of
//! the session. Once it has ended the pass is back in the slot.
//!
//! ```
//! let mut slots = Slots::new(alloc, &shared.gate, passes)?;
//! // in a scope of threads
//! let pass = slots.lend(seat)?;
//! let pass = rest(&shared.rt, &shared.gate, pass)?;
//! slots.begin(&shared, scope, Begun { place, side, challenge, moment, line, pass });
//! let over = slots.end(&shared.rt, shared.ended.wait(&shared.rt));
//! // once all passes are back
//! let desk = close(gate, slots);
//! ```
//!
//! Left out: where lines come from, whom to call, and what becomes of a report.
#![tactic(auto)]

mod closing;
mod desk;
mod ended;
mod handing;
mod holding;
mod over;
mod resting;
mod running;
mod sessions;
mod slots;
mod stalls;
mod starting;
mod tasks;

pub use closing::close;
pub use ended::Ended;
pub use handing::{HandBack, Lends};
pub use holding::{Shared, hold};
pub use over::Over;
pub use resting::rest;
pub use sessions::{Begun, Done, HeldWhole};
pub use slots::Slots;
pub use stalls::{NoStalls, StallPoint, Stalls};
pub use starting::start;

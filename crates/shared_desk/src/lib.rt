//! The desk of one seat of a hub that many sessions share: each of its calls is one turn at the gate that has the hub.
//!
//! [`Roams`] is what such a hub's own desk is: a [`Desk`](node_model::Desk) that goes from seat to seat, and a value of a gate
//! ([`Grows`](turn_gate::Grows)). A [`GateDesk`] has a pass of the gate. Each call comes in ([`come`]), makes that call at the seat of
//! its pass, and leaves ([`go`]). So each call is one turn, its answer is the node's at the state that was handed out, and the state
//! behind it is the one that the pass left. Between two calls of it other seats step, which a desk says by `alone`.
//!
//! What seats see of a hub, and what a turn of a seat is, stands in `specs/Seen.antt`: calls of that seat alone, which leave the other
//! seats be. Turns of others are steps of others to a seat ([`turns_of_others_are_steps_of_others`]), and the records of a turn are its
//! seat's ([`records_of_a_turn_are_its_seats`]), those of a call that is made its session's
//! ([`records_of_a_call_are_its_sessions`]).
//!
//! ```
//! let mut desk = GateDesk::<_, _, G>::new(rt, &gate, pass);   // of a `Gate` over a desk that roams
//! let report = run_session(alloc, side, line, &mut desk, conf, challenge, now);
//! let pass = desk.into_pass();
//! ```
//!
//! Left out: every hub and every store, threads, and any promise that a call ever gets its turn.
#![tactic(auto)]

mod desk;
mod laws;
mod roams;
mod visits;

pub use desk::{GateDesk, GateName};
pub use laws::{
    records_of_a_call_are_its_sessions, records_of_a_turn_are_its_seats,
    turns_of_others_are_steps_of_others,
};
pub use roams::Roams;
pub use visits::{come, go};

//! Taking in an outbound of other FidoNet programs (FTS-5005): what a node sees of it, the steps that it is made of, and what
//! holds of every life of such steps, with any stops.
//!
//! Flow files, packets of netmail and file requests are moved into the node's own folder, each under the number of a take, and
//! are queued there: the lines of a flow file one by one, any other as one file. What that does is said over what a stop leaves of
//! a store (`specs/Outbound.antt`): the queue, the take numbers that are recorded, the takes that stand, and the files of other
//! programs. A take's own name spells its number, for whom it is and what it was (`specs/OwnNames.antt`); what a line or a file
//! becomes is a [`Fate`] (`specs/Fates.antt`). The steps stand in `specs/Steps.antt`, and lists of them in `specs/Lives.antt`.
//!
//! Laws: [`each_line_once`] says of every life that each file which was moved waits as a take, or was queued once, each of its lines
//! with one fate. What a stop leaves of steps is reached by steps ([`stop_leaves_a_life`]), and steps behind steps are a life
//! ([`lives_join`]), so it holds whatever stops there were. [`worked_take_happens`] shows one.
//!
//! Left out: every store, listing, and who marks an outbound as busy.
#![tactic(auto)]

mod fate;
mod laws;

pub use fate::Fate;
pub use laws::{each_line_once, lives_join, stop_leaves_a_life, worked_take_happens};

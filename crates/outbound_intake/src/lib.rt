//! The take-in of one address of an outbound of other FidoNet programs (FTS-5005), over any store of takes.
//!
//! [`take_in`] makes the address's busy mark, does the actions that wait, takes in what a stop left, finds the files of the
//! address by listing folders, and takes each in: netmail and then flow files, each from immediate to hold, and then requests.
//! Then it takes the mark away. What is asked of a store is the trait [`Outgoing`](outbound_take::Outgoing).
//!
//! At `Ok` what was queued, in order, is what is answered; no take for the address is left but those that are told as over; and of
//! each file of the address that stands nothing more is to be taken in: it is over its limit, or an action cut it.
//!
//! ```
//! let outbound = OutboundAt { home: &home, base: &base, zone: 2 };
//! match take_in(&mut store, alloc, &outbound, &dest, now) {
//!     Ok(taken) => {} // taken.files says what became of each file, taken.over which takes wait
//!     Err(TakeFault::Marked(name)) => {} // another program is at it
//!     Err(fault) => {}
//! }
//! ```
//!
//! Its files, from the bottom: `listing` finds the files of an address in one folder, `folders` the folders in which they may
//! stand, `finding` all of them, in order; `taking` takes in what stands, `marking` is about the busy mark, and `intake` is all.
//!
//! Left out: which addresses something is to be taken in for (`outbound_addresses`), and every store.
#![tactic(auto)]

mod finding;
mod folders;
mod intake;
mod listing;
mod marking;
mod taking;
mod words;

pub use intake::take_in;
pub use words::OutboundAt;

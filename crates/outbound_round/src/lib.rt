//! Takes in a whole outbound of other FidoNet programs (FTS-5005), into a node's store on a disk.
//!
//! [`take_round`] asks the store for which addresses something is to be taken in, and takes each in, rising by zone, net, node and
//! point. An address that another program has marked is passed over. Any other fault ends the round: a failing disk leaves a broken
//! store, and at the others the store is whole, and a later round goes on. What is answered is what is told of it ([`Round`]): a
//! line for each address, or for each at which something was passed over ([`Telling`]), the name of the first mark of another program,
//! and the fault.
//!
//! ```text
//! let outbound = OutboundAt { home: &home, base: &base, zone: 2 };
//! let round = take_round(alloc, &mut taking, &outbound, now, Telling::All);
//! // took 2:5020/1042@fidonet queued 3 again 1 missing 2 over 0 passed 4
//! // marked 2:5047/13@fidonet
//! ```
//!
//! Its files, from the bottom: `words` has what is told, `counting` counts what became of one address's files, `telling` tells of
//! one address, `taking` takes in one address and many, and `outbound` all.
//!
//! Left out: taking in one address (`outbound_intake`), finding them (`outbound_addresses`), and what is done with a fault.
#![tactic(auto)]

mod counting;
mod outbound;
mod taking;
mod telling;
mod words;

pub use outbound::take_round;
pub use words::{Round, RoundFault, Telling};

//! Takes in the outbound of other FidoNet programs (FTS-5005): a file is moved into the own folder, what it brings is staged and
//! queued with the number of its take, its actions are done, and the take is removed.
//!
//! A take is an outbound file that was moved into the own folder of a store. What is asked of a store is the trait [`Outgoing`];
//! its calls are said over what the store tells of its outbound, what it has in memory, and what a stop at each moment may have
//! left (`specs/Stand.antt`, `specs/Calls.antt`). What the functions do is said as steps of `outbound_model` (`specs/Ours.antt`):
//! at every answer but a failing disk they were made, and what a stop leaves is what the first of them lead to.
//!
//! A store has more than its outbound, and the trait doesn't say what. What a store of one type says of each of its calls is its
//! `rule`, and every function that is lent a store says that it made such calls only, one after the other (`specs/Ruled.antt`): who
//! knows the store concludes the rest from that.
//!
//! A packet or a request of more than 2,147,483,647 bytes can't be sent. Where it was moved it stays as a take, and is told as
//! over by its number.
//!
//! Its files, from the bottom: `words` and `outgoing` are the words and the trait; `lines` plans the lines of a flow file, one by
//! one, and `whole` a packet or a request; `queueing` queues what was planned, and says what became of it; `taking` does
//! the actions behind it, and removes the take; `resting` does that with each take that a stop left; `moving` moves one file of
//! the outbound, and takes it in.
//!
//! Left out: listing folders, marks, and every store.
#![tactic(auto)]

mod lines;
mod moving;
mod outgoing;
mod queueing;
mod resting;
mod taking;
mod whole;
mod words;

pub use moving::take_found;
pub use outgoing::{Outgoing, TakeLeft};
pub use queueing::queue_take;
pub use resting::take_rest;
pub use taking::{do_actions, take_one};
pub use words::{FileEnd, TakeFault, Taken, TookFile};

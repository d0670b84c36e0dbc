//! The desk of a seat of a hub whose session begins with the take-in of its peer's outbound (FTS-5005).
//!
//! [`LineDesk`] is a desk as `hub_core`'s `HubDesk` is, over a store on a disk. As a session opens at it, it lists for which
//! addresses something is to be taken in, and takes in the outbound of those among them that the peer has. An address that another
//! program has marked is passed over. Then it answers the requests of the peer that wait. Where a take-in or an answer finds no place or
//! no memory, or its disk fails, the opening is refused so.
//!
//! A request that comes in a session is answered as soon as it was received: files of the shared folders are queued for the peer, and the
//! request is answered, in one durable change. Where no place or no memory is left for that, it waits.
//!
//! ```
//! let outbound = DeskOutbound { home, base, zone: 2, folders };
//! let desk = HubDesk { hub, seat };             // of a `Hub` over a `TakingStore`
//! let mut desk = LineDesk { desk, outbound, alloc };
//! let report = run_session(alloc, side, line, &mut desk, conf, challenge, now);
//! let store = desk.desk.hub.into_store().into_store();
//! ```
//!
//! The calls of the store that a take-in makes (`take_steps`) are rows of the seat whose turn it is, at the node of the hub over the
//! store, and what a stop leaves of them is what those rows pass ([`take_ins_are_rows`]). An answer is one such row
//! (`specs/Answering.antt`). So what such a desk does is what its node's model has of it, rows before an opening, and at most one behind
//! a call that received a file (`specs/TakenIn.antt`, `specs/Lines.antt`).
//!
//! Left out: the take-in itself, and which files a text asks for (`file_request`).
#![tactic(auto)]

mod desk;
mod laws;
mod peers;
mod requests;
mod roaming;

pub use desk::{DeskOutbound, LineDesk};
pub use laws::take_ins_are_rows;
pub use roaming::OutboundDesk;

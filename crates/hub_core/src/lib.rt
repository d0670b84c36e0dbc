//! The desk of any number of sessions over one store.
//!
//! A [`Hub`] is a node's store with its seats. [`HubDesk`] is the desk of one seat: each of its calls is one step of the
//! node ([`Desk`], given on from `node_model`), and leaves the hub sound, with what a stop may leave of it, also over a
//! store that tells nothing.
//!
//! ```
//! let mut hub = Hub::new(alloc, store, conf);
//! let seat = hub.seat()?;
//! let mut desk = HubDesk { hub, seat };
//! desk.knock(Role::Answers)?;
//! desk.begin(alloc, Role::Answers, &peers, false, now)?;
//! if let FileIn::Go = desk.file_in(alloc, &key, 0)? {
//!     desk.data_in(b"hello")?;                  // `DataIn::Whole`: its receipt is recorded
//! }
//! desk.leave()?;
//! let store = desk.hub.into_store();
//! ```
//!
//! Left out: taking files in, acting on their sources, and giving received files. Whoever does that makes the calls of the hub's
//! store itself.
#![tactic(auto)]

mod claim_index;
mod files;
mod hold_index;
mod hub;
mod judging;
mod offering;
mod outgoing;
mod parts;
mod places;
mod questions;
mod seats;
mod sending;
mod skips;
mod taking;

pub use hub::{Hub, HubDesk};
pub use node_model::{DataIn, Desk, DeskFault, FileIn, Knock, Offer};
pub use places::HubConf;

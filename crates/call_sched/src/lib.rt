//! Whom a node calls next (own).
//!
//! [`next_call`] takes the moment, what waits for whom, and which calls were made, and answers whose turn it is, or until when
//! nobody's is. It reads nothing and takes no memory.
//!
//! ```
//! match next_call(now, wanted.as_slice(), tries.as_slice()) {
//!     Next::Call(place) => .., // call wanted[place].addr
//!     Next::WaitUntil(moment) => ..,
//!     Next::Nothing => ..,
//! }
//! ```
//!
//! Left out: the outbound that files wait in, the hosts that make an address callable, and the calls themselves.
#![tactic(auto)]

mod following;
mod tries;
mod words;

pub use following::next_call;
pub use words::{Next, PAUSE, Try, Wanted};

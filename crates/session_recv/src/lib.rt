//! The receiving half of a binkp session after login (FTS-1026), over any desk.
//!
//! A [`Receiver`] knows the file that its session holds, as the desk does, and counts the receipts made. [`Receiver::take_file`] takes the
//! peer's M_FILE, and [`Receiver::take_data`] a data frame; each asks the desk first and writes its answer,
//! M_GOT, M_GET or M_SKIP, behind that. [`RecvStep`] says whether the session goes on.
//!
//! ```
//! let mut receiver = Receiver::new();
//! receiver.take_file(alloc, key, 0, &mut desk, &mut out)?;
//! receiver.take_data(alloc, b"hello", &mut desk, &mut out)?; // behind the receipt: M_GOT
//! ```
//!
//! Left out: the login, the own turn, and the M_ERR that a session ends with.
#![tactic(auto)]

mod holding;
mod receiver;
mod replying;

pub use holding::{Held, Holding, Receiver};
pub use receiver::RecvStep;

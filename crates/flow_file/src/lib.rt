//! Flow files (FTS-5005): a text whose lines each name a file to be sent, and say what is to
//! be done with it once it is queued.
//!
//! [`read_flow`] gives one [`FlowLine`] for each line. It refuses nothing: what names no file is passed.
//!
//! ```
//! let lines = read_flow(alloc, b"^/out/a.txt\n~/out/sent.txt\n")?;
//! // one file to be sent and then deleted, and one line that is passed over
//! ```
//!
//! Left out: the files that are named, and which node a flow file is for.
#![tactic(auto)]

mod item;
mod reading;

pub use item::FlowLine;
pub use reading::read_flow;

//! A ledger: a list of payloads in one file of a disk, where all payloads of a call become durable together.
//!
//! [`Ledger::open`] gives the ledger of a disk, and makes one where there is none. [`Ledger::append`] and
//! [`Ledger::append_all`] add payloads: at every moment a stop leaves all payloads of a call or none. With
//! [`Ledger::reserve`] places and memory are kept beforehand, so that an append within them can fail only
//! by the disk. [`one_reading`] is the law that the bytes alone decide what an opening says.
//!
//! The file is a header, records and a closed gate, and then anything. A record's first byte is its gate,
//! and the list ends at the first gate that isn't open; `docs/model.md` tells the format.
//!
//! [`put_file`] makes any file anew and durable.
//!
//! ```text
//! let mut ledger = Ledger::open(alloc, &mut disk)?;
//! ledger.reserve(1)?;
//! ledger.append(&mut disk, b"a payload")?;     // it lasts
//! let first = ledger.payload(0);
//! ```
//!
//! Left out: what a payload says, and the own files that stand beside the ledger.
#![tactic(auto)]

mod append;
mod fault;
mod file_name;
mod header;
mod law;
mod ledger;
mod opening;
mod publish;
mod read;
mod records;
mod whole_file;

pub use fault::{AppendFault, OpenFault};
pub use law::one_reading;
pub use ledger::Ledger;
pub use whole_file::put_file;

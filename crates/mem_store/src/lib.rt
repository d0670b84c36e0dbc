//! A store in memory.
//!
//! [`ListStore`] keeps a node's durable state in lists. It tells all that it keeps, and a stop leaves exactly that
//! (`specs/ListStates.antt`); nothing of it outlives the program. It fails the calls that it was told to fail, as a disk
//! may: it is the store of tests, and of a program that keeps nothing.
//!
//! ```
//! let mut store = ListStore::new(alloc);
//! store.reserve(2)?;                           // places for a mark and the receipt
//! let at = store.part_open(alloc, &sender, &key)?;
//! store.part_put(at.part, b"hel")?;
//! store.part_mark(at.part)?;                   // a stop keeps that much
//! store.part_put(at.part, b"lo")?;
//! store.commit(at.part, 1, false)?;            // in session 1, without a password
//! let files = store.receipts();                // one file, `hello`
//! ```
//!
//! Its files, from the bottom: `lists` puts items behind lists; `log_record` and `place` are a record, and the room for
//! one; `queued`, `staged`, `received`, `refused`, `open_part` and `outside` are the items of its lists, with their
//! look-ups; `plan` says how files are queued together, and `giving` under which name a received file is given;
//! `list_store` is the store, `store_calls` its calls, and `questions` tells whether their conditions are met.
#![tactic(auto)]

mod acting;
mod giving;
mod least;
mod list_store;
mod lists;
mod log_record;
mod open_part;
mod outside;
mod place;
mod plan;
mod questions;
mod queued;
mod received;
mod refused;
mod staged;
mod store_calls;

pub use giving::GivenFile;
pub use list_store::ListStore;
pub use log_record::{LogEntry, LogRecord};
pub use outside::OutsideFile;
pub use queued::QueuedFile;
pub use received::Received;
pub use refused::RefusedFile;
pub use staged::StagedFile;

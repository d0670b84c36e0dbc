//! What the calls of a take-in are to the store beneath it.
//!
//! A take-in stages files, queues them and acts on their sources, which are calls of the store, and beside that it changes takes
//! and files of other programs, or nothing ([`Wanting`] says what may have run out). An answer to a request makes such calls too, and
//! reads the request. `specs/Steps.antt` says so of one call, for
//! whoever speaks of the calls of a take-in as steps of a node.
//!
//! Left out: every store, and the steps of a node.
#![tactic(auto)]

mod wanting;

pub use wanting::Wanting;

//! `inbound_files` gives received files away: each becomes a file of an inbound folder, where other programs take it.
//!
//! [`give_files`] calls a store once for each file that waits. A file whose names are both in use there stays in the store,
//! and the next round tries it again.
//!
//! ```
//! give_files(alloc, &mut store, &inbound, &nonsecure, waiting)?;
//! ```
//!
//! Left out: which files wait, and under which names they are given, which is the store's.
#![tactic(auto)]

mod giving;

pub use giving::give_files;

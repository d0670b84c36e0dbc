//! A node's store on a disk takes outbound files in: [`TakingStore`] is a [`NodeStore`](node_store::NodeStore) as `outbound_take`
//! asks for it.
//!
//! Each call is one or some of the store's. What a take-in sees of the store stands in `specs/Seen.antt` and `specs/Held.antt`:
//! its takes, the number that was drawn, what is staged and may still be queued, and of what it keeps the outbound. What no call
//! changes beside that stands in `specs/GoesOn.antt`: what was received, refused, marked and given. It holds along all calls, one
//! behind another (`store_goes_on` in `proofs/GoesOnLemmas.antt`).
//!
//! What each call is to the store beneath stands in `specs/Calls.antt`: one step, as `take_steps` says. Where a call found no place
//! or no memory, [`TakingStore::wanting`] tells that, and every later call is refused for the same and does nothing. Only marks
//! are made and taken away all the same.
//!
//! ```text
//! let found = addresses(alloc, &mut store, &home, &base, 2)?;
//! let mut taking = TakingStore::new(store);
//! taking.now_is_told();
//! let taken = take_rest(&mut taking, alloc, &addr, now);
//! let store = taking.into_store();
//! ```
//!
//! Its files, from the bottom: `own` says what the own name of a take spells, `left` finds the next take of an address,
//! `reading` reads a take whole, `taking_store` has the store as a take-in asks for it, and `store_calls` as a node does.
//!
//! Left out: taking in itself.
#![tactic(auto)]

mod left;
mod own;
mod reading;
mod store_calls;
mod taking_store;

pub use taking_store::TakingStore;

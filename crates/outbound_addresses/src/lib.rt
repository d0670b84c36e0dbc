//! For which addresses the outbound of a store has something (FTS-5005).
//!
//! [`addresses`] lists the folder above the base, the folders of zones that stand there, and the folders of
//! points in these. It answers the addresses for which a flow file, netmail or a file request stands, and
//! those of which a take or an action on a source is left.
//!
//! ```
//! let found = addresses(alloc, &mut store, &home, &base, 2)?;
//! for addr in &found {
//!     // something is to be taken in for this address
//! }
//! ```
//!
//! From the bottom: `asking` asks the store, `names` looks for what the names of a folder say, `zones` goes
//! from the folder above the base to the folders of points, and `own` reads what the store keeps itself.
//!
//! Left out: taking files in, and marks.
#![tactic(auto)]

mod asking;
mod finding;
mod names;
mod own;
mod zones;

pub use finding::addresses;

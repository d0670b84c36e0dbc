//! For which nodes and points the files of an outbound are (FTS-5005), by their names alone.
//!
//! A [`Place`] is a node or point of one domain. [`file_in`] says for which one a file in a folder of the
//! outbound is; [`place_of`] reads one from sixteen digits, and [`place_in`] from an address. A
//! [`PlaceSet`] collects places and gives their addresses in order, each once.
//!
//! Which of all outside files are files of the outbound, and what a search finds among them, is said in
//! `specs/Outbound.antt`: the folders of zones stand in the folder above the base, a node's files in the
//! folder of its zone, and those of a point in a folder there.
//!
//! ```
//! let mut places = PlaceSet::new(alloc);
//! if let Some(file) = file_in(alloc, &folder, &name, &home, &base, 2)? {
//!     // file.path is the path of the name in the folder
//!     places.insert(file.place)?;
//! }
//! let found = places.addresses(alloc, &home.domain)?;
//! ```
//!
//! Left out: listing folders, and looking whether a file stands.
#![tactic(auto)]

mod files;
mod place;
mod set;

pub use files::{OutboundFile, file_in, path_in};
pub use place::{Place, place_in, place_of};
pub use set::PlaceSet;

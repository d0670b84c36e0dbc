//! Ordered indices beside lists: which files of which addresses stand in a list, where a number stands, whose turn comes
//! next, and which number.
//!
//! A look-up takes steps in proportion to the logarithm of what is noted, and no memory. To note one more
//! takes memory; where there is none, the index isn't whole any more, and its caller walks the list.
//!
//! ```
//! let mut files = FileIndex::new(alloc);
//! files.note(&from, &key);                     // that file stands in the list now
//! let found = match files.find(&from, &key) {
//!     Some(found) => found,
//!     None => walk(list),                      // the index isn't whole
//! };
//!
//! let mut turns = TurnIndex::new(alloc);
//! turns.note(&dest, Turn { rank: 3, number: 7 });
//! let first = turns.next(&dest, None);         // `Some(Some(Turn { rank: 3, number: 7 }))`
//! turns.remove(&dest, Turn { rank: 3, number: 7 });
//! ```
//!
//! Left out: the lists themselves, and taking files and places out.
#![tactic(auto)]

mod files;
mod numbers;
mod sets;
mod turns;

pub use files::FileIndex;
pub use numbers::NumberIndex;
pub use sets::NumberSet;
pub use turns::{Turn, TurnIndex};

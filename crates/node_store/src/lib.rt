//! A node's store on a disk: the ledger's records, and the own files beside it.
//!
//! What it keeps is said over worlds, which are what a disk holds: [`NodeStore`]'s invariant ties what a stop now may leave to
//! what the store tells (`specs/Worlds.antt`, `specs/Stored.antt`). The laws ([`each_record_is_a_change`] and its kin) say what
//! a record more in the ledger does in every world.
//!
//! ```
//! let name = in_file(42);                      // `in.0000002a`
//! let number = received_number(&name);         // 42
//! ```
//!
//! Its files, from the bottom: `digits` and `names` are the names of own files; `spelling` is the text of a record; `recording`
//! makes files durable and then their records, and `copying` copies own files; `books` is the ledger in memory with its fold, and `batches` appends some records
//! to it together; `lookups` finds files in the fold, and `offers` the next one for an address; `part` has open parts and staged
//! files, `readying` makes the file of a part ready, and `planning` says what queueing files will write; `store` is the store.
//! Its calls stand in `beginning`, `marking`, `committing` and `refusing` (a part is opened, marked, becomes a receipt or is
//! refused), `staging` and `queueing` (files are staged, and then queued), `queued` (queued files), `acting` (their sources are
//! acted on), `reading` and `giving` (received files are given), where `round` says which comes next, and which request is answered next, by what is `sought`, and `waiting` how many are left; `asking` has those that only ask the disk, of outside files and of files that were taken, `taking` those that move outside
//! files into the own folder and remove them there, whose list `takes` has, and `outbound_marks` those that make marks in the
//! outbound and take them away. `opening` makes the store of a disk, and `store_calls` makes it a store. `laws` says what holds of
//! every name, ledger and world.
//!
//! Left out: the names of outbound files, and what is in those that are taken.
#![tactic(auto)]

mod acting;
mod asking;
mod batches;
mod beginning;
mod books;
mod committing;
mod copying;
mod digits;
mod giving;
mod laws;
mod lookups;
mod marking;
mod names;
mod offers;
mod opening;
mod outbound_marks;
mod part;
mod planning;
mod queued;
mod queueing;
mod reading;
mod readying;
mod recording;
mod refusing;
mod round;
mod sought;
mod spelling;
mod staging;
mod store;
mod store_calls;
mod takes;
mod taking;
mod waiting;

pub use laws::{
    each_fold_is_numbered, each_name_has_one_number, each_record_is_a_change, giving_is_a_change,
    names_are_apart, no_bad_file_where_all_fit, no_world_that_opens_is_refused, take_is_read,
    what_is_read_is_ready,
};
pub use names::{
    MarkKind, TakeKind, in_file, is_note, mark_file, out_file, queued_number, received_number,
    take_file, take_number,
};
pub use opening::{Recovery, StoreOpenFault};
pub use store::NodeStore;
pub use takes::TakeName;

//! The records of a ledger, and the state that they leave.
//!
//! A [`Record`] is one durable change. [`write_record`] writes its bytes, and [`read_record`] reads them;
//! each undoes the other ([`one_record_at_most`], [`fits_a_payload`]). [`Folded`] takes the records one
//! after another, refuses one that doesn't follow from those before, and shows what is queued, received,
//! refused and marked. It keeps an index of the files that wait to be sent to each address
//! ([`Folded::next_waiting`]), and one of those whose source waits for its action
//! ([`Folded::next_acting`]). With [`Folded::reserve`] and [`Folded::hold`] a caller makes sure that a
//! record that must be folded later takes no memory then.
//!
//! Files that are queued together are a [`Batch`]: [`Folded::prepare`] says whether its records follow, and
//! once they are durable [`Folded::add_batch`] folds them in. [`Folded::lengthen`] makes a standing mark
//! longer.
//!
//! ```
//! let mut payload = Bytes::new(alloc);
//! write_record(&Record::Done(number, session), &mut payload)?;
//! let mut folded = Folded::new(alloc);
//! folded.add_owned(read_record(alloc, payload.as_slice(), &home)?)?;
//! ```
//!
//! Left out: the ledger's file with its gates and lengths, the bytes of files, and what was given away.
#![tactic(auto)]

mod batch;
mod changes;
mod fault;
mod fields;
mod folded;
mod index;
mod items;
mod laws;
mod lengthen;
mod lists;
mod planned;
mod reading;
mod record;
mod rules;
mod steps;
mod waiting;
mod writing;

pub use batch::Batch;
pub use fault::{FoldFault, RecFault};
pub use file_index::Turn;
pub use folded::Folded;
pub use items::{InboxItem, MarkItem, QueueItem, RefusedItem};
pub use laws::{
    each_fold_is_orderly, fits_a_payload, more_records_fold_on, one_payload_more,
    one_record_at_most, read_is_spelled, spelled_is_read,
};
pub use lengthen::Lengthened;
pub use reading::read_record;
pub use record::{MarkRec, NewFileRec, ReceivedRec, Record, RefusedRec};
pub use rules::is_request;
pub use writing::write_record;

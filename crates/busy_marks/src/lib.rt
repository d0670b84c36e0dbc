//! Busy and call marks of the outbound (FTS-5005), each with a note in the own folder.
//!
//! A mark is a file beside the outbound files of an address that tells other programs to leave them alone. Its
//! text is [`mark_text`]: who made it. A mailer that is stopped leaves its marks, so before one is made its
//! path is noted: the note is an own file that holds the path and nothing else. [`mark_addr`] makes both, and
//! [`unmark_addr`] undoes both. At every moment where the mark stands its note stands too, whole and durable.
//! So an opening finds each mark by its note, and [`clear_note`] takes both away.
//!
//! A note may be in part after a stop, and then it names any path. That harms nobody: a file is removed only
//! where it holds exactly the text of this mailer.
//!
//! ```text
//! let text = mark_text(alloc, &home)?;
//! match mark_addr(&mut disk, &path, &note, &text)? {
//!     Marking::Made => {
//!         // the outbound of this address is ours
//!         unmark_addr(&mut disk, &path, &note, &text)?;
//!     }
//!     Marking::Exists => {} // another program is at it
//! }
//! ```
//!
//! Left out: the names of notes and the paths of marks, which the caller hands in.
#![tactic(auto)]

mod clearing;
mod fault;
mod marking;
mod text;
mod unmarking;

pub use clearing::clear_note;
pub use fault::ClearFault;
pub use marking::mark_addr;
pub use text::mark_text;
pub use unmarking::unmark_addr;

//! Frames of the binkp protocol (FTS-1026), read from a stream that comes in any
//! pieces, and written.
//!
//! A [`Frame`] is a command with its argument, or data. A [`Decoder`] is fed the pieces of a stream and
//! adds each frame, once it is whole, to a list that its caller walks; it refuses nothing.
//! [`put_frame`] writes one frame, and [`head_of`] reads the two bytes before a frame's data.
//!
//! ```
//! let mut decoder = Decoder::new(alloc);
//! let mut frames = Vec::new(alloc);
//! decoder.feed(alloc, piece, &mut frames)?;
//! for frame in frames.as_slice() {
//!     put_frame(frame, &mut sent_back)?;
//! }
//! ```
//!
//! `specs/Stream.antt` says which frames a stream has. Four laws about it are functions with empty
//! bodies: [`reads_one_way`], [`pieces_add_up`], [`pieces_make_few`] and [`reads_what_is_sent`].
//!
//! Left out: what a command's argument says (`binkp_args`), and every line that a stream comes from.
#![tactic(auto)]

mod decoder;
mod frame;
mod writing;

pub use decoder::{Decoder, pieces_add_up, pieces_make_few, reads_one_way};
pub use frame::{Frame, Head, head_of};
pub use writing::{put_frame, reads_what_is_sent};

//! CRAM-MD5, the password exchange of binkp (FTS-1027): HMAC-MD5 (RFC 2104), the offer of a challenge,
//! and the answer to one.
//!
//! The side that answers a call offers a challenge in an M_NUL frame, whose word [`offer_text`] writes.
//! The side that calls reads it with [`read_offer`] and answers with [`answer_text`] in its M_PWD frame.
//! The side that answers judges that with [`check`], which takes a plain password too. The digest is
//! [`hmac`], with the password as the key and the challenge as the text.
//!
//! ```
//! let mut offer = Bytes::new(alloc);
//! offer_text(alloc, &challenge, &mut offer)?; // OPT CRAM-MD5- and 32 digits
//! if let Offer::Md5(challenge) = read_offer(alloc, offer.as_slice())? {
//!     answer_text(alloc, password, challenge.as_slice(), &mut answer)?;
//!     assert!(check(password, challenge.as_slice(), answer.as_slice()));
//! }
//! ```
//!
//! Left out: frames and commands, and which offer counts where several came.
#![tactic(auto)]

mod answer;
mod digest;
mod offer;

pub use answer::{answer_text, check};
pub use digest::hmac;
pub use offer::{Offer, offer_text, read_offer};

//! The greeting and the login of a binkp session (FTS-1026), with passwords (FTS-1027) and the settings.
//!
//! [`Auth::start`] greets the peer, and [`Auth::take`] takes its commands one by one until the login is
//! done. What a command does is an [`AuthStep`]: the login goes on, the peer is in ([`Login`]), or the
//! session ends. What is said is added to the bytes that are handed in.
//!
//! ```
//! let mut auth = Auth::start(alloc, Side::Answers, &conf, challenge, now, &mut out)?;
//! match auth.take(alloc, command, &conf, &mut out)? {
//!     AuthStep::More => {}
//!     AuthStep::In(login) => begin(&login.peers, login.secure),
//!     ..
//! }
//! ```
//!
//! `specs/Greeting.antt` says what the greeting is, and `specs/Login.antt` what each command does where
//! the login stands (`reply_to`). Four laws about that are functions with empty bodies:
//! [`secure_where_a_password_was_checked`], [`secure_where_a_password_was_sent`],
//! [`addresses_stay_in_order`] and [`no_plain_password_at_an_offer`].
//!
//! Left out: frames as bytes of a line, arguments that can't be read, data frames, and what comes after
//! the login.
#![tactic(auto)]

mod auth;
mod greeting;
mod laws;
mod moment;
mod passwords;
mod saying;
mod side;
mod stage;
mod steps;

pub use auth::Auth;
pub use laws::{
    addresses_stay_in_order, no_plain_password_at_an_offer, secure_where_a_password_was_checked,
    secure_where_a_password_was_sent,
};
pub use side::Side;
pub use steps::{AuthStep, Login, LoginFault};

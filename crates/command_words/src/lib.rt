//! The words that the program is given behind its folder, and the forms that they may have.
//!
//! [`read_form`] says which command words are: `answer`, `call ADDR`, `lookup ADDR`, `compile FILE`, `list`, `take`,
//! `serve` or `trial COUNT START`, and nothing else.
//! It answers for every list of words, before anything is read or written, and fails for want of memory alone; two forms never
//! share words ([`one_form`]).
//!
//! ```
//! match read_form(alloc, words)? {
//!     Some(Form::Session(form)) => { .. }  // SessionForm::Answer, SessionForm::Call(text)
//!     Some(Form::Still(form)) => { .. }    // StillForm::Lookup(text), ::Compile(path), ::List, ::Take
//!     Some(Form::Serve) => { .. }
//!     Some(Form::Trial(form)) => { .. }    // form.count, form.start
//!     None => { .. }                       // no command
//! }
//! ```
//!
//! Words that are empty, begin with `-` or aren't UTF-8 are refused first (`plain`). `clap` then splits the others into a command
//! and the values behind it (`line`): it refuses none of them, and has no options of its own, as `--help`, since no word begins
//! with `-`. Which command takes how many values is said here (`form`), and which of them are numbers (`numbers`).
//!
//! Left out: whether ADDR is an address, which the settings decide, and what a command does.
#![tactic(auto)]

mod form;
mod line;
mod numbers;
mod plain;

pub use form::{Form, SessionForm, StillForm, TrialForm, one_form, read_form};

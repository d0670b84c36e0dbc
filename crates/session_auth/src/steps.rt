//! What becomes of a command at login.
ghost use Rattle.std.specs.Prelude.{map};
ghost use Rattle.binkp_args.specs.Limits.{AreAddresses};
ghost use Rattle.ftn_addr.specs.Address.{address};

use ftn_addr::{Addr, Bytes};

/// What was wrong with a command of the peer's.
#[derive(Clone, Copy, Debug, PartialEq, Eq)]
pub enum LoginFault {
    /// No address is left without the own ones.
    NoAddress,
    /// The called address isn't among the peer's.
    NotCalled,
    /// It doesn't belong here.
    OutOfTurn,
}

/// A peer that is in: its addresses, one at least, and whether a password was checked or sent.
#[derive(Debug, Drop)]
pub struct Login {
    pub peers: Vec<Addr>,
    pub secure: bool,
    pub ghost are: { AreAddresses (map address peers.items) },
}

/// What became of a command.
#[derive(Debug, Drop)]
pub enum AuthStep {
    /// The login goes on.
    More,
    In(Login),
    /// The caller's password isn't the right one: the answer to the challenge that was wanted, and what
    /// was given.
    BadPassword(Bytes, Bytes),
    /// The peer said M_ERR with that text.
    PeerError(Bytes),
    /// The peer said M_BSY.
    PeerBusy,
    /// The command was refused.
    Broke(LoginFault),
}

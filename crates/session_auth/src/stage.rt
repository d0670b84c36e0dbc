//! Where a login stands.
ghost use Rattle.std.specs.Prelude.{map};
ghost use Rattle.binkp_args.specs.Limits.{AreAddresses};
ghost use Rattle.ftn_addr.specs.Address.{address};

use cram_md5::Offer;
use ftn_addr::Addr;

/// The peer's addresses without the own ones, one at least.
#[derive(Debug, Drop)]
pub(crate) struct Peers {
    pub addresses: Vec<Addr>,
    pub ghost are: { AreAddresses (map address addresses.items) },
}

/// Where a login stands.
#[derive(Debug, Drop)]
pub(crate) enum Stage {
    /// Before the peer's addresses, with its last offer so far.
    AwaitsAddress(Offer),
    /// At the answering side, before the caller's password.
    AwaitsPassword(Peers),
    /// At the calling side with the own password said, before the word that it is accepted; and whether
    /// that was one.
    AwaitsWord(Peers, bool),
}

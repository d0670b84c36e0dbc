//! The words of a take-in of one address.
use bso_outbound::Kind;
use ftn_addr::{Addr, Bytes};

/// Where an outbound is: the node's first address, the base, and the zone of the base's own folder.
#[derive(Clone, Copy)]
pub struct OutboundAt<'a> {
    pub home: &'a Addr,
    pub base: &'a Bytes,
    pub zone: u16,
}

/// A file of the outbound for an address.
#[derive(Debug, Drop)]
pub(crate) struct Found {
    pub(crate) path: Bytes,
    pub(crate) kind: Kind,
}

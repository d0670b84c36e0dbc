//! Folders of files that may be requested.
use ftn_addr::Bytes;

/// A folder of files that may be requested.
#[derive(Debug, Drop)]
pub struct Share {
    pub folder: Bytes,
    /// The names of its files, in their order.
    pub names: Vec<Bytes>,
}

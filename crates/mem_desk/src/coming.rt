//! A file that comes.
use ftn_addr::FileKey;

/// A file that comes, with how many bytes of it are left, and whether its data is taken.
#[derive(Debug, Drop)]
pub struct Coming {
    pub key: FileKey,
    pub left: u64,
    pub taking: bool,
}

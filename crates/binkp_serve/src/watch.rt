//! What a node that serves remembers.
use call_sched::Try;
use ftn_addr::Bytes;

/// The last call of each address, rising by address; when it last took its outbound in, and what it said of that; how many lines it
/// was given; and whether memory was short.
#[derive(Debug, Drop)]
pub(crate) struct Watch {
    pub(crate) tries: Vec<Try>,
    pub(crate) looked: u64,
    pub(crate) said: Bytes,
    pub(crate) lines: u32,
    pub(crate) short: bool,
}

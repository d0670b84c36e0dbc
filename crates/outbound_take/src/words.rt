//! The words of a take-in.
use bso_outbound::Kind;
use ftn_addr::Bytes;
use outbound_model::Fate;

/// What became of what was taken in: first what a stop had left, then each file that stood.
#[derive(Debug, Drop)]
pub struct Taken {
    pub files: Vec<TookFile>,
    /// The numbers of the takes that wait, since each is a packet or a request of more than 2,147,483,647 bytes.
    pub over: Vec<u32>,
}

/// What became of one outbound file: of a flow file one fate for each line, in order; of a packet or a request one.
#[derive(Debug, Drop)]
pub struct TookFile {
    pub kind: Kind,
    pub fates: Vec<Fate>,
}

/// What became of a file of the outbound.
#[derive(Debug, Drop)]
pub enum FileEnd {
    /// It is gone, or over its limit: nothing was taken.
    Stays,
    /// It was taken in.
    Took(TookFile),
    /// It was moved, and is a packet or a request of more than 2,147,483,647 bytes. It waits as the take of that number.
    Over(u32),
}

/// Why a take-in didn't end.
#[derive(Debug, Drop)]
pub enum TakeFault {
    /// The disk failed: the store must be opened again, and the next take-in goes on.
    Disk,
    /// The mark of another program stands: nothing was taken. It is the name of its file.
    Marked(Bytes),
    /// No place in the ledger, or no number. What was moved so far waits.
    Full,
    /// No memory. What was moved so far waits.
    NoMemory,
}

/// A line of a take before it is queued.
#[derive(Clone, Copy, Debug, PartialEq, Eq)]
pub(crate) enum Line {
    /// Its fate is known.
    Is(Fate),
    /// The next file of those that are to be queued is its.
    File,
}

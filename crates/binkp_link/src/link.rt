//! A line to a peer and a sink for text, as a session uses them.
ghost use Rattle.std.specs.Prelude.{◌≡◌, ◌<◌, false, length, OnOk, OnErr};
ghost use Rattle.binkp_link.specs.Lines.{LineState, SinkState, IsRead, IsWrite, PutsAll, PutsFront, shut};

use ftn_addr::Failed;

/// What a read answers.
#[derive(Clone, Copy, Debug, PartialEq, Eq)]
pub enum ReadAnswer {
    /// So many bytes came into the front of the buffer, at least one.
    Came(usize),
    /// The peer ended the line.
    End,
    /// Nothing is there, and the read doesn't wait.
    NotYet,
    /// Nothing came while the read waited.
    Quiet,
    Failed,
}

/// What a write answers.
#[derive(Clone, Copy, Debug, PartialEq, Eq)]
pub enum WriteAnswer {
    /// So many bytes were taken from the front of the piece, at least one.
    Wrote(usize),
    Quiet,
    Failed,
}

/// A line to a peer. Contracts see its counts, whether it is closed on this side and, where it tells them, its
/// bytes. A closed line is neither read nor written.
pub trait Line {
    ghost state: { Self → LineState };

    /// How often a call failed.
    fn faults(&self) -> u64
        ensures { result ≡ (state self.now).faults };

    /// The number of Quiets since a byte last moved.
    fn calm(&self) -> u64
        ensures { result ≡ (state self.now).calm };

    /// How often a read answered [`ReadAnswer::End`].
    fn ends(&self) -> u64
        ensures { result ≡ (state self.now).ends };

    /// Whether the last read or write moved no byte; false before the first.
    fn idle(&self) -> bool
        ensures { result ≡ (state self.now).idle };

    fn read(&mut self, out: &mut [u8], wait: bool) -> ReadAnswer
        requires some { 0 < length out.old }
        requires open { (state self.old).closed ≡ false }
        ensures { IsRead wait (state self.old) result out.new (state self.new) };

    fn write(&mut self, bytes: &[u8]) -> WriteAnswer
        requires some { 0 < length bytes.now }
        requires open { (state self.old).closed ≡ false }
        ensures { IsWrite (state self.old) result bytes.now (state self.new) };

    /// Ends the line on this side.
    fn close(&mut self)
        ensures { state self.new ≡ shut (state self.old) };
}

/// Where text for the user goes. Contracts see its count of faults and, where it tells them, its bytes.
pub trait Sink {
    ghost state: { Self → SinkState };

    /// How often a call failed.
    fn faults(&self) -> u64
        ensures { result ≡ (state self.now).faults };

    /// Puts all bytes, or fails after a front of them.
    fn put(&mut self, bytes: &[u8]) -> Result<(), Failed>
        ensures ok { OnOk result (PutsAll bytes.now (state self.old) (state self.new)) }
        ensures err { OnErr result (PutsFront bytes.now (state self.old) (state self.new)) };
}

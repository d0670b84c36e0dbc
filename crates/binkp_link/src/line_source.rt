//! Where lines come from, as a mailer that serves many uses them.
ghost use Rattle.std.specs.Prelude.{◌≡◌, OnOk, OnErr};
ghost use Rattle.ftn_addr.specs.Counts.{next_count};
ghost use Rattle.binkp_link.specs.LineSources.{LinesState, IsDialled, IsNext, IsOut, handed_back, listening};

use crate::Line;
use ftn_addr::{Bytes, Failed};

/// Who calls next.
#[derive(Debug, Drop)]
pub enum NextLine<L> {
    /// A caller, on this line.
    Came(L),
    /// Nobody called for a while.
    Nothing,
    /// Nobody will call any more.
    Stop,
    Failed,
}

/// What came of a call to a host.
#[derive(Debug, Drop)]
pub enum Dialled<L> {
    Line(L),
    Failed,
}

/// How often listening or waiting for a caller failed, how often a dial did, how often nobody called, how often the end
/// was answered, and how many lines were given.
#[derive(Clone, Copy, Debug, PartialEq, Eq)]
pub struct LineCounts {
    pub faults: u64,
    pub misses: u64,
    pub nothings: u64,
    pub stops: u64,
    pub given: u64,
}

/// A source of lines. Contracts see its counts and, where it tells them, its lines, by the place at which each was given,
/// from 0, and what was listened on and dialled.
pub trait Lines {
    type One: Line + Send;

    ghost state: { Self → LinesState };

    fn counts(&self) -> LineCounts
        ensures { result ≡ (state self.now).counts };

    /// Waits for callers at a port from now on.
    fn listen(&mut self, port: u16) -> Result<(), Failed>
        ensures ok { OnOk result (state self.new ≡ listening port (state self.old)) }
        ensures err { OnErr result (state self.new ≡ record (state self.old) { counts = record (state self.old).counts { faults = next_count (state self.old).counts.faults } }) };

    /// The next caller.
    fn next(&mut self) -> NextLine<Self::One>
        ensures { IsNext Self.One.state result (state self.old) (state self.new) };

    /// Calls a host at a port.
    fn dial(&mut self, host: &Bytes, port: u16) -> Dialled<Self::One>
        ensures { IsDialled Self.One.state result host.now.list port (state self.old) (state self.new) };

    /// Takes the line of a place back, once. This takes no memory.
    fn back(&mut self, place: u32, line: Self::One)
        requires { IsOut place (state self.old) }
        ensures { state self.new ≡ handed_back place (Self.One.state line) (state self.old) };
}

//! The acts of the scripts that a line in memory plays.
ghost use Rattle.std.specs.Prelude.{◌≡◌};
ghost use Rattle.binkp_link.specs.Scripts.{act_bytes, act_of};

use ftn_addr::Bytes;

/// What a read finds. After the last act it finds the line's end.
#[derive(Debug, Drop)]
pub enum ReadAct {
    /// These bytes, which aren't empty. What doesn't fit the buffer is left for the next read.
    Bytes(Bytes),
    /// Nothing is there yet. A read that waits passes over it.
    NotYet,
    /// Nothing comes while a read waits. A read that doesn't wait leaves it there.
    Quiet,
    Failed,
}

impl ReadAct {
    /// The bytes that it gives.
    pub fn bytes(&self) -> &[u8]
        ensures { result.now ≡ act_bytes (act_of self.now) }
    {
        match self {
            ReadAct::Bytes(bytes) => bytes.as_slice(),
            ReadAct::NotYet | ReadAct::Quiet | ReadAct::Failed => &[],
        }
    }
}

/// What a write finds. The last act repeats, and with no act a write takes all.
#[derive(Clone, Copy, Debug, PartialEq, Eq)]
pub enum WriteAct {
    /// The write takes at most so many bytes, at least one.
    Take(u32),
    Quiet,
    Failed,
}

//! What happened to a disk in memory, one item a change.
ghost use Rattle.std.specs.Prelude.{◌≡◌};
ghost use Rattle.mem_disk.specs.Holding.{is_call, is_sync, in_part};

use crate::block::Block;
use disk_model::Name;

/// A call, or what a test put outside.
#[derive(Drop)]
pub enum Call {
    /// A call that only read, or failed and left nothing.
    Nothing,
    /// Bytes from a place on.
    Wrote(Name, usize, Block),
    /// Cut to a length.
    Shortened(Name, usize),
    Synced(Name),
    Created(Name),
    Removed(Name),
    /// From the first name to the second.
    Renamed(Name, Name),
    /// A test put an outside file of that path, bytes and time. This is no call of the disk.
    Placed(Block, Block, u64),
    /// An outside file has that path, those bytes and that time now.
    PutOut(Block, Block, u64),
    /// The outside file is gone.
    LostOut(Block),
    /// From the path to the own name.
    Moved(Block, Name),
    /// An own file made anew with these bytes.
    Copied(Name, Block),
    /// The own name, the folder, the name in it, and their path.
    Given(Name, Block, Block, Block),
}

impl Call {
    /// Whether it counts as a call of the disk.
    pub fn is_call(&self) -> bool
        ensures { result ≡ is_call self.now }
    {
        !matches!(self, Call::Placed(..))
    }

    pub fn is_sync(&self) -> bool
        ensures { result ≡ is_sync self.now }
    {
        matches!(self, Call::Synced(_))
    }

    /// What is left of it where it fails. It takes no memory.
    pub fn in_part(self) -> Call
        ensures { result ≡ in_part self }
    {
        match self {
            Call::Wrote(name, at, bytes) => Call::Wrote(name, at, bytes.first_half()),
            _ => Call::Nothing,
        }
    }
}

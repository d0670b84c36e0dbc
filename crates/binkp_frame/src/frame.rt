ghost use Rattle.std.specs.Prelude.{◌≡◌, ◌<◌};
ghost use Rattle.ftn_addr.specs.Frames.{header};

use ftn_addr::Bytes;

/// What one frame carries.
#[derive(Debug, PartialEq, Eq, Drop)]
pub enum Frame {
    /// A command's number, and its argument of at most 32,766 bytes.
    Command { number: u8, args: Bytes },
    /// 1 to 32,767 bytes of a file.
    Data { bytes: Bytes },
}

/// What the two bytes before a frame's data say.
#[derive(Clone, Copy, Debug, PartialEq, Eq)]
pub struct Head {
    /// Whether the frame is a command's.
    pub command: bool,
    /// The length of the frame's data in bytes, at most 32,767.
    pub len: u16,
}

/// Reads a header (FTS-1026): the top bit is 1 for a command, and the low 15 bits
/// are the data's length.
pub fn head_of(bytes: [u8; 2]) -> Head
    ensures spelled { header result.command result.len ≡ bytes }
    ensures short { result.len < 32768 }
{
    let [high, low] = bytes;
    Head {
        command: high >= 128,
        len: u16::from(high % 128) * 256 + u16::from(low),
    }
}

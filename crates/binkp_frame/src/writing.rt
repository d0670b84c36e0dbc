ghost use Rattle.std.specs.Prelude.{◌≡◌, ◌≤◌, [], ◌∷◌, ◌++◌, length, OnOk, OnErr, IsOk};
ghost use Rattle.ftn_addr.specs.Frames.{FrameText, CanSend, frame_bytes};
ghost use Rattle.binkp_frame.specs.Stream.{Splits};
ghost use Rattle.binkp_frame.specs.Views.{frame_text};

use crate::frame::Frame;
use ftn_addr::{Bytes, NoMemory};

/// Writes a frame at the end of `out`. The argument of a command has at most 32,766 bytes, and data has
/// 1 to 32,767. With enough room this takes no memory.
///
/// # Errors
/// `NoMemory`: `out` holds what it held.
pub fn put_frame(frame: &Frame, out: &mut Bytes) -> Result<(), NoMemory>
    requires { CanSend (frame_text frame.now) }
    ensures ok { OnOk result (out.new.list ≡ out.old.list ++ frame_bytes (frame_text frame.now)) }
    ensures err { OnErr result (out.new.list ≡ out.old.list) }
    ensures within { length (frame_bytes (frame_text frame.now)) ≤ out.old.spare → IsOk result }
{
    match frame {
        Frame::Command { number, args } => {
            let args = args.as_slice();
            let len = args.len() + 1;
            out.reserve(2 + len)?;
            out.push_slice(&[128 + (len / 256) as u8, (len % 256) as u8, *number])?;
            out.push_slice(args)
        }
        Frame::Data { bytes } => {
            let bytes = bytes.as_slice();
            let len = bytes.len();
            out.reserve(2 + len)?;
            out.push_slice(&[(len / 256) as u8, (len % 256) as u8])?;
            out.push_slice(bytes)
        }
    }
}

/// What is sent is read as the same frame, with nothing left over.
pub fn reads_what_is_sent()
    ensures { (frame : FrameText) → CanSend frame → Splits (frame_bytes frame) (frame ∷ []) [] }
{}

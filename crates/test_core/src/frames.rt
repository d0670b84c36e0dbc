//! Frames, read from a stream and written.
ghost use Rattle.ftn_addr.specs.Frames.{CanSend};
ghost use Rattle.binkp_frame.specs.Views.{frame_text};

use anyhow::{Result, bail};
use binkp_frame::{Decoder, Frame, head_of, put_frame};
use ftn_addr::{Bytes, MAX_FRAME_DATA};
use std::alloc::Global;
use test_script::{bytes, shown};

/// How many of the bytes that were written are printed.
const FRONT: usize = 20;

/// What a header of two bytes tells.
pub fn head(alloc: Global, word: &str) -> Result<String> {
    let header = bytes(alloc, word)?;
    let [high, low] = header.as_slice() else {
        bail!("no header");
    };
    let head = head_of([*high, *low]);
    let kind = if head.command { "command" } else { "data" };
    Ok(format!(in alloc; "{kind} of {} bytes", head.len)?)
}

fn push_frame(alloc: Global, frame: &Frame, text: &mut String) -> Result<()> {
    let (kind, bytes) = match frame {
        Frame::Command { number, args } => (format!(in alloc; "command {number}")?, args),
        Frame::Data { bytes } => (String::from_str(alloc, "data")?, bytes),
    };
    let bytes = shown(alloc, bytes.as_slice())?;
    let told = format!(in alloc; "{kind} \"{bytes}\", ")?;
    text.push_str(told.as_str())?;
    Ok(())
}

fn told(alloc: Global, frames: &[Frame], left: usize) -> Result<String> {
    let mut text = String::new(alloc);
    for frame in frames {
        push_frame(alloc, frame, &mut text)?;
    }
    let left = format!(in alloc; "{left} left")?;
    text.push_str(left.as_str())?;
    Ok(text)
}

/// The frames of a stream that comes in these pieces, and the number of bytes left over.
pub fn feed(alloc: Global, pieces: &[&str]) -> Result<String> {
    let mut decoder = Decoder::new(alloc);
    let mut frames = Vec::new(alloc);
    for piece in pieces {
        let piece = bytes(alloc, piece)?;
        decoder.feed(alloc, piece.as_slice(), &mut frames)?;
    }
    told(alloc, frames.as_slice(), decoder.rest_len())
}

// Whether a stream that comes byte by byte is this frame, and the number of bytes left over.
fn read_again(alloc: Global, stream: &[u8], frame: &Frame) -> Result<String> {
    let mut decoder = Decoder::new(alloc);
    let mut frames = Vec::new(alloc);
    for byte in stream {
        decoder.feed(alloc, &[*byte], &mut frames)?;
    }
    let is_same = matches!(frames.as_slice(), [read] if *read == *frame);
    let kind = if is_same { "the same" } else { "another" };
    let left = decoder.rest_len();
    Ok(format!(in alloc; "read as {kind}, {left} left")?)
}

// The front of what is written of a frame, its length, and what is read of it byte by byte.
fn put(alloc: Global, frame: &Frame) -> Result<String>
    requires { CanSend (frame_text frame.now) }
{
    let mut spelled = Bytes::new(alloc);
    put_frame(frame, &mut spelled)?;
    let stream = spelled.as_slice();
    let front = shown(alloc, stream.get(..FRONT).unwrap_or(stream))?;
    let again = read_again(alloc, stream, frame)?;
    Ok(format!(in alloc; "\"{front}\" of {} bytes, {again}", stream.len())?)
}

/// Writes a command's frame, and reads it again.
pub fn put_command(alloc: Global, number: u8, args: &Bytes) -> Result<String> {
    if args.len() >= MAX_FRAME_DATA {
        bail!("too long an argument");
    }
    let args = args.copy(alloc)?;
    put(alloc, &Frame::Command { number, args })
}

/// Writes a frame of so many bytes, and reads it again.
pub fn put_data(alloc: Global, len: usize, byte: &str) -> Result<String> {
    let mut bytes = Bytes::new(alloc);
    for _ in 0..len {
        bytes.push_slice(byte.as_bytes())?;
    }
    if bytes.is_empty() || bytes.len() > MAX_FRAME_DATA {
        bail!("no length of a frame");
    }
    put(alloc, &Frame::Data { bytes })
}

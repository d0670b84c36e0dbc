ghost use Rattle.std.specs.Prelude.{◌≡◌, ◌+◌, ◌*◌, ◌<◌, ◌≤◌, [], ◌++◌, ℕ, List, length, drop, OnOk, OnErr, IfOk, IfSome, IfNone, option_map};
ghost use Rattle.std.specs.Option.{option_to_list};
ghost use Rattle.ftn_addr.specs.Frames.{FrameText, frame_of, spelling};
ghost use Rattle.binkp_frame.specs.Stream.{IsPartial, Splits, Feeds};
ghost use Rattle.binkp_frame.specs.Views.{Extends, frame_text, frame_texts};

use crate::frame::{Frame, head_of};
use ftn_addr::{Bytes, NoMemory};
use std::alloc::Global;
use std::marker::Model;
use std::mem::swap;

/// Reads the frames of a stream that comes in pieces. It holds the bytes that are no whole frame yet.
#[derive(Drop)]
pub struct Decoder {
    rest: Bytes,
    // Room in which the rest behind whole frames is put together.
    room: Bytes,
}

impl Model for Decoder {
    ghost use Rattle.std.specs.Prelude.{List, ℕ};
    ghost use Rattle.binkp_frame.specs.Stream.{IsPartial};

    ghost Value = { List ℕ };

    ghost view = { λ d. d.rest.list };

    ghost invariant = { λ d. IsPartial d.rest.list };
}

/// Whether the first block is a command's, its data, and the bytes behind it. Only the header is looked
/// at, so a frame that comes byte by byte costs the same for each byte.
fn split_block(bytes: &[u8]) -> Option<(bool, &[u8], &[u8])>
    ensures some { IfSome result (λ x. bytes.now ≡ spelling (record { command = x.0; body = x.1.now }) ++ x.2.now) }
    ensures short { IfSome result (λ x. length x.1.now < 32768) }
    ensures shorter { IfSome result (λ x. length x.2.now < length bytes.now) }
    ensures none { IfNone result (IsPartial bytes.now) }
{
    let [high, low, behind @ ..] = bytes else {
        return None;
    };
    let head = head_of([*high, *low]);
    let len = usize::from(head.len);
    if behind.len() < len {
        return None;
    }
    let (body, after) = behind.split_at(len);
    Some((head.command, body, after))
}

fn frame_from(alloc: Global, command: bool, body: &[u8]) -> Result<Option<Frame>, NoMemory>
    ensures { IfOk result (λ frame. option_map frame_text frame ≡ frame_of command body.now) }
{
    match body {
        [] => Ok(None),
        [number, args @ ..] if command => Ok(Some(Frame::Command {
            number: *number,
            args: Bytes::from_slice(alloc, args)?,
        })),
        _ => Ok(Some(Frame::Data {
            bytes: Bytes::from_slice(alloc, body)?,
        })),
    }
}

/// Adds the frame of one block, of which an empty one has none.
fn push_frame(
    alloc: Global,
    command: bool,
    body: &[u8],
    out: &mut Vec<Frame>,
) -> Result<(), NoMemory>
    ensures ok { OnOk result (frame_texts out.new.items ≡ frame_texts out.old.items ++ option_to_list (frame_of command body.now)) }
    ensures kept { Extends out.old.items out.new.items }
{
    if let Some(frame) = frame_from(alloc, command, body)? {
        out.push(frame)?;
    }
    Ok(())
}

/// Adds the whole frames at the front of the bytes, and says how many bytes they take.
fn take_frames(alloc: Global, bytes: &[u8], out: &mut Vec<Frame>) -> Result<usize, NoMemory>
    ensures within { IfOk result (λ taken. taken ≤ length bytes.now) }
    ensures taken { IfOk result (λ taken. Feeds (frame_texts out.old.items) bytes.now (frame_texts out.new.items) (drop taken bytes.now)) }
    ensures kept { Extends out.old.items out.new.items }
{
    let mut rest = bytes;
    while let Some((command, body, after)) = split_block(rest) {
        push_frame(alloc, command, body, out)?;
        rest = after;
    }
    Ok(bytes.len() - rest.len())
}

/// Leaves the bytes behind the first `taken`. They are copied into `room`, and the two change places, so that a long list costs no
/// more for each byte than a short one.
fn keep_behind(rest: &mut Bytes, room: &mut Bytes, taken: usize) -> Result<(), NoMemory>
    requires { taken ≤ length rest.old.list }
    ensures ok { OnOk result (rest.new.list ≡ drop taken rest.old.list) }
    ensures err { OnErr result (rest.new.list ≡ rest.old.list) }
{
    room.clear();
    room.push_slice(&rest.as_slice()[taken..])?;
    swap(rest, room);
    Ok(())
}

/// Moves the whole frames at the front of the rest to the end of `out`.
fn split_off(
    alloc: Global,
    rest: &mut Bytes,
    room: &mut Bytes,
    out: &mut Vec<Frame>,
) -> Result<(), NoMemory>
    ensures ok { OnOk result (Feeds (frame_texts out.old.items) rest.old.list (frame_texts out.new.items) rest.new.list) }
    ensures err { OnErr result (rest.new.list ≡ rest.old.list) }
    ensures kept { Extends out.old.items out.new.items }
{
    match take_frames(alloc, rest.as_slice(), out) {
        // A piece that makes no frame whole moves no byte that is held.
        Ok(0) => Ok(()),
        Ok(taken) => keep_behind(rest, room, taken),
        Err(error) => Err(error),
    }
}

impl Decoder {
    /// A decoder at the start of a stream. This takes no memory.
    pub fn new(alloc: Global) -> Decoder
        ensures { result ≡ [] }
    {
        Decoder {
            rest: Bytes::new(alloc),
            room: Bytes::new(alloc),
        }
    }

    /// Takes the next piece of the stream, and adds the frames that are whole now at the end of `out`: of a piece of n bytes at
    /// most (n + 2) / 3, whatever was held.
    ///
    /// # Errors
    /// `NoMemory`: the piece isn't taken, and `out` is as before.
    pub fn feed(
        &mut self,
        alloc: Global,
        piece: &[u8],
        out: &mut Vec<Frame>,
    ) -> Result<(), NoMemory>
        ensures ok { OnOk result (Feeds (frame_texts out.old.items) (self.old ++ piece.now) (frame_texts out.new.items) self.new) }
        ensures kept { Extends out.old.items out.new.items }
        ensures few { OnOk result (3 * length out.new.items ≤ 3 * length out.old.items + length piece.now + 2) }
        ensures err { OnErr result (self.new ≡ self.old) }
        ensures err_out { OnErr result (out.new.items ≡ out.old.items) }
    {
        let held = self.rest.len();
        let before = out.len();
        self.rest.push_slice(piece)?;
        match split_off(alloc, &mut self.rest, &mut self.room, out) {
            Ok(()) => Ok(()),
            Err(error) => {
                self.rest.truncate(held);
                out.truncate(before);
                Err(error)
            }
        }
    }

    /// The number of bytes held that are no whole frame.
    pub fn rest_len(&self) -> usize
        ensures count { result ≡ length self.now }
        ensures partial { IsPartial self.now }
    {
        self.rest.len()
    }
}

/// The frames of a stream, and what it has no whole frame for, are determined by its bytes.
pub fn reads_one_way()
    ensures { (stream rest left : List ℕ) (frames others : List FrameText) → Splits stream frames rest → Splits stream others left → (frames ≡ others) × (rest ≡ left) }
{}

/// It doesn't matter how a stream is cut into pieces: what a first and a second piece give, one behind
/// the other, is what both give together.
pub fn pieces_add_up()
    ensures { (old mid new : List FrameText) (stream piece rest left : List ℕ) → Feeds old stream mid rest → Feeds mid (rest ++ piece) new left → Feeds old (stream ++ piece) new left }
{}

/// A piece of n bytes makes at most (n + 2) / 3 frames whole, whatever was held before it; so an empty one makes none.
pub fn pieces_make_few()
    ensures { (rest piece left : List ℕ) (frames : List FrameText) → IsPartial rest → Splits (rest ++ piece) frames left → 3 * length frames ≤ length piece + 2 }
{}

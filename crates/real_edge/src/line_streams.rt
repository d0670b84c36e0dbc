//! What a line of the system stands over: a socket, or the standard streams.
ghost use Rattle.std.specs.Prelude.{◌≡◌, IfOk};
ghost use Rattle.binkp_link.specs.Tallies.{nothing_counted};

use crate::poller::Poller;
use crate::ready_streams::{ReadyReader, ReadyWriter};
use crate::waiting_line::{WaitingLine, is_not_yet};
use crate::waits::{Ends, ReadsAhead, Waits};
use std::io;
use std::io::{BufReader, Read, Write};
use std::net::{Net, OpenStream, Shutdown};
use std::os::fd::AsRawFd;
use std::time::Duration;

// How often an ended socket is looked at, at most, and how many milliseconds lie between two looks, at most. These two bound the time, to
// 2 seconds in all, however the peer's bytes come.
const MOST_LOOKS: u32 = 40;

const BETWEEN_LOOKS: u64 = 50;

// How many looks on end may find nothing: they bound a silence, to 250 milliseconds.
const MOST_QUIET: u32 = 5;

// How many reads of 4,096 bytes a look makes at most. They bound a look where bytes come without end, to a mebibyte.
const MOST_READS: u32 = 256;

// How many bytes are read from the system at once, at most. A session takes them in smaller pieces.
const READ_AHEAD: usize = 65_536;

/// Where the bytes of a line come from.
#[derive(Drop)]
pub enum LineInput<S, I> {
    Socket(BufReader<S>),
    Standard(BufReader<ReadyReader<I, Poller>>),
}

impl<S: Read, I: Read> Read for LineInput<S, I> {
    fn read(&mut self, buf: &mut [u8]) -> io::Result<usize> {
        match self {
            LineInput::Socket(socket) => socket.read(buf),
            LineInput::Standard(input) => input.read(buf),
        }
    }
}

impl<S: Read, I: Read> ReadsAhead for LineInput<S, I> {
    fn holds_bytes(&self) -> bool {
        match self {
            LineInput::Socket(socket) => !socket.buffer().is_empty(),
            LineInput::Standard(input) => !input.buffer().is_empty(),
        }
    }
}

/// Where they go to. The calls of the socket answer `WouldBlock` where they would wait.
#[derive(Drop)]
pub enum LineOutput<S, O> {
    Socket(S),
    Standard(ReadyWriter<O, Poller>),
}

impl<S: Write, O: Write> Write for LineOutput<S, O> {
    fn write(&mut self, buf: &[u8]) -> io::Result<usize> {
        match self {
            LineOutput::Socket(socket) => socket.write(buf),
            LineOutput::Standard(output) => output.write(buf),
        }
    }

    fn flush(&mut self) -> io::Result<()> {
        match self {
            LineOutput::Socket(socket) => socket.flush(),
            LineOutput::Standard(output) => output.flush(),
        }
    }
}

/// What a look at an ended socket found.
#[derive(Clone, Copy)]
enum Look {
    Nothing,
    Bytes,
    End,
}

/// Passes over what has come.
fn pass_over<S: Read>(socket: &mut S) -> io::Result<Look> {
    let mut passed_over = [0; 4096];
    let mut found = Look::Nothing;
    for _ in 0..MOST_READS {
        match socket.read(&mut passed_over) {
            Ok(0) => return Ok(Look::End),
            Ok(_) => found = Look::Bytes,
            Err(error) if is_not_yet(error.kind()) => return Ok(found),
            Err(error) => return Err(error),
        }
    }
    Ok(found)
}

/// Tells the peer that no more comes, and passes over what it still sends, for a while: where some of it were left, the system would
/// take back what the peer hasn't read yet.
///
/// Behind a look that found bytes the whole time to the next one is waited: so many small pieces cost one look, and a megabyte under way
/// is passed over wherever it comes within the time.
fn end_socket<S: Read + OpenStream, W: Waits>(socket: &mut S, waits: &mut W) -> io::Result<()> {
    socket.shutdown(Shutdown::Write)?;
    let time = Duration::from_millis(BETWEEN_LOOKS);
    let mut quiet: u32 = 0;
    for _ in 0..MOST_LOOKS {
        match pass_over(socket)? {
            Look::End => return Ok(()),
            Look::Bytes => {
                quiet = 0;
                waits.pause(time)?;
            }
            Look::Nothing if quiet >= MOST_QUIET => return Ok(()),
            Look::Nothing => {
                quiet = quiet.saturating_add(1);
                waits.for_input(time)?;
            }
        }
    }
    Ok(())
}

impl<S: Read + OpenStream, O> Ends for LineOutput<S, O> {
    fn end<W: Waits>(&mut self, waits: &mut W) {
        match self {
            // Where it can't be told, the peer sees the end of the line alone.
            LineOutput::Socket(socket) => {
                let _ = end_socket(socket, waits);
            }
            LineOutput::Standard(output) => output.end(waits),
        }
    }
}

/// A line over a socket, or over the standard streams.
pub type SystemLine<S, I, O> = WaitingLine<LineInput<S, I>, LineOutput<S, O>, Poller>;

/// The line over an input and an output whose calls would wait, as the standard streams are.
pub fn standard_line<R: Net + AllocGlobal, I: Read + AsRawFd + Drop, O: Write + AsRawFd + Drop>(
    runtime: &R,
    input: I,
    output: O,
) -> io::Result<SystemLine<R::Stream, I, O>>
    ensures { IfOk result (λ line. line.tally ≡ nothing_counted) }
{
    let alloc = runtime.alloc();
    let (reads, writes) = (input.as_raw_fd(), output.as_raw_fd());
    let input = ReadyReader::new(input, Poller::of_streams(runtime, alloc, reads, writes)?);
    let input = BufReader::with_capacity(alloc, READ_AHEAD, input)?;
    let output = ReadyWriter::new(output, Poller::of_streams(runtime, alloc, reads, writes)?);
    Ok(WaitingLine::new(
        LineInput::Standard(input),
        LineOutput::Standard(output),
        Poller::of_streams(runtime, alloc, reads, writes)?,
    ))
}

/// The line over a socket.
pub fn socket_line<R: Net + AllocGlobal, I: Drop, O: Drop>(
    runtime: &R,
    socket: R::Stream,
) -> io::Result<SystemLine<R::Stream, I, O>>
    ensures { IfOk result (λ line. line.tally ≡ nothing_counted) }
{
    socket.set_nonblocking(true)?;
    // Where small pieces can't be sent at once they go out later.
    let _ = socket.set_nodelay(true);
    let waits = Poller::of_socket(runtime, runtime.alloc(), socket.as_raw_fd())?;
    let output = LineOutput::Socket(socket.try_clone()?);
    let input = LineInput::Socket(BufReader::with_capacity(runtime.alloc(), READ_AHEAD, socket)?);
    Ok(WaitingLine::new(input, output, waits))
}

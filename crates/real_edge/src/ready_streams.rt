//! Streams whose calls would wait, made such as answer `WouldBlock` instead.
ghost use Rattle.std.specs.Prelude.{◌≡◌};

use crate::waits::{Ends, Waits};
use std::io;
use std::io::{ErrorKind, Read, Write};
use std::time::Duration;

// The most bytes of one write to a stream that would wait for room: so many a pipe takes at once where it is ready at all.
const MOST_AT_ONCE: usize = 4096;

/// A reader that answers `WouldBlock` where the one below would wait, as that of standard input does.
#[derive(Drop)]
pub struct ReadyReader<I, W> {
    input: I,
    waits: W,
}

impl<I, W> ReadyReader<I, W> {
    pub fn new(input: I, waits: W) -> ReadyReader<I, W>
        ensures { result.input ≡ input }
    {
        ReadyReader { input, waits }
    }
}

impl<I: Read, W: Waits> Read for ReadyReader<I, W> {
    ghost remaining = { λ reader. I.remaining reader.input };

    fn read(&mut self, buf: &mut [u8]) -> io::Result<usize> {
        if self.waits.for_input(Duration::ZERO)? {
            self.input.read(buf)
        } else {
            Err(ErrorKind::WouldBlock.into())
        }
    }
}

/// A writer that answers `WouldBlock` where the one below would wait, as that of standard output does. It takes few bytes at once.
#[derive(Drop)]
pub struct ReadyWriter<O, W> {
    output: O,
    waits: W,
}

impl<O, W> ReadyWriter<O, W> {
    pub fn new(output: O, waits: W) -> ReadyWriter<O, W>
        ensures { result.output ≡ output }
    {
        ReadyWriter { output, waits }
    }
}

impl<O: Write, W: Waits> Write for ReadyWriter<O, W> {
    ghost contents = { λ writer. O.contents writer.output };

    fn write(&mut self, buf: &[u8]) -> io::Result<usize> {
        let ready = self.waits.for_output(Duration::ZERO, false)?;
        if ready.output {
            self.output.write(&buf[..buf.len().min(MOST_AT_ONCE)])
        } else {
            Err(ErrorKind::WouldBlock.into())
        }
    }

    fn flush(&mut self) -> io::Result<()> {
        self.output.flush()
    }
}

/// The system ends such a stream with the program.
impl<O, W> Ends for ReadyWriter<O, W> {
    fn end<V: Waits>(&mut self, _waits: &mut V) {}
}

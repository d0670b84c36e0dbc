//! Lines of the system, and where they come from.
ghost use Rattle.std.specs.Prelude.{◌≡◌, ◌<◌, false, length};

use crate::front::Front;
use crate::given::{Input, Output};
use crate::steps::{plain, said, step};
use anyhow::Result;
use binkp_link::{Dialled, Line, Lines, NextLine, ReadAnswer, WriteAnswer};
use real_edge::{SystemLine, SystemLines};
use std::alloc::Global;
use std::net::TcpStream;
use test_script::bytes;

/// A line over a socket, or over pipes or files.
pub type Socket = SystemLine<TcpStream, Input, Output>;

pub type Source<'a, 't> = SystemLines<Front<'a, 't>, Input, Output>;

/// How many writes are made at most until one is no more taken.
const MOST_WRITES: u32 = 1_000_000;

/// How many turns two lines take at most.
const MOST_TURNS: u32 = 1_000_000;

/// The most bytes of one write of theirs.
const PIECE: usize = 1_048_576;

/// A line that isn't closed.
#[derive(Drop)]
pub struct Wire {
    line: Socket,
    ghost open: { line.tally.closed ≡ false },
}

impl Wire {
    /// Makes the call of these words: what it answers.
    pub fn step(&mut self, alloc: Global, words: &[&str]) -> Result<String> {
        step(alloc, &mut self.line, words)
    }

    fn write(&mut self, bytes: &[u8]) -> WriteAnswer
        requires { 0 < length bytes.now }
    {
        self.line.write(bytes)
    }

    // Writes the same bytes again and again: the answer that isn't that bytes went out.
    fn pour(&mut self, bytes: &[u8]) -> WriteAnswer
        requires { 0 < length bytes.now }
    {
        for _ in 0..MOST_WRITES {
            match self.write(bytes) {
                WriteAnswer::Wrote(_) => {}
                answer => return answer,
            }
        }
        WriteAnswer::Failed
    }

    // Writes so many bytes at most, once: how many went out.
    fn send(&mut self, bytes: &[u8], left: usize) -> usize {
        let piece = &bytes[..bytes.len().min(left)];
        if piece.is_empty() {
            return 0;
        }
        match self.write(piece) {
            WriteAnswer::Wrote(many) => many,
            WriteAnswer::Quiet | WriteAnswer::Failed => 0,
        }
    }

    // Reads what has come, once: how many bytes.
    fn take(&mut self) -> usize {
        let mut buffer = [0; 65_536];
        match self.line.read(&mut buffer, false) {
            ReadAnswer::Came(many) => many,
            _ => 0,
        }
    }

    /// Closes the line, which is gone then.
    pub fn close(self) {
        let Wire { mut line } = self;
        line.close();
    }

    /// Hands the line back.
    pub fn back(self, lines: &mut Source<'_, '_>) {
        let Wire { line } = self;
        if lines.counts().given > 0 {
            lines.back(0, line);
        }
    }
}

/// Writes pieces of so many bytes until one is no more taken.
pub fn pour(alloc: Global, wire: &mut Wire, piece: usize) -> Result<String> {
    let bytes = vec![in alloc; b'x'; piece]?;
    if bytes.is_empty() {
        return plain(alloc, "nothing is written");
    }
    said(alloc, wire.pour(bytes.as_slice()))
}

// What one of two lines has sent, and what came to it.
#[derive(Clone, Copy)]
struct Moved {
    sent: usize,
    came: usize,
}

impl Moved {
    fn turn(&mut self, wire: &mut Wire, bytes: &[u8], all: usize) {
        let sent = wire.send(bytes, all.saturating_sub(self.sent));
        let came = wire.take();
        self.sent = self.sent.saturating_add(sent);
        self.came = self.came.saturating_add(came);
    }

    fn is_done(&self, all: usize) -> bool {
        self.sent >= all && self.came >= all
    }
}

// Each of two lines sends so many bytes to the other one, in turn. Whether they all came.
fn exchange_all(near: &mut Wire, far: &mut Wire, bytes: &[u8], all: usize) -> bool {
    let (mut by_near, mut by_far) = (Moved { sent: 0, came: 0 }, Moved { sent: 0, came: 0 });
    for _ in 0..MOST_TURNS {
        by_near.turn(near, bytes, all);
        by_far.turn(far, bytes, all);
        if by_near.is_done(all) && by_far.is_done(all) {
            return true;
        }
    }
    false
}

/// The same in pieces of at most a mebibyte.
pub fn exchange(alloc: Global, near: &mut Wire, far: &mut Wire, all: usize) -> Result<String> {
    let bytes = vec![in alloc; b'x'; PIECE]?;
    let text = if exchange_all(near, far, bytes.as_slice(), all) {
        "whole"
    } else {
        "short"
    };
    plain(alloc, text)
}

/// The next line, which is put into a place.
pub fn next(alloc: Global, lines: &mut Source<'_, '_>, place: &mut Option<Wire>) -> Result<String> {
    match lines.next() {
        NextLine::Came(line) => {
            *place = Some(Wire { line });
            plain(alloc, "Came")
        }
        NextLine::Nothing => plain(alloc, "Nothing"),
        NextLine::Stop => plain(alloc, "Stop"),
        NextLine::Failed => plain(alloc, "Failed"),
    }
}

/// The line to a host, which is put into a place.
pub fn dial(
    alloc: Global,
    lines: &mut Source<'_, '_>,
    place: &mut Option<Wire>,
    host: &str,
    port: u16,
) -> Result<String> {
    let host = bytes(alloc, host)?;
    match lines.dial(&host, port) {
        Dialled::Line(line) => {
            *place = Some(Wire { line });
            plain(alloc, "Line")
        }
        Dialled::Failed => plain(alloc, "Failed"),
    }
}

/// What the lines count.
pub fn tally(alloc: Global, lines: &Source<'_, '_>) -> Result<String> {
    let counts = lines.counts();
    let (faults, misses) = (counts.faults, counts.misses);
    let (nothings, stops, given) = (counts.nothings, counts.stops, counts.given);
    Ok(format!(in alloc;
        "{faults} faults {misses} misses {nothings} nothings {stops} stops {given} given"
    )?)
}

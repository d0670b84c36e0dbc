//! A line over what a script says, and streams that don't wait over it.
ghost use Rattle.std.specs.Prelude.{◌≡◌, false};

use crate::scripted::Scripted;
use crate::steps::{plain, said, step};
use anyhow::Result;
use binkp_link::Line;
use real_edge::{Ends, LineOutput, ReadyReader, ReadyWriter, WaitingLine};
use std::alloc::Global;
use std::io::{Read, Write};
use std::{io, str};
use test_script::{number, word};

/// A line that isn't closed.
#[derive(Drop)]
pub struct Script<'a, 't> {
    line: WaitingLine<Scripted<'a, 't>, Scripted<'a, 't>, Scripted<'a, 't>>,
    ghost open: { line.tally.closed ≡ false },
}

impl<'a, 't> Script<'a, 't> {
    pub fn new(over: Scripted<'a, 't>) -> Script<'a, 't> {
        Script {
            line: WaitingLine::new(over, over, over),
        }
    }

    /// Makes the call of these words: what it answers.
    pub fn step(&mut self, alloc: Global, words: &[&str]) -> Result<String> {
        step(alloc, &mut self.line, words)
    }

    /// Closes the line, which is gone then: its counts.
    pub fn close(self, alloc: Global) -> Result<String> {
        let Script { mut line } = self;
        line.close();
        said(alloc, (line.faults(), line.calm(), line.ends()))
    }
}

// The text of the first bytes.
fn text_of(buffer: &[u8], many: usize) -> &str {
    str::from_utf8(buffer.get(..many).unwrap_or(&[])).unwrap_or("?")
}

// The bytes that a read gives, or the kind of its failure.
fn read(alloc: Global, over: Scripted<'_, '_>) -> Result<String> {
    let mut buffer = [0; 16];
    match ReadyReader::new(over, over).read(&mut buffer) {
        Ok(0) => plain(alloc, "nothing"),
        Ok(many) => plain(alloc, text_of(&buffer, many)),
        Err(error) => said(alloc, error.kind()),
    }
}

fn moved(alloc: Global, answer: io::Result<usize>) -> Result<String> {
    match answer {
        Ok(many) => said(alloc, many),
        Err(error) => said(alloc, error.kind()),
    }
}

fn write(alloc: Global, over: Scripted<'_, '_>, words: &[&str]) -> Result<String> {
    let many = usize::try_from(number(words, 1)?)?;
    let bytes = vec![in alloc; b'x'; many]?;
    moved(alloc, ReadyWriter::new(over, over).write(bytes.as_slice()))
}

fn end(alloc: Global, over: Scripted<'_, '_>) -> Result<String> {
    let mut writer = ReadyWriter::new(over, over);
    let mut waits = over;
    writer.end(&mut waits);
    moved(alloc, writer.flush().map(|()| 0))
}

// Ends a socket: how many milliseconds went by.
fn end_socket(mut over: Scripted<'_, '_>) -> u64 {
    let start = over.seen.clock.get().unwrap_or(0);
    let mut output: LineOutput<Scripted<'_, '_>, Scripted<'_, '_>> = LineOutput::Socket(over);
    output.end(&mut over);
    let now = over.seen.clock.get().unwrap_or(0);
    now.saturating_sub(start)
}

/// Makes the call of these words on a socket: what it answers.
pub fn socket(alloc: Global, over: Scripted<'_, '_>, words: &[&str]) -> Result<String> {
    let time = end_socket(over);
    if word(words, 0) == "time" {
        over.seen.take();
    }
    said(alloc, time)
}

/// Makes the call of these words on a stream that doesn't wait: what it answers.
pub fn ready(alloc: Global, over: Scripted<'_, '_>, words: &[&str]) -> Result<String> {
    match word(words, 0) {
        "read" => read(alloc, over),
        "write" => write(alloc, over, words),
        _ => end(alloc, over),
    }
}

//! A reader, a writer, and what waits for them, which answer as a script says.
ghost use Rattle.std.specs.Prelude.{◌≤◌, length};

use crate::seen::{Seen, fault, next};
use real_edge::{Ends, ReadsAhead, Ready, Waits};
use std::alloc::Global;
use std::io::{Read, Write};
use std::net::{OpenStream, Shutdown};
use std::time::Duration;
use std::{io, str};

/// The most bytes that are noted one by one.
const MOST_SHOWN: usize = 16;

/// All three.
#[derive(Clone, Copy)]
pub struct Scripted<'a, 't> {
    pub alloc: Global,
    pub seen: &'a Seen<'t>,
}

// Puts as many of some bytes as fit.
fn fill(buf: &mut [u8], bytes: &[u8]) -> usize
    ensures { result ≤ length buf.new }
{
    let many = bytes.len().min(buf.len());
    buf[..many].copy_from_slice(&bytes[..many]);
    many
}

impl<'a, 't> Scripted<'a, 't> {
    fn note_number(&self, call: &str, number: u64) -> io::Result<()> {
        let text = format!(in self.alloc; "{call} {number}")?;
        self.seen.note(text.as_str());
        Ok(())
    }

    // A write, with its bytes, or with their number where they are many.
    fn note_write(&self, buf: &[u8]) -> io::Result<()> {
        if buf.len() > MOST_SHOWN {
            return self.note_number("write", buf.len() as u64);
        }
        let bytes = str::from_utf8(buf).unwrap_or("?");
        let text = format!(in self.alloc; "write {bytes}")?;
        self.seen.note(text.as_str());
        Ok(())
    }

    // What the next wait finds. One that finds nothing takes all its time.
    fn found(&self, most: Duration) -> io::Result<Ready> {
        let word = next(&self.seen.waits, "nothing");
        if let Some(kind) = fault(word) {
            return Err(io::Error::from(kind));
        }
        if word == "nothing" {
            self.seen.pass(milliseconds(most));
        }
        Ok(Ready {
            input: word == "input" || word == "both",
            output: word == "output" || word == "both",
        })
    }
}

fn milliseconds(time: Duration) -> u64 {
    u64::try_from(time.as_millis()).unwrap_or(u64::MAX)
}

impl<'a, 't> Read for Scripted<'a, 't> {
    fn read(&mut self, buf: &mut [u8]) -> io::Result<usize> {
        self.note_number("read", buf.len() as u64)?;
        let word = next(&self.seen.reads, "block");
        if let Some(kind) = fault(word) {
            return Err(io::Error::from(kind));
        }
        if word == "end" {
            return Ok(0);
        }
        Ok(fill(buf, word.as_bytes()))
    }
}

impl<'a, 't> ReadsAhead for Scripted<'a, 't> {
    fn holds_bytes(&self) -> bool {
        next(&self.seen.holds, "nothing") == "bytes"
    }
}

impl<'a, 't> Write for Scripted<'a, 't> {
    fn write(&mut self, buf: &[u8]) -> io::Result<usize> {
        self.note_write(buf)?;
        let word = next(&self.seen.writes, "all");
        if let Some(kind) = fault(word) {
            return Err(io::Error::from(kind));
        }
        Ok(word.parse::<usize>().unwrap_or(usize::MAX).min(buf.len()))
    }

    fn flush(&mut self) -> io::Result<()> {
        self.seen.note("flush");
        Ok(())
    }
}

impl<'a, 't> Ends for Scripted<'a, 't> {
    fn end<W: Waits>(&mut self, _waits: &mut W) {
        self.seen.note("end");
    }
}

impl<'a, 't> OpenStream for Scripted<'a, 't> {
    fn shutdown(&self, how: Shutdown) -> io::Result<()> {
        self.seen.note(match how {
            Shutdown::Read => "shut reads",
            Shutdown::Write => "shut writes",
            Shutdown::Both => "shut both",
        });
        Ok(())
    }
}

impl<'a, 't> Waits for Scripted<'a, 't> {
    fn for_input(&mut self, most: Duration) -> io::Result<bool> {
        self.note_number("await input", milliseconds(most))?;
        let ready = self.found(most)?;
        Ok(ready.input)
    }

    fn for_output(&mut self, most: Duration, heeds_input: bool) -> io::Result<Ready> {
        let call = if heeds_input {
            "await either"
        } else {
            "await output"
        };
        self.note_number(call, milliseconds(most))?;
        self.found(most)
    }

    fn pause(&mut self, time: Duration) -> io::Result<()> {
        self.note_number("pause", milliseconds(time))?;
        self.seen.pass(milliseconds(time));
        Ok(())
    }
}

//! Lines of the system whose standard streams are pipes, or files.
use crate::front::Front;
use crate::given::{Input, Output};
use crate::stage::PATIENCE;
use crate::wires::Source;
use anyhow::{Context, Result};
use real_edge::{SystemLines, standard_line};
use std::fs::File;
use std::io::{PipeReader, PipeWriter, Read, Write, pipe};
use std::time::Duration;
use std::{fs, io, str};

/// The other ends of the pipes.
#[derive(Drop)]
pub struct Peer {
    says: Option<PipeWriter>,
    hears: Option<PipeReader>,
}

impl Peer {
    pub fn none() -> Peer {
        Peer {
            says: None,
            hears: None,
        }
    }

    /// Says these bytes.
    pub fn say(&mut self, bytes: &[u8]) -> Result<bool> {
        let says = self.says.as_mut().context("a pipe")?;
        says.write_all(bytes)?;
        Ok(true)
    }

    /// Hears a piece of what was said to it.
    pub fn hear(&mut self, rt: &HostRuntime) -> Result<String> {
        let mut buffer = [0; 16];
        let hears = self.hears.as_mut().context("a pipe")?;
        let many = hears.read(&mut buffer)?;
        let text = str::from_utf8(buffer.get(..many).unwrap_or(&[])).unwrap_or("?");
        Ok(String::from_str(rt.alloc(), text)?)
    }

    /// Says no more.
    pub fn end(&mut self) -> Result<bool> {
        self.says = None;
        Ok(true)
    }

    /// Hears no more.
    pub fn leave(&mut self) -> Result<bool> {
        self.hears = None;
        Ok(true)
    }
}

// The lines over these standard streams.
fn over<'a, 't>(front: Front<'a, 't>, input: Input, output: Output) -> io::Result<Source<'a, 't>> {
    let stop_file = String::from_str(front.rt.alloc(), "stop")?;
    let line = standard_line(&front, input, output)?;
    Ok(SystemLines::new(front, Some(line), stop_file, Duration::from_secs(PATIENCE)))
}

/// The lines without standard streams, which wait for a caller for a second; the others do so for five.
pub fn over_nothing<'a, 't>(front: Front<'a, 't>) -> io::Result<Source<'a, 't>> {
    let stop_file = String::from_str(front.rt.alloc(), "stop")?;
    Ok(SystemLines::new(front, None, stop_file, Duration::from_secs(1)))
}

pub fn over_pipes<'a, 't>(front: Front<'a, 't>, peer: &mut Peer) -> io::Result<Source<'a, 't>> {
    let (input, says) = pipe(&front.rt)?;
    let (hears, output) = pipe(&front.rt)?;
    peer.says = Some(says);
    peer.hears = Some(hears);
    over(front, Input::Pipe(input), Output::Pipe(output))
}

/// Over a file of these bytes and an empty one.
pub fn over_files<'a, 't>(front: Front<'a, 't>, text: &str) -> io::Result<Source<'a, 't>> {
    fs::write(&front.rt, "given", text)?;
    let input = File::open(&front.rt, "given")?;
    let output = File::create(&front.rt, "sent")?;
    over(front, Input::File(input), Output::File(output))
}

/// The text of a file.
pub fn show(rt: &HostRuntime, path: &str) -> Result<String> {
    match fs::read_to_string(rt, path) {
        Ok(text) => Ok(text),
        Err(_) => Ok(String::from_str(rt.alloc(), "none")?),
    }
}

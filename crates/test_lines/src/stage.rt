//! What a script plays over.
use crate::front::Front;
use crate::script::{Script, ready, socket};
use crate::scripted::Scripted;
use crate::seen::Seen;
use crate::standard::{Peer, over_files, over_nothing, over_pipes, show};
use crate::steps::{plain, said};
use crate::wires::{Source, Wire, dial, exchange, next, pour, tally};
use anyhow::{Context, Result};
use binkp_link::Lines;
use std::alloc::Global;
use std::net::TcpListener;
use std::time::Instant;
use std::{fs, io};
use test_script::{behind, number, word, words_from, words_of};

/// After so many seconds a call has waited.
pub const PATIENCE: u64 = 5;

#[derive(Drop)]
pub struct Stage<'a, 't> {
    rt: HostRuntime,
    seen: &'a Seen<'t>,
    /// A line over what the script says.
    script: Option<Script<'a, 't>>,
    /// The lines of the system, and the other ends of their standard streams.
    lines: Option<Source<'a, 't>>,
    peer: Peer,
    /// The line that was dialled last, and the one that came last.
    near: Option<Wire>,
    far: Option<Wire>,
}

// An empty file.
fn put(rt: &HostRuntime, path: &str) -> Result<bool> {
    fs::write(rt, path, "")?;
    Ok(true)
}

fn put_folder(rt: &HostRuntime, path: &str) -> Result<bool> {
    fs::create_dir(rt, path)?;
    Ok(true)
}

// A port that nobody listens on any more.
fn unheard_port(rt: &HostRuntime) -> io::Result<u16> {
    let listener = TcpListener::bind(rt, "127.0.0.1:0")?;
    Ok(listener.local_addr()?.port())
}

// Makes the call of these words on a line, which is gone behind some of them.
fn play_wire(
    alloc: Global,
    place: &mut Option<Wire>,
    lines: &mut Option<Source<'_, '_>>,
    words: &[&str],
) -> Result<String> {
    match word(words, 0) {
        "pour" => play_pour(alloc, place, words),
        "close" => close(alloc, place),
        "back" => back(alloc, place, lines),
        _ => play_step(alloc, place, words),
    }
}

fn play_step(alloc: Global, place: &mut Option<Wire>, words: &[&str]) -> Result<String> {
    match place {
        Some(wire) => wire.step(alloc, words),
        None => plain(alloc, "no line"),
    }
}

fn play_pour(alloc: Global, place: &mut Option<Wire>, words: &[&str]) -> Result<String> {
    let piece = usize::try_from(number(words, 1)?)?;
    match place {
        Some(wire) => pour(alloc, wire, piece),
        None => plain(alloc, "no line"),
    }
}

fn close(alloc: Global, place: &mut Option<Wire>) -> Result<String> {
    match place.take() {
        Some(wire) => wire.close(),
        None => {}
    }
    plain(alloc, "gone")
}

fn back(
    alloc: Global,
    place: &mut Option<Wire>,
    lines: &mut Option<Source<'_, '_>>,
) -> Result<String> {
    if let (Some(wire), Some(lines)) = (place.take(), lines) {
        wire.back(lines);
    }
    plain(alloc, "gone")
}

impl<'a, 't> Stage<'a, 't> {
    pub fn new(rt: HostRuntime, seen: &'a Seen<'t>) -> Stage<'a, 't> {
        Stage {
            rt,
            seen,
            script: None,
            lines: None,
            peer: Peer::none(),
            near: None,
            far: None,
        }
    }

    fn scripted(&self) -> Scripted<'a, 't> {
        Scripted {
            alloc: self.rt.alloc(),
            seen: self.seen,
        }
    }

    fn front(&self) -> Front<'a, 't> {
        Front {
            rt: self.rt,
            seen: self.seen,
        }
    }

    // The port of a word; the one told as `P` where it is none.
    fn port(&self, word: &str) -> u16 {
        match word.parse::<u16>() {
            Ok(port) => port,
            Err(_) => self.seen.port.get(),
        }
    }

    // Has the next calls of the system answer these words: whether the first one is of such calls.
    fn prepares(&self, call: &str, answers: &'t str) -> bool {
        if call == "clock" {
            self.seen.clock.set(answers.parse::<u64>().ok());
            return true;
        }
        match self.seen.answers_of(call) {
            Some(words) => {
                words.set(answers);
                true
            }
            None => false,
        }
    }

    // A new line over what the script says.
    fn make_script(&mut self) -> Result<bool> {
        self.script = Some(Script::new(self.scripted()));
        Ok(true)
    }

    // New lines of the system.
    fn make_lines(&mut self, words: &[&str]) -> Result<bool> {
        self.near = None;
        self.far = None;
        let lines = match word(words, 1) {
            "pipes" => over_pipes(self.front(), &mut self.peer),
            "files" => over_files(self.front(), word(words, 2)),
            _ => over_nothing(self.front()),
        };
        self.lines = Some(lines?);
        Ok(true)
    }

    // The port is one that nobody listens on.
    fn free_port(&self) -> Result<bool> {
        self.seen.port.set(unheard_port(&self.rt)?);
        Ok(true)
    }

    // Whether the words make something.
    fn makes(&mut self, words: &[&str]) -> Result<bool> {
        match word(words, 0) {
            "line" => self.make_script(),
            "lines" => self.make_lines(words),
            "free" => self.free_port(),
            "put" => put(&self.rt, word(words, 1)),
            "folder" => put_folder(&self.rt, word(words, 1)),
            "says" => self.peer.say(word(words, 1).as_bytes()),
            "ends" => self.peer.end(),
            "leaves" => self.peer.leave(),
            _ => Ok(false),
        }
    }

    fn listen(&mut self, words: &[&str]) -> Result<String> {
        let port = self.port(word(words, 1));
        let lines = self.lines.as_mut().context("lines")?;
        let answer = lines.listen(port);
        if answer.is_ok() {
            self.seen.port.set(lines.port().unwrap_or(0));
        }
        said(self.rt.alloc(), answer)
    }

    fn next(&mut self) -> Result<String> {
        let lines = self.lines.as_mut().context("lines")?;
        next(self.rt.alloc(), lines, &mut self.far)
    }

    fn dial(&mut self, words: &[&str]) -> Result<String> {
        let port = self.port(word(words, 2));
        let lines = self.lines.as_mut().context("lines")?;
        dial(self.rt.alloc(), lines, &mut self.near, word(words, 1), port)
    }

    fn tally(&self) -> Result<String> {
        let lines = self.lines.as_ref().context("lines")?;
        tally(self.rt.alloc(), lines)
    }

    fn exchange(&mut self, words: &[&str]) -> Result<String> {
        let all = usize::try_from(number(words, 1)?)?;
        let near = self.near.as_mut().context("a line")?;
        let far = self.far.as_mut().context("a line")?;
        exchange(self.rt.alloc(), near, far, all)
    }

    // Makes the call of these words on the line of the script.
    fn play_script(&mut self, words: &[&str]) -> Result<String> {
        let alloc = self.rt.alloc();
        if word(words, 0) == "close" {
            let script = self.script.take().context("a line")?;
            return script.close(alloc);
        }
        self.script.as_mut().context("a line")?.step(alloc, words)
    }

    fn near(&mut self, words: &[&str]) -> Result<String> {
        play_wire(self.rt.alloc(), &mut self.near, &mut self.lines, words)
    }

    fn far(&mut self, words: &[&str]) -> Result<String> {
        play_wire(self.rt.alloc(), &mut self.far, &mut self.lines, words)
    }

    // What the call of these words answers.
    fn answer(&mut self, words: &[&str]) -> Result<String> {
        let rest = words_from(words, 1);
        match word(words, 0) {
            "ready" => ready(self.rt.alloc(), self.scripted(), rest),
            "socket" => socket(self.rt.alloc(), self.scripted(), rest),
            "near" => self.near(rest),
            "far" => self.far(rest),
            "listen" => self.listen(words),
            "next" => self.next(),
            "dial" => self.dial(words),
            "tally" => self.tally(),
            "exchange" => self.exchange(words),
            "hears" => self.peer.hear(&self.rt),
            "show" => show(&self.rt, word(words, 1)),
            _ => self.play_script(words),
        }
    }

    // What the call of these words answers, and whether it waited.
    fn timed(&mut self, words: &[&str]) -> Result<(String, bool)> {
        let start = Instant::now(&self.rt)?;
        let answer = self.answer(words)?;
        let has_waited = start.elapsed(&self.rt)?.as_secs() >= PATIENCE;
        Ok((answer, has_waited))
    }

    // Prints what the call of a line answers, and the calls of the system that were seen.
    fn play_call(&mut self, line: &str, words: &[&str]) -> Result<()> {
        let (answer, has_waited) = self.timed(words)?;
        let seen = self.seen.take();
        print!(self.rt; "{line}: {answer}")?;
        if has_waited {
            print!(self.rt; " waited")?;
        }
        if !seen.as_str().is_empty() {
            print!(self.rt; " {}", seen.as_str())?;
        }
        println!(self.rt)?;
        Ok(())
    }

    /// Plays a line.
    pub fn play(&mut self, line: &'t str) -> Result<()> {
        if line.is_empty() {
            return Ok(());
        }
        if line.starts_with("#") {
            println!(self.rt; "{line}")?;
            return Ok(());
        }
        let words = words_of(self.rt.alloc(), line)?;
        let words = words.as_slice();
        if self.prepares(word(words, 0), behind(line)) || self.makes(words)? {
            return Ok(());
        }
        self.play_call(line, words)
    }
}

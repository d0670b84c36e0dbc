//! A real folder by script: each line of standard input is a call of the folder, what another program does there, or a session of the
//! mailer over it.
//!
//! No contract says what a file system does, so this stands in front of it: a runtime before the real one (`test_files`) notes each
//! call of the system with its paths, moves two bytes at a time, lets one call fail, and lets another program come before one. The
//! line of each call is printed with its answer and with the calls of the system that it made.
//!
//! ```text
//! # A file is made with its name.        printed as it stands
//! mkdir w1                               another program makes a folder, and nothing is printed
//! own w1                                 a new RealFolder over that folder
//! create a                               prints `create a: Ok(New) open w1/a,open w1,sync w1,`
//! .write a 0 abcde                       prints the answer alone
//! ~look d1/x                             prints nothing
//! fail 2 room                            the second call of the system behind this line fails, for want of room
//! race 2 link w1/a                       before the second call a link comes in place of that file
//! faults                                 prints the count of faults
//! told                                   prints it with the last reason
//! answer b1 \x80\x01\x05 frames:2        the mailer answers over that folder, and its caller says one piece after another: prints
//!                                        `answer: exit 0, sync b1,` with all syncs that the system was asked for
//! run b1 take                            its outbound is taken in, and the same is printed
//! ```
//!
//! Between the lines `prepare` and `ready` stands what `again` does anew, and what `each CALL` does before it lets each call of the
//! system that CALL makes fail in its turn. `calls.rt` has the calls of the folder, `others.rt` what other programs do, and
//! `sessions.rt` the mailer's sessions. A `\x` and two digits in a word are a byte, as in binkp's names, and `frames:N` is N data
//! frames of 16,384 bytes.
//!
//! A disk in memory counts its own syncs (`test_mailer`); those of a session here reach the system, the folder's own among them.
#![tactic(auto)]

mod calls;
mod others;
mod sessions;
mod stage;
mod words;

use anyhow::{Context, Result};
use stage::Stage;
use std::io;
use test_files::Seen;

// The lines from one place to another; all of them where there are no such places.
fn between<'l, 't>(lines: &'l [&'t str], first: usize, last: usize) -> &'l [&'t str] {
    lines.get(first..last).unwrap_or(lines)
}

// Plays all lines over one stage.
fn play(rt: HostRuntime, lines: &[&str]) -> Result<()> {
    let seen = Seen::new();
    let mut stage = Box::new(rt.alloc(), Stage::new(rt, &seen)?)?;
    let (mut first, mut last) = (0, 0);
    for (place, line) in lines.iter().enumerate() {
        match *line {
            "prepare" => first = place.saturating_add(1),
            "ready" => last = place,
            _ => stage
                .play(line, between(lines, first, last))
                .with_context(|| line)?,
        }
    }
    Ok(())
}

fn main(rt: HostRuntime) -> Result<()> {
    let text = io::read_to_string(rt.alloc(), rt.reader())?;
    let mut lines = Vec::new(rt.alloc());
    for line in text.lines() {
        lines.push(line)?;
    }
    play(rt, lines.as_slice())
}

//! The program's calls over a disk in memory, by script: each line of standard input is a call of the program, or what is done to
//! the disk before it or asked behind it. A line is printed for each with what came back.
//!
//! ```text
//! # A file is received.                printed as it stands
//! let LOGIN \x80\x12\x012:5047/13@..   a text by name: what is told is printed by the names of its texts, in turn
//! let CALL $LOGIN $OFFER $END          a text of texts
//! new $ADDRESS                         an empty disk, with these settings
//! settings $ADDRESS                    other settings in place of its own
//! long 99                              settings of an address and a comment, of so many bytes
//! own NAME BYTES, gone NAME            an own file is put, or removed
//! full 262144                          a ledger of so many takes is put
//! out PATH BYTES                       a file of another program comes
//! queue 13 one 1                       a file is queued for 2:5047/13: prints `queue 13 one 1: New(1)`
//! source PATH delete                   that file is queued for 2:5047/13, to be left, deleted or cut then
//! act, acts                            what the store answers that is to act on the next source, or whether it does
//! ends WORD..                          how the program ends with these words, where nobody calls
//! fail 3                               the third call of the disk in the next call of the program fails
//! answer < $LOGIN $OFFER $END          the call of these words, with a peer that says all that at once:
//!                                      prints `answer < ..: Done $GREETING $WELCOME`
//! call 2:5047/13 << $LOGIN $END        with a peer that says one piece after another
//! answer <~ ^0 $LOGIN 60*~ !          over a line whose reads find this: `60*~` nothing, sixty times, and `!` that it is broken. It takes
//!                                      nothing of what is written behind `^0`, no write behind `^1`, two behind `^3`, all behind `-`,
//!                                      and so behind `%1`, where the first put to the output fails
//! run list                             the command of these words, which holds no session
//! serve 0 60 | $CALL | ~ | !           a node serves with a clock of these moments while these call: a peer that says all that at once,
//!                                      nobody for a while, and a failure to wait for one; behind the last it is told to stop
//! dials $LOGIN $END | !                what the dials of the next `serve` reach: a peer that says one piece after another, and nobody
//! deaf 0 | ~                           a node that serves and can't listen
//! ~answer < $LOGIN                     prints nothing
//! if $GOT LINE, else LINE              the line is played where what was told ends so, or where it didn't
//! ```
//!
//! Each call of the program begins over the disk as a stop leaves it, at which nothing unsynced lasts; `reopen` does that alone.
//! `asks.rt` has what may be asked.
//!
//! Between the lines `prepare` and `ready` stands what is done anew before each trial, of which there are four kinds. The lines
//! behind each, to the line `end`, are played over what it leaves. What they print is printed once, and again with the place where it
//! differs from the first.
//!
//! ```text
//! stops CALL                           CALL is stopped behind each number of its disk's calls, at each pick of an image
//! leaves CALL                          CALL is stopped behind all of them, at each pick
//! fails CALL                           each call of CALL's disk fails in its turn
//! breaks CALL                          each call of CALL's disk fails in its turn, and behind CALL the disk is stopped, at each pick
//! ```
#![tactic(auto)]

mod asks;
mod calls;
mod made;
mod serving;
mod stage;
mod texts;
mod trials;

use stage::Stage;
use std::io;
use std::sync::Wait;
use std::test::Fail;
use test_script::{between, lines_of};
use trials::{Trial, is_trial};

// Plays a line, or the trial that begins so, and prints what it says.
fn play<W: Wait + Drop>(
    rt: HostRuntime,
    stage: &mut Stage<W>,
    trial: &Trial<'_>,
) -> Result<(), Fail> {
    let played = if is_trial(trial.line) {
        trial.all(stage)
    } else {
        stage.play(trial.line)
    };
    let _ = print!(rt; "{}", stage.take_said());
    played
}

// Plays all lines over one stage.
fn play_all<W: Wait + Drop>(rt: HostRuntime, wait: W, lines: &[&str]) -> Result<(), Fail> {
    let mut stage = Box::new(rt.alloc(), Stage::new(wait, rt.alloc()))?;
    let (mut first, mut last, mut head) = (0, 0, None);
    for (place, line) in lines.iter().enumerate() {
        match *line {
            "prepare" => first = place.saturating_add(1),
            "ready" => last = place,
            _ if is_trial(line) => head = Some(place),
            _ if head.is_some() && *line != "end" => {}
            _ => {
                let start = head.take().unwrap_or(place);
                let trial = Trial {
                    line: lines.get(start).copied().unwrap_or(""),
                    prepared: between(lines, first, last),
                    then: between(lines, start.saturating_add(1), place),
                };
                play(rt, &mut stage, &trial)?;
            }
        }
    }
    Ok(())
}

fn main(rt: HostRuntime) -> Result<(), Fail> {
    let text = io::read_to_string(rt.alloc(), rt.reader())?;
    let lines = lines_of(rt.alloc(), text.as_str())?;
    play_all(rt, rt, lines.as_slice())
}

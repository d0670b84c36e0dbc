//! A node's store over a disk in memory, by script: each line of standard input is a call of a store, or what is done to the disk
//! before it or asked behind it. A line is printed for each with what came back.
//!
//! ```text
//! # A file is taken once.              printed as it stands
//! new                                  an empty disk: nothing is printed of it, nor of the next four
//! out PATH BYTES 900000000             a file of another program comes, of that time, which may be left out
//! append PATH BYTES                    another program adds to a file, or makes it
//! own NAME BYTES                       an own file is put
//! reopen                               the disk is stopped, and nothing unsynced lasts
//! open                                 what an opening finds: prints `open: 1 wait, 0 removed: NAME 1 waits`
//! takes                                the same, but for what it removes
//! take PATH                            an outside file is taken, as a normal flow file for 2:5020/1042: prints its number, whether
//!                                      it stood, and the takes that stand then
//! finish                               the first take is recorded, and removed: prints the takes that stand between, and then
//! stage                                the first take is staged
//! mark PATH TEXT                       the busy mark of 2:5047/13 is made
//! unmark PATH TEXT                     it is made, and taken away
//! intake 2 7                           the outbound `out` is taken in for 2:5047/13.7: prints the fates of each file
//! ~take PATH                           prints nothing
//! ```
//!
//! Each of these opens a store of 2:5020/1042@fidonet, over the disk as a stop leaves it at which nothing unsynced lasts. So do these
//! questions, behind which the disk is empty:
//!
//! ```text
//! see PATH, list FOLDER                an outside file, and the names in an outside folder
//! piece PATH 3 9                       the file is taken, and read from its byte 3 on, at most 9
//! queued                               how many files are queued
//! behind 2 7                           takes in as `intake`: prints the fates, what `list` tells, and the files and folders in `in`
//!                                      and `out`
//! ends 2 7                             the same, but for the fates
//! ```
//!
//! These ask the disk itself, and the last two no disk:
//!
//! ```text
//! names FOLDER, show PATH              the names in an outside folder, and the bytes of an outside file, of which a copy is left in
//!                                      the own folder
//! read NAME, holds NAME BYTES          the bytes of an own file, and whether they are these
//! calls 9                              the greatest of these numbers that is no more than the calls of the disk; 0 where none is
//! file take 3                          the name of the third take, a crash flow file for 2:5020/1042.7; `mark` its mark's note; `out`
//!                                      and `in` a queued and a received file
//! number take NAME                     the number in the name of a take; `queued` and `received` in that of such a file
//! ```
//!
//! Between the lines `prepare` and `ready` stands what `again` does anew, and what is done anew before each trial. The lines behind
//! a trial, to the line `end`, are played over what it leaves. What comes of it is printed, each different outcome once.
//!
//! ```text
//! stops CALL                           CALL is stopped behind each number of its disk's calls, at each pick of an image
//! breaks CALL                          each call of CALL's disk fails in its turn, and behind CALL the disk is stopped, at each pick
//! again                                the image is made anew
//! only Disk                            what comes is played only where this was printed at last
//! left 1 2 5                           the greatest of these numbers that is no more than the calls that were still to come
//! ```
//!
//! In a word `\x` and two digits are a byte, `{d*1019}` is 1,019 times d, and `{40000}` so many bytes that go from 0 to 250 again and
//! again.
#![tactic(auto)]

mod calls;
mod intakes;
mod names;
mod stage;
mod texts;
mod trials;

use stage::Stage;
use std::io;
use std::test::Fail;
use test_script::{between, lines_of};
use trials::{Trial, is_trial};

// Plays a line, or the trial that begins so, and prints what it says. A line that can't be played is printed.
fn play(rt: HostRuntime, stage: &mut Stage, trial: &Trial<'_>) -> Result<(), Fail> {
    match trial.play(stage) {
        Ok(said) => {
            print!(rt; "{}", said.as_str())?;
            Ok(())
        }
        Err(fail) => {
            let _ = println!(rt; "{}: not played", trial.line);
            Err(fail)
        }
    }
}

// Plays all lines over one stage.
fn play_all(rt: HostRuntime, lines: &[&str]) -> Result<(), Fail> {
    let mut stage = Box::new(rt.alloc(), Stage::new(rt.alloc()))?;
    let (mut first, mut last, mut head) = (0, 0, None);
    for (place, line) in lines.iter().enumerate() {
        match *line {
            "prepare" => first = place.saturating_add(1),
            "ready" => last = place,
            _ if is_trial(line) => head = Some(place),
            _ if head.is_some() && *line != "end" => {}
            _ => {
                let start = head.take().unwrap_or(place);
                let trial = Trial {
                    line: lines.get(start).copied().unwrap_or(""),
                    prepared: between(lines, first, last),
                    then: between(lines, start.saturating_add(1), place),
                };
                play(rt, &mut stage, &trial)?;
            }
        }
    }
    Ok(())
}

fn main(rt: HostRuntime) -> Result<(), Fail> {
    let text = io::read_to_string(rt.alloc(), rt.reader())?;
    let lines = lines_of(rt.alloc(), text.as_str())?;
    play_all(rt, lines.as_slice())
}

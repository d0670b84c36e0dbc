//! The seats of a hub over a store in memory, and the calls of that store, by script: each line of standard input is a call, and is
//! printed with what came back.
//!
//! Files are those of the nodes of 2:5020, under a name and with a size; all have one time. `FILE` is three words of a line: the
//! node, the name and the size, as `1042 a.txt 5`. A line that makes something prints nothing, and neither does one with `~` before
//! it. A call whose conditions aren't met isn't made: it prints `condition not met`.
//!
//! ```text
//! # A sentence                         printed as it stands
//! store 3                              a new store whose third call fails; `store`: of which none does
//! put_out out/a.txt hello 7            another program puts a file, which changed at that time
//! queue FILE Normal hello              these bytes are staged and queued for the node: `queue ..: Ok([New(1)])`
//! copy out/a.txt                       a file of another program is staged
//! queue_copy FILE Normal from PATH Cut a file of another program is staged and queued, and is then to be left, deleted or cut
//! act 1042                             acts on the next source of a file for that node
//! reserve 2, release 2                 places are reserved, and given back
//! open FILE                            a part of that file is opened, or opened again
//! put 1 hello                          bytes come behind those of the part of that number
//! mark 1                               what it has is marked
//! commit 1 secure                      it is received in session 7, which is secure; where it isn't: `commit 1`
//! refuse FILE                          the file is refused for its size in session 7
//! read_receipt 1 3                     at most eight bytes of a received file, from a place on
//! give                                 the next received file is given, to `in` where its session was secure, else to `new`
//! answer 1                             the request of that receipt is answered with no file
//! read 1 3                             at most eight bytes of a queued file, from a place on
//! done 1 7                             a queued file is settled in that session
//! take 4                               a take is recorded that brought no file
//! by 3                                 the records from now on are of that seat
//! counts                               faults, answers `Full`, whether the store is broken, records, reserved places
//! lists                                how many files were queued, staged, received, refused and given, and stand outside
//! entries, staged, receipts            the queued files, the staged ones, and those received
//! gifts, records, takes                what was given away, the records, and the takes recorded
//! content out/a.txt                    what stands under that path
//! known FILE                           what is known of a file of that node, and its mark
//! live 1042                            the flavour and number of the first file for that node; of the next one: `live 1042 Crash 2`
//! size 1                               the size of a queued file
//! hub 2 100 .exe                       a hub over the store, at the second of its two seats: two sessions may answer, and files above 100
//!                                      bytes and those whose names end so are refused. The calls below are its own
//! over                                 the hub is over, and leaves its store
//! seat 0                               the calls are made at that seat
//! knock Answers                        a session would answer, or would be one that `Calls`
//! begin 1042                           a session answers that node; `begin 1042 7` calls one that has both addresses
//! leave                                the session ends
//! file a.txt 5 0                       the peer offers a file of that name and size from a place
//! data hello                           bytes of it come
//! next                                 the number of the next file that the peer is offered
//! offers 3                             the same, whether it is that number
//! read 1 3                             so many bytes of what is offered, from a place on; at most eight
//! got, skip                            the peer has it, or doesn't want it now
//! ```
//!
//! The lines between `prepare` and `ready` are played by `each COUNT FROM` alone, for so many numbers, of which each stands for
//! `%`. It prints what came of them, and again where that is other than for the number before.
//!
//! A `\x` and two digits are a byte, in a word and in what is printed. There a `\` is `\x5c`.
#![tactic(auto)]

mod asks;
mod bare_store;
mod calls;
mod queueing;
mod receiving;
mod seats;
mod settling;
mod stage;
mod words;

use anyhow::Result;
use stage::Stage;
use std::io;
use test_script::{between, lines_of};

// Plays all lines over one stage.
fn play(rt: HostRuntime, lines: &[&str]) -> Result<()> {
    let mut stage = Box::new(rt.alloc(), Stage::new(rt)?)?;
    let (mut first, mut last, mut waits) = (0, 0, false);
    for (place, line) in lines.iter().enumerate() {
        if *line == "prepare" {
            first = place.saturating_add(1);
            waits = true;
        } else if *line == "ready" {
            last = place;
            waits = false;
        } else if !waits {
            stage.play(line, between(lines, first, last))?;
        }
    }
    Ok(())
}

fn main(rt: HostRuntime) -> Result<()> {
    let text = io::read_to_string(rt.alloc(), rt.reader())?;
    let lines = lines_of(rt.alloc(), text.as_str())?;
    play(rt, lines.as_slice())
}

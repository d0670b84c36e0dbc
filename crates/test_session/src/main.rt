//! Sessions by script: each line of standard input is what a test does with a node and its peer, or with two nodes.
//!
//! The nodes, their stores and their lines are in memory (`mem_talk`). A line that makes something, or queues a file, prints
//! nothing; a call is printed with what came of it. A file is written by its number and size: `7:4097` is `f007.dat` of 4,097
//! bytes.
//!
//! ```text
//! # Lines of a peer                       printed as it stands
//! node 1                                  a node with nothing in it; also `node 1 refusing 3.dat`, `node 1 above 99999`,
//!                                         `node 1 ending 147`, `node 1 knowing 2 PASSWORD`
//! queue 2 1:9000 2:0                      it queues these files for the node 2
//! peer                                    a peer of its session, which answers; of one that calls the node 2: `peer 2`
//! say 3 login 2; end | file 1:9000 0      says two phrases, and lets the session make three turns. It prints what is heard, with
//!                                         a bar in place of the phrases behind the bar where it ends with these
//! ends 3 login 2 | file 1:9000 0          the same, whether what is heard ends with these
//! tell 3 login 2                          the same, and nothing is read or printed
//! cut 4                                   the line ends, and the session makes four turns
//! report                                  what came of the session, where that is over
//! moved                                   the bytes that the session took and wrote
//! receipts                                the files that the node received, with their bytes
//! records                                 its records
//! left                                    how many of its files aren't settled
//! has 2 1:5 2:5                           whether it received these of the node 2, each once and whole, and no others
//! keeps 2 1:9000                          how many bytes of that file of the node 2 it keeps, where that isn't whole
//! again                                   the next session of that node, which answers
//! leave                                   the node as the session left it, for the next `peer`, `far` or `pair`
//! # Lines of a node that nobody talks to
//! slow 300000 login 2                     its session answers these phrases over a line that takes one byte of each write, in at most so
//!                                         many turns. It prints how many it made up to its end, the most bytes that were left to write
//!                                         behind one of them, what came of it, and the bytes that it took and wrote
//! deaf 300000 login 2                     the same over a line that takes nothing
//! # Lines of two nodes
//! far                                     the node is to be the far one of two
//! pair                                    the node is the near one, beside that one
//! queue_near 2 1:9000                     the near node queues a file for the node 2; `queue_far` is of the other one
//! call 4376                               the near one calls the far one, over a line that is cut behind so many bytes; over a
//!                                         whole one: `call`
//! reports                                 what came of the call, at the near node and at the far one
//! both_end                                how it ended, at the near node and at the far one
//! stores                                  how many files each has left to send, has received, and has refused
//! both 1:5 | 2:5                          whether they have received these files, as `has` says
//! far_has 1:5                             the same of the far one alone
//! far_keeps 1:5                           how many bytes of that file the far one keeps
//! far_records                             its records
//! secure                                  whether each has one receipt, of a secure session
//! cross 1 2 3                             the node 1 calls the node 2, and is called by it as node 3 meanwhile. With `cut` behind,
//!                                         the first session is cut once the file is offered in it
//! rename_far 3                            the far node has another address, and no other settings
//! ```
//!
//! With `~` before it a call prints nothing. The lines between `prepare` and `ready` are played by `each COUNT FROM STEP MODULO`
//! alone, for so many numbers, of which each stands for `N`. It prints what came of them, and again where that is other than
//! for the number before.
//!
//! `phrases.rt` has what a peer says. A `\x` and two digits there are a byte, as in what is printed. `times 5 PHRASE` says a phrase
//! so often, `front 5 PHRASE` its first bytes alone.
#![tactic(auto)]

mod nodes;
mod pairs;
mod peers;
mod phrases;
mod shown;
mod slow;
mod stage;
mod words;

use anyhow::Result;
use stage::Stage;
use std::io;
use test_script::{between, lines_of};

// Plays all lines over one stage.
fn play(rt: HostRuntime, lines: &[&str]) -> Result<()> {
    let mut stage = Box::new(rt.alloc(), Stage::new(rt))?;
    let (mut first, mut last, mut waits) = (0, 0, false);
    for (place, line) in lines.iter().enumerate() {
        if *line == "prepare" {
            first = place.saturating_add(1);
            waits = true;
        } else if *line == "ready" {
            last = place;
            waits = false;
        } else if !waits {
            stage.play(line, between(lines, first, last))?;
        }
    }
    Ok(())
}

fn main(rt: HostRuntime) -> Result<()> {
    let text = io::read_to_string(rt.alloc(), rt.reader())?;
    let lines = lines_of(rt.alloc(), text.as_str())?;
    play(rt, lines.as_slice())
}

//! Lines of the system by script: each line of standard input is a call of a line, of a stream below one, or of what lines come from.
//!
//! No contract says what a socket or a pipe does, nor for how long a call waits. So this stands in front of both: a line over a reader,
//! a writer and what waits for them, which answer as the script says, and lines of the system over a runtime that notes what it is
//! asked for. Each call is printed with its answer and with these calls in their order. Behind the answer of a call that took five
//! seconds or more stands `waited`.
//!
//! ```text
//! # A write goes out whole.              printed as it stands
//! line                                   a new line over what the script says
//! reads hello block end                  what the next reads below it find: bytes, nothing yet, the end; also `interrupted` and
//!                                        `broken`; nothing yet where no word is left
//! holds bytes nothing                    whether bytes are held that were read ahead, where a write asks; none where no word is left
//! writes 2 block                         what the next writes take: two bytes, nothing yet; all where no word is left
//! waits input                            what the next waits find: `input`, `output`, `both`, `nothing` or `broken`
//! read                                   a read that doesn't wait, of at most 16 bytes; `wait` is one that does: prints
//!                                        `read: Came hello read 16,`
//! write hello                            a write of these bytes
//! long 1048576                           a write of so many
//! counts                                 what the line counts, and whether its last call moved bytes
//! close                                  closes the line, which is gone then: prints its faults, calm and ends
//! ready read                             a read of a stream that doesn't wait, over the same; also `ready write 4097` and `ready end`
//! socket end                             ends a socket over the same: prints how many milliseconds went by on its clock, which moves
//!                                        with what waits and finds nothing; `socket time` prints that alone, without the calls
//! # Lines of the system
//! lines pipes                            new ones, whose standard streams are pipes; with `lines files hello` they are a file of these
//!                                        bytes and an empty one, and with `lines none` there are none. Where these listen they wait for
//!                                        a caller for a second, and the others for five
//! says hello                             the other end of the pipes says that; `ends`: it says no more
//! hears                                  it reads a piece of what was written; `leaves`: it reads no more
//! put stop                               makes an empty file, `folder stop` a folder; `show sent` prints a file
//! listen 0                               listens on a port; `P` is the port that they listen on
//! dial 127.0.0.1                         calls a host at the port P, or at that which stands behind; its line is `near` from then on
//! next                                   the next line, which is `far` from then on
//! near read                              the calls above on that line; `near pour 100` writes pieces of so many bytes until one isn't
//!                                        taken any more, `near back` hands the line back
//! exchange 4194304                       both lines send so many bytes to one another, in turn
//! tally                                  what the lines count
//! free                                   P is a port that nobody listens on
//! binds denied                           what the next listening answers; what the system does where no word is left. Also `refused`
//! accepts aborted                        the same of taking in a caller
//! removes denied                         the same of removing a file
//! hosts 192.0.2.1 127.0.0.1              the addresses of each host, or why they can't be told
//! dials silent                           what the next addresses do, or what the system does: a `silent` one takes all its time, a
//!                                        `hanging` one a minute, and a `late` one answers when its time is over
//! clock fails                            the clock can't be read; `clock 0` says what it reads. It moves with those addresses, and with
//!                                        waits over what the script says
//! ```
#![tactic(auto)]

mod front;
mod given;
mod script;
mod scripted;
mod seen;
mod stage;
mod standard;
mod steps;
mod wires;

use anyhow::{Context, Result};
use seen::Seen;
use stage::Stage;
use std::io;

// Plays all lines over one stage.
fn play<'t>(rt: HostRuntime, seen: &Seen<'t>, text: &'t str) -> Result<()> {
    let mut stage = Stage::new(rt, seen);
    for line in text.lines() {
        stage.play(line).with_context(|| line)?;
    }
    Ok(())
}

fn main(rt: HostRuntime) -> Result<()> {
    let text = io::read_to_string(rt.alloc(), rt.reader())?;
    let seen = Seen::new();
    play(rt, &seen, text.as_str())
}

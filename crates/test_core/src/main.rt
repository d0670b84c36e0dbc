//! Frames, the arguments of commands, and the login, the sending half, the receiving half and the whole of a session, by script: each line
//! of standard input is what is done with one of them, and a call is printed with what came back.
//!
//! A session has no line: what the peer says is handed in as commands and data, and what is said to it is printed behind each answer
//! between quotation marks. The desk is `mem_desk`'s, which has at most one file to offer, and answers as it is told. A line that
//! makes something, or tells the desk how to answer, prints nothing.
//!
//! ```text
//! # A file comes.                        printed as it stands. What was made is forgotten, but for the node
//! node 5020/1042 5020/1042.7             the node's own addresses, of zone 2 and the domain fidonet
//! settings sysop Joe Doe                 one more line of its settings
//! moment 951868799                       the moment of the next login, in seconds since 1970; 1000000000 where none is told
//! # Lines of the wire (binkp_frame, binkp_args, binkp_link)
//! wire                                   nothing was written yet
//! head \x80\x01                          what the header says: `.. : command of 1 bytes`
//! feed \x80 \x01\x05                     a stream in these pieces: prints `.. : command 5 "", 0 left`
//! frame 1 2:5047/13@fidonet              a command's frame: its bytes, and whether it is read again byte by byte
//! data 32767 x                           a frame of so much data: the same
//! escape my\x20file.txt \x20a            these words' bytes, escaped one behind the other
//! unescape my\20file.txt                 the bytes that this word stands for
//! read 3 a.txt 5 1000000000              the command of that number and argument, or its fault, at the node 2:5020/1042@fidonet
//! write 6 a.txt 5 1000000000             writes that command behind what was written, and prints all of it
//! line hello wait1 counts lo             steps on a line in memory: a waiting read of one byte, its counts, and `lo` is written
//! slow hello lo                          the same on one whose writes are quiet, fail, and take three bytes
//! failing wait                           the same on one whose read fails
//! pipe hello carry far:read              steps on a line of two ends
//! sink 2 a b                             a sink whose second call fails
//! clock 5 3                              a clock of two moments, asked three times; `dice` the same
//! # Lines of a login (session_auth)
//! login answers                          a login that greets; also `login calls 2:5047/13@fidonet`
//! greeting                               what it said so far
//! M_ADR 2:5047/13@fidonet                the peer says that: prints the step, as `More ""`. A command without a name is `M_11`
//! # Lines of a session (session_core)
//! session answers                        a session at a desk whose files are of the byte `x`; also `session calls 2:5047/13@fidonet`
//! greet                                  the greeting
//! M_FILE a.txt 5 1000000000 0            the peer says that
//! data hello                             the peer sends data
//! turn                                   the own turn
//! logged_in                              the session's number at the desk, and the peer's first address
//! # Lines of a sender (session_send)
//! sender 4096                            a sender whose frames have at most so much data, at a desk whose files have at each
//!                                        place the remainder of the place by 251
//! step                                   its next step
//! block 0                                its next step, whose frame has the bytes of the file from that place on: prints its
//!                                        header and their number
//! M_GOT a.txt 5 1000000000               the peer says that
//! # Lines of a receiver (session_recv)
//! receiver                               a receiver at such a desk
//! M_FILE a.txt 5 1000000000 0            the peer offers a file
//! data hello                             the peer sends data
//! # Lines of the desk of each of them
//! queue b.txt 3                          a file of that name and size waits for the peer, as entry 7
//! next full                              its next calls come out so: `works`, `disk`, `read`, `full` or `memory`
//! answer from 3                          the next file that the peer offers is answered so: also `go`, `whole`, `have`, `refuse`,
//!                                        `elsewhere` or `late`
//! began                                  as what its session began, with how many addresses of the peer's, and whether it is secure
//! told                                   which entries were settled and skipped last, how many bytes were taken and files received,
//!                                        and whether it is broken
//! # Lines of none of them
//! turn_away                              a caller is turned away
//! refuse disk 4                          a caller is refused by the desk so; also `read 4`, `full` or `memory`
//! ```
//!
//! `thousand LINE; LINE` plays these lines a thousand times, and prints how often they printed the same. A `\x` and two digits are a
//! byte, in what the peer says, in a name that is queued, in the words of a call of the wire but `unescape`, and in what is printed. There
//! a `\` is `\x5c`.
#![tactic(auto)]

mod answers;
mod arguments;
mod commands;
mod desk;
mod frames;
mod lines;
mod login;
mod receiver;
mod sender;
mod session;
mod settings;
mod stage;
mod stand_ins;
mod wire;

use anyhow::Result;
use stage::Stage;
use std::io;
use test_script::lines_of;

// Plays a line, and prints what it tells.
fn play(rt: &HostRuntime, stage: &mut Stage, line: &str) -> Result<()> {
    let told = stage.play(line)?;
    print!(rt; "{told}")?;
    Ok(())
}

fn play_all(rt: HostRuntime, lines: &[&str]) -> Result<()> {
    let mut stage = Box::new(rt.alloc(), Stage::new(rt.alloc()))?;
    for line in lines {
        play(&rt, &mut stage, line)?;
    }
    Ok(())
}

fn main(rt: HostRuntime) -> Result<()> {
    let text = io::read_to_string(rt.alloc(), rt.reader())?;
    let lines = lines_of(rt.alloc(), text.as_str())?;
    play_all(rt, lines.as_slice())
}

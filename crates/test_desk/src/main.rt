//! The desks of two seats of one hub over a real folder, by script: each line of standard input is a call, and is printed with what
//! came back.
//!
//! The node is 2:5020/1042@fidonet, and its peers are other nodes of that net. Their outbound is the folder `out`, beside which the
//! store has the folder `node`.
//!
//! ```text
//! # A sentence                         printed as it stands
//! put out/a.txt hello                  another program puts a file
//! folder out                           another program makes a folder
//! open                                 the store of the folder is opened: the calls below are of the second of two seats of a hub over it
//! over                                 the hub is over
//! seat 1                               the calls are made at that seat, which is a lower one, or has a session
//! begin 13 7                           a session begins with a node that has these addresses: `begin 13 7: Ok(1)`
//! next                                 the number of the next file that the peer is offered
//! got, skip                            the peer has it, or doesn't want it now
//! file a.txt 5                         the peer offers a file of that name and size
//! data hello                           bytes of it come
//! leave                                the session ends
//! ```
#![tactic(auto)]

mod seats;
mod stage;

use anyhow::Result;
use stage::Stage;
use std::io;
use test_script::lines_of;

// Plays all lines over one stage.
fn play(rt: HostRuntime, lines: &[&str]) -> Result<()> {
    let mut stage = Stage::new(rt);
    for line in lines {
        stage.play(line)?;
    }
    Ok(())
}

fn main(rt: HostRuntime) -> Result<()> {
    let text = io::read_to_string(rt.alloc(), rt.reader())?;
    let lines = lines_of(rt.alloc(), text.as_str())?;
    play(rt, lines.as_slice())
}

//! A sender at a desk in memory, with what it has written.
ghost use Rattle.std.specs.Prelude.{◌≡◌, true};
ghost use Rattle.mem_desk.specs.DeskStates.{part_of};
ghost use Rattle.session_send.specs.Senders.{claim_of, sending_of};

use crate::answers::with_written;
use crate::commands::command_of;
use crate::desk::desk_call;
use anyhow::{Result, bail};
use ftn_addr::Bytes;
use mem_desk::{Filling, ScriptedDesk, byte_at};
use node_model::DeskFault;
use session_send::Sender;
use std::alloc::Global;
use test_script::{number, word};

/// The most bytes of data in a frame.
const MOST: u16 = 32_767;

// What is large stands in boxes: a function's proof is much longer where it holds it by value.
#[derive(Drop)]
pub struct SenderRig {
    sender: Box<Sender>,
    desk: ScriptedDesk,
    out: Bytes,
    ghost open_now: { (part_of desk).open_now ≡ true },
    ghost claim: { (part_of desk).claim ≡ claim_of (sending_of sender.value) },
}

// Leaves of a frame its header, where its data is that of a file from a place on: how many bytes these are.
fn data_in(frame: &mut Bytes, place: u64) -> Option<usize> {
    let data = frame.as_slice().get(2..)?;
    let mut at = place;
    for byte in data {
        if *byte != byte_at(at) {
            return None;
        }
        at = at.wrapping_add(1);
    }
    let len = data.len();
    frame.truncate(2);
    Some(len)
}

impl SenderRig {
    /// A sender whose frames have at most so many bytes of data, 1 to 32,767.
    pub fn new(alloc: Global, block: u16) -> Result<Box<SenderRig>> {
        if block == 0 || block > MOST {
            bail!("no length of a frame");
        }
        let rig = SenderRig {
            sender: Box::new(alloc, Sender::new(block))?,
            desk: ScriptedDesk::in_session(Filling::Places),
            out: Bytes::new(alloc),
        };
        Ok(Box::new(alloc, rig)?)
    }

    fn step(&mut self, alloc: Global) -> Result<String> {
        let step = self.sender.next(alloc, &mut self.desk, &mut self.out);
        Ok(format!(in alloc; "{step:?}")?)
    }

    // The next step, whose frame has a file's bytes from a place on.
    fn block(&mut self, alloc: Global, place: u64) -> Result<String> {
        let step = self.step(alloc)?;
        match data_in(&mut self.out, place) {
            Some(len) => Ok(format!(in alloc; "{step}, {len} bytes behind")?),
            None => Ok(step),
        }
    }

    // The peer says a command.
    fn hear(&mut self, alloc: Global, line: &str) -> Result<Result<(), DeskFault>> {
        let command = command_of(alloc, line)?;
        Ok(
            self.sender
                .take(alloc, &command, &mut self.desk, &mut self.out),
        )
    }

    /// What the call of a line answers, and what is written.
    pub fn call(&mut self, alloc: Global, line: &str, words: &[&str]) -> Result<String> {
        if let Some(answer) = desk_call(alloc, &mut self.desk, words)? {
            return Ok(answer);
        }
        let answer = match word(words, 0) {
            "step" => self.step(alloc)?,
            "block" => self.block(alloc, number(words, 1)?)?,
            _ => format!(in alloc; "{:?}", self.hear(alloc, line)?)?,
        };
        with_written(alloc, answer.as_str(), &mut self.out)
    }
}

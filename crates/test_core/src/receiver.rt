//! A receiver at a desk in memory, with what it has written.
ghost use Rattle.std.specs.Prelude.{◌≡◌, true};
ghost use Rattle.mem_desk.specs.DeskStates.{part_of};
ghost use Rattle.session_recv.specs.Replies.{held_of};

use crate::answers::with_written;
use crate::commands::command_of;
use crate::desk::desk_call;
use anyhow::{Result, bail};
use binkp_args::Command;
use ftn_addr::{Bytes, NoMemory};
use mem_desk::{Filling, ScriptedDesk};
use node_model::DeskFault;
use session_recv::{Receiver, RecvStep};
use std::alloc::Global;
use test_script::{behind, bytes, word};

/// What became of a message.
type Step = Result<RecvStep, DeskFault>;

// What is large stands in boxes: a function's proof is much longer where it holds it by value.
#[derive(Drop)]
pub struct ReceiverRig {
    receiver: Box<Receiver>,
    desk: ScriptedDesk,
    out: Bytes,
    ghost in_session: { (part_of desk).open_now ≡ true },
    ghost same: { (part_of desk).held ≡ held_of receiver.value },
}

impl ReceiverRig {
    /// A receiver before the first file.
    pub fn new(alloc: Global) -> Result<Box<ReceiverRig>, NoMemory> {
        let rig = ReceiverRig {
            receiver: Box::new(alloc, Receiver::new())?,
            desk: ScriptedDesk::in_session(Filling::Places),
            out: Bytes::new(alloc),
        };
        Ok(Box::new(alloc, rig)?)
    }

    // The peer offers a file.
    fn file(&mut self, alloc: Global, line: &str) -> Result<Step> {
        let Command::File(key, offset) = command_of(alloc, line)? else {
            bail!("no offer");
        };
        Ok(
            self.receiver
                .take_file(alloc, key, offset, &mut self.desk, &mut self.out),
        )
    }

    // The peer sends data.
    fn data(&mut self, alloc: Global, text: &str) -> Result<Step> {
        let data = bytes(alloc, text)?;
        Ok(
            self.receiver
                .take_data(alloc, data.as_slice(), &mut self.desk, &mut self.out),
        )
    }

    /// What the call of a line answers, and what is written.
    pub fn call(&mut self, alloc: Global, line: &str, words: &[&str]) -> Result<String> {
        if let Some(answer) = desk_call(alloc, &mut self.desk, words)? {
            return Ok(answer);
        }
        let step = match word(words, 0) {
            "data" => self.data(alloc, behind(line))?,
            _ => self.file(alloc, line)?,
        };
        let step = format!(in alloc; "{step:?}")?;
        with_written(alloc, step.as_str(), &mut self.out)
    }
}

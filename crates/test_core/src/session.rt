//! A session at a desk in memory, with what it has written.
ghost use Rattle.std.specs.Prelude.{◌≡◌, ◌≤◌, ◌<◌, true};
ghost use Rattle.binkp_args.specs.Limits.{AreAddresses};
ghost use Rattle.mail_conf.specs.ConfView.{conf_text};
ghost use Rattle.mem_desk.specs.DeskStates.{part_of};
ghost use Rattle.session_core.specs.Replies.{stage_in};
ghost use Rattle.session_core.specs.Stages.{desk_part};

use crate::answers::{Came, came_of, came_text};
use crate::commands::frame_of;
use crate::desk::desk_call;
use crate::login::{CHALLENGE, addresses};
use anyhow::Result;
use binkp_frame::Frame;
use ftn_addr::Bytes;
use mail_conf::Conf;
use mem_desk::{Filling, ScriptedDesk};
use session_core::{Gave, Session, Side, Took};
use std::alloc::Global;
use std::slice;
use test_script::word;

// What is large stands in boxes: a function's proof is much longer where it holds it by value.
#[derive(Drop)]
pub struct SessionRig {
    session: Box<Session>,
    conf: Box<Conf>,
    desk: ScriptedDesk,
    out: Bytes,
    // Whether the session goes on.
    on: bool,
    ghost sits: { on ≡ true → part_of desk ≡ desk_part (stage_in session.value) },
    ghost own: { AreAddresses (conf_text conf.value).addresses },
}

impl SessionRig {
    /// A session before its greeting. All files of its desk are of the byte `x`.
    pub fn new(alloc: Global, side: Side, conf: Box<Conf>, now: u64) -> Result<Box<SessionRig>>
        requires own { AreAddresses (conf_text conf.value).addresses }
        requires some { 0 < (conf_text conf.value).block }
        requires fits { (conf_text conf.value).block ≤ 32767 }
    {
        let session = Box::new(alloc, Session::new(side, &conf, CHALLENGE, now))?;
        let rig = SessionRig {
            session,
            conf,
            desk: ScriptedDesk::new(Filling::Same(b'x')),
            out: Bytes::new(alloc),
            on: true,
        };
        Ok(Box::new(alloc, rig)?)
    }

    fn greet(&mut self, alloc: Global) -> Came {
        came_of(self.session.greet(alloc, &self.conf, &mut self.out))
    }

    // The peer says a frame; a session that is over takes none.
    fn take(&mut self, alloc: Global, frame: &Frame) -> Came {
        if !self.on {
            return Ok("over");
        }
        self.on = false;
        let took = self
            .session
            .take(alloc, frame, &self.conf, &mut self.desk, &mut self.out);
        match took {
            Took::More => {
                self.on = true;
                Ok("More")
            }
            Took::Ended(end) => Err(end),
        }
    }

    // The own turn.
    fn give(&mut self, alloc: Global) -> Came {
        if !self.on {
            return Ok("over");
        }
        self.on = false;
        let gave = self.session.give(alloc, &mut self.desk, &mut self.out);
        match gave {
            Gave::Sent => {
                self.on = true;
                Ok("Sent")
            }
            Gave::Waits => {
                self.on = true;
                Ok("Waits")
            }
            Gave::Ended(end) => Err(end),
        }
    }

    // The session's number at the desk, and the peer's first address, once it logged in.
    fn logged_in(&self, alloc: Global) -> Result<String> {
        let Some(login) = &self.session.login else {
            return Ok(String::from_str(alloc, "none")?);
        };
        let peer = addresses(alloc, slice::from_ref(&login.peer))?;
        Ok(format!(in alloc; "{} of {peer}", login.number)?)
    }

    /// What the call of a line answers, and what is written.
    pub fn call(&mut self, alloc: Global, line: &str, words: &[&str]) -> Result<String> {
        if let Some(answer) = desk_call(alloc, &mut self.desk, words)? {
            return Ok(answer);
        }
        let came = match word(words, 0) {
            "logged_in" => return self.logged_in(alloc),
            "greet" => self.greet(alloc),
            "turn" => self.give(alloc),
            _ => {
                let frame = frame_of(alloc, line)?;
                self.take(alloc, &frame)
            }
        };
        came_text(alloc, came, &mut self.out)
    }
}

//! What the lines of a script are played to.
use crate::answers::refused;
use crate::login::LoginRig;
use crate::receiver::ReceiverRig;
use crate::sender::SenderRig;
use crate::session::SessionRig;
use crate::settings::{settings_of, side_of};
use crate::wire;
use anyhow::Result;
use ftn_addr::{Bytes, NoMemory};
use std::alloc::Global;
use test_script::{behind, number, word, words_of};

/// The moment of a login where none is told, in seconds since 1970.
const NOW: u64 = 1_000_000_000;

/// What was made last.
#[derive(Drop)]
enum Scene {
    Nothing,
    /// What was written.
    Wire(Bytes),
    Login(Box<LoginRig>),
    Session(Box<SessionRig>),
    Sender(Box<SenderRig>),
    Receiver(Box<ReceiverRig>),
}

#[derive(Drop)]
pub struct Stage {
    alloc: Global,
    /// The lines of the node's settings that have its own addresses.
    node: Bytes,
    /// These, and what was set behind them.
    settings: Bytes,
    moment: u64,
    scene: Scene,
}

impl Stage {
    /// No node, and nothing made.
    pub fn new(alloc: Global) -> Stage {
        Stage {
            alloc,
            node: Bytes::new(alloc),
            settings: Bytes::new(alloc),
            moment: NOW,
            scene: Scene::Nothing,
        }
    }

    // Nothing was made yet.
    fn clear(&mut self) -> Result<(), NoMemory> {
        self.moment = NOW;
        self.scene = Scene::Nothing;
        self.settings = self.node.copy(self.alloc)?;
        Ok(())
    }

    // The node has these addresses, and no other settings.
    fn name(&mut self, addresses: &str) -> Result<(), NoMemory> {
        self.node.clear();
        self.node.push_slice(b"domain fidonet out 2\naddress ")?;
        self.node.push_slice(addresses.as_bytes())?;
        self.node.push_slice(b"\n")?;
        self.clear()
    }

    // One more line of the settings.
    fn set(&mut self, line: &str) -> Result<(), NoMemory> {
        self.settings.push_slice(line.as_bytes())?;
        self.settings.push_slice(b"\n")
    }

    fn login(&self, words: &[&str]) -> Result<Box<LoginRig>> {
        let side = side_of(self.alloc, words)?;
        let conf = settings_of(self.alloc, self.settings.as_slice())?;
        LoginRig::new(self.alloc, side, conf, self.moment)
    }

    fn session(&self, words: &[&str]) -> Result<Box<SessionRig>> {
        let side = side_of(self.alloc, words)?;
        let conf = settings_of(self.alloc, self.settings.as_slice())?;
        SessionRig::new(self.alloc, side, conf, self.moment)
    }

    // Whether the words make a login, a session or a half of one, or are of the wire.
    fn makes(&mut self, words: &[&str]) -> Result<bool> {
        self.scene = match word(words, 0) {
            "wire" => Scene::Wire(Bytes::new(self.alloc)),
            "login" => Scene::Login(self.login(words)?),
            "session" => Scene::Session(self.session(words)?),
            "sender" => Scene::Sender(SenderRig::new(self.alloc, word(words, 1).parse::<u16>()?)?),
            "receiver" => Scene::Receiver(ReceiverRig::new(self.alloc)?),
            _ => return Ok(false),
        };
        Ok(true)
    }

    // Whether the line only prepares a call.
    fn prepares(&mut self, line: &str, words: &[&str]) -> Result<bool> {
        match word(words, 0) {
            "" => {}
            "node" => self.name(behind(line))?,
            "settings" => self.set(behind(line))?,
            "moment" => self.moment = number(words, 1)?,
            _ => return self.makes(words),
        }
        Ok(true)
    }

    // What the call of a line answers, empty where that tells nothing.
    fn answer(&mut self, line: &str, words: &[&str]) -> Result<String> {
        match &mut self.scene {
            Scene::Nothing => refused(self.alloc, words),
            Scene::Wire(written) => wire::call(self.alloc, line, words, written),
            Scene::Login(login) => login.call(self.alloc, line),
            Scene::Session(session) => session.call(self.alloc, line, words),
            Scene::Sender(sender) => sender.call(self.alloc, line, words),
            Scene::Receiver(receiver) => receiver.call(self.alloc, line, words),
        }
    }

    // What is printed for a line.
    fn played(&mut self, line: &str) -> Result<String> {
        let words = words_of(self.alloc, line)?;
        if self.prepares(line, words.as_slice())? {
            return Ok(String::new(self.alloc));
        }
        let answer = self.answer(line, words.as_slice())?;
        if answer.is_empty() {
            return Ok(answer);
        }
        Ok(format!(in self.alloc; "{line}: {answer}\n")?)
    }

    // What is printed for lines between which `;` stands.
    fn all(&mut self, lines: &str) -> Result<String> {
        let mut text = String::new(self.alloc);
        for line in lines.split(";") {
            text.push_str(self.played(line.trim())?.as_str())?;
        }
        Ok(text)
    }

    // Plays lines a thousand times.
    fn thousand(&mut self, lines: &str) -> Result<String> {
        let mut text = self.all(lines)?;
        let mut same: u64 = 1;
        for _ in 1..1_000 {
            if self.all(lines)?.as_str() == text.as_str() {
                same = same.saturating_add(1);
            }
        }
        let told = format!(in self.alloc; "{same} times the same\n")?;
        text.push_str(told.as_str())?;
        Ok(text)
    }

    /// Plays a line: what is printed for it.
    pub fn play(&mut self, line: &str) -> Result<String> {
        if line.starts_with("#") {
            self.clear()?;
            return Ok(format!(in self.alloc; "{line}\n")?);
        }
        match line.strip_prefix("thousand ") {
            Some(lines) => self.thousand(lines),
            None => self.played(line),
        }
    }
}

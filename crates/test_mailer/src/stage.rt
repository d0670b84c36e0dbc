//! The disk that a script plays over, and what was told.
use crate::asks::{ask, own_bytes};
use crate::calls::{act, call, is_acting, run_words, saying_at};
use crate::made::{is_making, made};
use crate::serving::{dials_of, serve};
use crate::texts::{Texts, push_bytes};
use command_base::{Status, push_status};
use ftn_addr::{Bytes, Failed, NoMemory};
use mem_disk::MemDisk;
use mem_mailer::{Ran, disk_of};
use mem_node::{Resting, reopened};
use std::alloc::{AllocError, Global};
use std::mem;
use std::sync::Wait;
use std::test::Fail;
use test_script::{number, word, words_from, words_of};

#[derive(Drop)]
pub struct Stage<W> {
    wait: W,
    pub alloc: Global,
    pub texts: Texts,
    /// The disk behind the last call.
    pub disk: MemDisk,
    /// Which call of the disk is to fail next; 0 where none is.
    pub failing: u64,
    /// What the dials of the next node that serves reach.
    dials: Vec<Vec<Bytes>>,
    /// What came of the last call, what was told, and what a session's printed.
    pub status: Bytes,
    pub told: Bytes,
    pub printed: Bytes,
    /// Whether what was told ended as the last `if` asked.
    is_so: bool,
    /// The own files that were kept, with their bytes.
    pub kept: Bytes,
    /// What is to be printed.
    said: String,
}

// The line of a status, without its end; its name where it has none.
fn status_line(alloc: Global, status: &Status) -> Result<Bytes, Fail> {
    if matches!(status, Status::Done | Status::OutFault) {
        let name = format!(in alloc; "{status:?}")?;
        return Ok(Bytes::from_slice(alloc, name.as_bytes())?);
    }
    let mut line = Bytes::new(alloc);
    push_status(alloc, status, &mut line)?;
    let text = line.as_slice();
    Ok(Bytes::from_slice(alloc, text.strip_suffix(b"\n").unwrap_or(text))?)
}

impl<W: Wait + Drop> Stage<W> {
    /// An empty disk, and no text.
    pub fn new(wait: W, alloc: Global) -> Stage<W> {
        Stage {
            wait,
            alloc,
            texts: Texts::new(alloc),
            disk: MemDisk::new(alloc),
            failing: 0,
            dials: Vec::new(alloc),
            status: Bytes::new(alloc),
            told: Bytes::new(alloc),
            printed: Bytes::new(alloc),
            is_so: false,
            kept: Bytes::new(alloc),
            said: String::new(alloc),
        }
    }

    /// What is to be printed, which is nothing then.
    pub fn take_said(&mut self) -> String {
        mem::replace(&mut self.said, String::new(self.alloc))
    }

    /// The disk, in whose place an empty one comes.
    pub fn take_disk(&mut self) -> MemDisk {
        mem::replace(&mut self.disk, MemDisk::new(self.alloc))
    }

    /// The disk as a stop leaves it, of which a call may be to fail.
    pub fn take_rest(&mut self) -> Result<Resting, NoMemory> {
        let rest = reopened(self.take_disk())?;
        let failing = mem::replace(&mut self.failing, 0);
        if failing == 0 {
            Ok(rest)
        } else {
            rest.failing_at(failing)
        }
    }

    /// Keeps what came of a call.
    pub fn keep_ran(&mut self, ran: Box<Ran>) -> Result<(), Fail> {
        self.status = status_line(self.alloc, ran.status())?;
        self.told = Bytes::from_slice(self.alloc, ran.told())?;
        self.printed = Bytes::from_slice(self.alloc, ran.printed())?;
        self.disk = disk_of(ran);
        Ok(())
    }

    /// Prints the front of a line, and a colon.
    pub fn begin(&mut self, line: &str) -> Result<(), AllocError> {
        self.said.push_str(line)?;
        self.said.push_str(":")
    }

    /// Prints a line, or the rest of one.
    pub fn say(&mut self, line: &str) -> Result<(), AllocError> {
        self.said.push_str(line)?;
        self.said.push_str("\n")
    }

    // The line that is played of one that may have a condition.
    fn chosen<'l>(&mut self, line: &'l str) -> Result<&'l str, Fail> {
        let Some((kind, rest)) = line.split_once(' ') else {
            return Ok(line);
        };
        match kind {
            "else" => Ok(if self.is_so { "" } else { rest }),
            "if" => {
                let (end, rest) = rest.split_once(' ').ok_or(Failed)?;
                self.is_so = self.has_told(end)?;
                Ok(if self.is_so { rest } else { "" })
            }
            _ => Ok(line),
        }
    }

    // Whether what was told ends so.
    fn has_told(&self, end: &str) -> Result<bool, Fail> {
        let end = self.texts.piece(end)?;
        Ok(self.told.as_slice().ends_with(end.as_slice()))
    }

    // Keeps what came of a call: its status, and what was told.
    fn told_of(&mut self, ran: Box<Ran>) -> Result<String, Fail> {
        self.keep_ran(ran)?;
        let mut text = String::from_str(self.alloc, " ")?;
        push_bytes(self.alloc, self.status.as_slice(), &mut text)?;
        self.texts.push_told(self.told.as_slice(), &mut text)?;
        Ok(text)
    }

    // Makes another disk of the present one.
    fn make(&mut self, words: &[&str]) -> Result<(), Fail> {
        let rest = self.take_rest()?;
        self.disk = made(self.alloc, &self.texts, rest, words)?.into_disk();
        Ok(())
    }

    // Does what the words say, where nothing is printed of them.
    fn prepares(&mut self, words: &[&str]) -> Result<bool, Fail> {
        match word(words, 0) {
            first if is_making(first) => self.make(words)?,
            "let" => self.texts.define(word(words, 1), words_from(words, 2))?,
            "fail" => self.failing = number(words, 1)?,
            "dials" => self.dials = dials_of(self.alloc, &self.texts, words)?,
            "keep" => self.kept = own_bytes(self.alloc, &mut self.disk, word(words, 1))?,
            _ => return Ok(false),
        }
        Ok(true)
    }

    // What comes of the call whose peer says what stands behind that place.
    fn called(&mut self, words: &[&str], place: usize) -> Result<String, Fail> {
        let rest = self.take_rest()?;
        let ran = call(self.alloc, &self.texts, rest, words, place)?;
        self.told_of(ran)
    }

    // What comes of a command without a session.
    fn commanded(&mut self, words: &[&str]) -> Result<String, Fail> {
        let rest = self.take_rest()?;
        let ran = run_words(self.alloc, &self.texts, rest, words)?;
        self.told_of(ran)
    }

    // What comes of a node that serves.
    fn served(&mut self, words: &[&str]) -> Result<String, Fail> {
        let rest = self.take_rest()?;
        let dials = mem::replace(&mut self.dials, Vec::new(self.alloc));
        let ran = serve(
            &self.wait,
            self.alloc,
            &self.texts,
            rest,
            words,
            dials.as_slice(),
        )?;
        self.told_of(ran)
    }

    // What the store answers, or how the program ends.
    fn acted(&mut self, words: &[&str]) -> Result<String, Fail> {
        let rest = self.take_rest()?;
        let (text, disk) = act(&self.wait, self.alloc, &self.texts, rest, words)?;
        self.disk = disk;
        Ok(text)
    }

    // What is printed of words that prepare nothing.
    fn answer(&mut self, words: &[&str]) -> Result<String, Fail> {
        if let Some(place) = saying_at(words) {
            return self.called(words, place);
        }
        let first = word(words, 0);
        match first {
            "run" => return self.commanded(words),
            "serve" | "deaf" => return self.served(words),
            _ => {}
        }
        if is_acting(first) {
            self.acted(words)
        } else {
            ask(self, words)
        }
    }

    // Prints what is answered to these words, or nothing.
    fn tell(&mut self, line: &str, words: &[&str]) -> Result<(), Fail> {
        let answer = self.answer(words)?;
        if line.starts_with("~") {
            return Ok(());
        }
        self.begin(line)?;
        Ok(self.say(answer.as_str())?)
    }

    /// Plays a line.
    pub fn play(&mut self, line: &str) -> Result<(), Fail> {
        let line = self.chosen(line)?;
        if line.is_empty() {
            return Ok(());
        }
        if line.starts_with("#") {
            return Ok(self.say(line)?);
        }
        let words = words_of(self.alloc, line.trim_start_matches("~"))?;
        if saying_at(words.as_slice()).is_none() && self.prepares(words.as_slice())? {
            return Ok(());
        }
        self.tell(line, words.as_slice())
    }
}

//! What a script plays over: a folder, and the seats of a hub over it.
use crate::seats::{Seats, open};
use anyhow::{Context, Result};
use real_edge::RealFolder;
use std::fs;
use test_script::{bytes, word, words_of};

#[derive(Drop)]
pub struct Stage {
    rt: HostRuntime,
    seats: Option<Box<Seats<RealFolder<HostRuntime>>>>,
}

impl Stage {
    /// No store is open yet.
    pub fn new(rt: HostRuntime) -> Stage {
        Stage { rt, seats: None }
    }

    // Another program puts a file.
    fn put(&self, words: &[&str]) -> Result<String> {
        let content = bytes(self.rt.alloc(), word(words, 2))?;
        fs::write(&self.rt, word(words, 1), content.as_slice())?;
        Ok(String::new(self.rt.alloc()))
    }

    // Another program makes a folder.
    fn make_folder(&self, words: &[&str]) -> Result<String> {
        fs::create_dir(&self.rt, word(words, 1))?;
        Ok(String::new(self.rt.alloc()))
    }

    fn open(&mut self) -> Result<String> {
        let folder = RealFolder::new(self.rt, "node")?;
        self.seats = Some(open(self.rt.alloc(), folder)?);
        Ok(String::new(self.rt.alloc()))
    }

    fn close(&mut self) -> Result<String> {
        self.seats = None;
        Ok(String::new(self.rt.alloc()))
    }

    // What the call of these words answers, at the seats that are open.
    fn call(&mut self, words: &[&str]) -> Result<String> {
        let alloc = self.rt.alloc();
        let seats = self.seats.as_mut().context("no store is open")?;
        seats.play(alloc, words)
    }

    // What is printed for the words, empty where they make something.
    fn answer(&mut self, words: &[&str]) -> Result<String> {
        match word(words, 0) {
            "put" => self.put(words),
            "folder" => self.make_folder(words),
            "open" => self.open(),
            "over" => self.close(),
            _ => self.call(words),
        }
    }

    /// Plays a line.
    pub fn play(&mut self, line: &str) -> Result<()> {
        if line.is_empty() {
            return Ok(());
        }
        if line.starts_with("#") {
            println!(self.rt; "{line}")?;
            return Ok(());
        }
        let words = words_of(self.rt.alloc(), line)?;
        let answer = self.answer(words.as_slice()).context(line)?;
        if !answer.is_empty() {
            println!(self.rt; "{line}: {answer}")?;
        }
        Ok(())
    }
}

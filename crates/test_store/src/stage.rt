//! The disk that a script plays over.
use crate::calls::call;
use crate::texts::text;
use ftn_addr::NoMemory;
use mem_disk::MemDisk;
use mem_node::{Resting, stopped};
use std::alloc::Global;
use std::mem;
use std::test::Fail;
use test_script::{word, words_of};

#[derive(Drop)]
pub struct Stage {
    pub alloc: Global,
    /// The disk behind the last call.
    pub disk: MemDisk,
    /// Which call of the disk is to fail in the next call of a store; 0 where none is.
    pub failing: u64,
    /// How many calls of the disk were still to come where the call of a trial was stopped, or where one failed.
    pub left: u64,
}

impl Stage {
    /// An empty disk.
    pub fn new(alloc: Global) -> Stage {
        Stage {
            alloc,
            disk: MemDisk::new(alloc),
            failing: 0,
            left: 0,
        }
    }

    // The disk as a stop leaves it, in whose place an empty one comes.
    fn take_stopped(&mut self, after: u64, pick: u64) -> Result<Resting, NoMemory> {
        let disk = mem::replace(&mut self.disk, MemDisk::new(self.alloc));
        stopped(disk, after, pick)
    }

    /// Stops the disk behind so many of its calls.
    pub fn stop(&mut self, after: u64, pick: u64) -> Result<(), NoMemory> {
        self.disk = self.take_stopped(after, pick)?.into_disk();
        Ok(())
    }

    /// The disk at rest, of which a call may be to fail: a stop leaves it so, at which nothing unsynced lasts.
    pub fn take_rest(&mut self) -> Result<Resting, NoMemory> {
        let rest = self.take_stopped(u64::MAX, 0)?;
        match mem::replace(&mut self.failing, 0) {
            0 => Ok(rest),
            failing => rest.failing_at(failing),
        }
    }

    // What the call of these words answers.
    fn answer(&mut self, words: &[&str]) -> Result<String, Fail> {
        let first = text(self.alloc, word(words, 1))?;
        let second = text(self.alloc, word(words, 2))?;
        call(self, words, first.as_slice(), second.as_slice())
    }

    /// Plays a line: what is printed of it.
    pub fn play(&mut self, line: &str) -> Result<String, Fail> {
        if line.starts_with("#") {
            return Ok(format!(in self.alloc; "{line}\n")?);
        }
        let words = words_of(self.alloc, line.trim_start_matches("~"))?;
        if words.is_empty() {
            return Ok(String::new(self.alloc));
        }
        let answer = self.answer(words.as_slice())?;
        if answer.is_empty() || line.starts_with("~") {
            return Ok(String::new(self.alloc));
        }
        Ok(format!(in self.alloc; "{line}: {answer}\n")?)
    }
}

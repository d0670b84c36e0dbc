//! The folder that a script plays over, and what was seen of it.
use crate::calls::{Folder, call};
use crate::others::other;
use crate::sessions::session;
use anyhow::{Result, bail};
use disk_model::{Disk, OutStat};
use real_edge::RealFolder;
use std::io::ErrorKind;
use test_files::{Journal, Race, Seen, Watched};
use test_script::{number, word, words_of};

/// The most calls of the system that one call of the folder makes here.
const MOST_CALLS: u32 = 64;

#[derive(Drop)]
pub struct Stage<'a> {
    rt: HostRuntime,
    seen: &'a Seen,
    folder: Folder<'a>,
    /// What the last look found.
    was: OutStat,
}

fn folder_at<'a>(rt: HostRuntime, seen: &'a Seen, path: &str) -> Result<Folder<'a>> {
    Ok(RealFolder::new(Watched { rt, seen }, path)?)
}

fn kind_of(word: &str) -> Result<ErrorKind> {
    Ok(match word {
        "room" => ErrorKind::StorageFull,
        "right" => ErrorKind::PermissionDenied,
        "readonly" => ErrorKind::ReadOnlyFilesystem,
        "running" => ErrorKind::ExecutableFileBusy,
        "interrupted" => ErrorKind::Interrupted,
        _ => bail!("no such fault"),
    })
}

fn race_of(word: &str, path: &str) -> Result<Race> {
    let mut at = Journal::new();
    at.push(path);
    Ok(match word {
        "link" => Race::Link(at),
        "file" => Race::File(at),
        "folder" => Race::Folder(at),
        "gone" => Race::Gone(at),
        _ => bail!("no such race"),
    })
}

impl<'a> Stage<'a> {
    /// The folder that the program runs in, until another is named.
    pub fn new(rt: HostRuntime, seen: &'a Seen) -> Result<Stage<'a>> {
        Ok(Stage {
            rt,
            seen,
            folder: folder_at(rt, seen, ".")?,
            was: OutStat { size: 0, time: 0 },
        })
    }

    // Nothing fails or comes any more, and nothing was seen yet.
    fn clear(&self) -> Journal {
        self.seen.fail_at(0);
        self.seen.race_at(0, Race::Nothing);
        self.seen.take()
    }

    // What the call of this line answers.
    fn answer(&mut self, line: &str) -> Result<String> {
        let alloc = self.rt.alloc();
        let words = words_of(alloc, line)?;
        call(alloc, &mut self.folder, &mut self.was, words.as_slice())
    }

    // The count of faults, and the last reason.
    fn told(&self) -> Result<String> {
        let (alloc, faults) = (self.rt.alloc(), self.folder.faults());
        Ok(match self.folder.last_error() {
            Some(error) => format!(in alloc; "{faults} {error}")?,
            None => format!(in alloc; "{faults} nothing")?,
        })
    }

    // Lets a call of the system fail, or another program come before it.
    fn disturb(&self, words: &[&str]) -> Result<()> {
        let call = u32::try_from(number(words, 1)?)?;
        if word(words, 0) == "fail" {
            let kind = kind_of(word(words, 2))?;
            self.seen.fail_with(call, kind);
        } else {
            let race = race_of(word(words, 2), word(words, 3))?;
            self.seen.race_at(call, race);
        }
        Ok(())
    }

    // Another folder, of which nothing was seen yet.
    fn enter(&mut self, path: &str) -> Result<()> {
        let (rt, seen) = (self.rt, self.seen);
        self.folder = folder_at(rt, seen, path)?;
        self.clear();
        Ok(())
    }

    // Whether the words prepare the next call, or ask what was told.
    fn prepares(&mut self, words: &[&str]) -> Result<bool> {
        match word(words, 0) {
            "own" => self.enter(word(words, 1))?,
            "fail" | "race" => self.disturb(words)?,
            "faults" => println!(self.rt; "faults: {}", self.folder.faults())?,
            "told" => {
                let told = self.told()?;
                println!(self.rt; "told: {told}")?;
            }
            _ => return Ok(false),
        }
        Ok(true)
    }

    // Does what the words say, where that is done by another program or by the mailer.
    fn plays_beside(&self, words: &[&str]) -> Result<bool> {
        Ok(other(&self.rt, words)? || session(self.rt, words)?)
    }

    fn prepare(&mut self, prepared: &[&str]) -> Result<()> {
        for line in prepared {
            self.play_one(line)?;
        }
        Ok(())
    }

    // Lets each call of the system that the line's call makes fail in its turn, over what was prepared anew each time.
    fn each(&mut self, line: &str, prepared: &[&str]) -> Result<()> {
        println!(self.rt; "each {line}")?;
        for failing in 1..MOST_CALLS {
            self.prepare(prepared)?;
            self.seen.fail_at(failing);
            let answer = self.answer(line)?;
            let calls = self.seen.calls();
            let journal = self.clear();
            let told = self.told()?;
            println!(self.rt; "  {answer}, told: {told}, {}", journal.as_str())?;
            if calls < failing {
                return Ok(());
            }
        }
        bail!("too many calls of the system")
    }

    // Plays one line but for `each`.
    fn play_one(&mut self, line: &str) -> Result<()> {
        if line.is_empty() {
            return Ok(());
        }
        if line.starts_with("#") {
            println!(self.rt; "{line}")?;
            return Ok(());
        }
        let words = words_of(self.rt.alloc(), line)?;
        if self.prepares(words.as_slice())? || self.plays_beside(words.as_slice())? {
            return Ok(());
        }
        self.play_call(line)
    }

    fn play_call(&mut self, line: &str) -> Result<()> {
        let is_silent = line.starts_with("~");
        let call = line.trim_start_matches(['~', '.']);
        let answer = self.answer(call)?;
        let journal = self.clear();
        if is_silent {
            return Ok(());
        }
        if line.starts_with(".") {
            println!(self.rt; "{call}: {answer}")?;
        } else {
            println!(self.rt; "{call}: {answer} {}", journal.as_str())?;
        }
        Ok(())
    }

    /// Plays a line; `each` and `again` over what was prepared.
    pub fn play(&mut self, line: &str, prepared: &[&str]) -> Result<()> {
        if line == "again" {
            return self.prepare(prepared);
        }
        match line.strip_prefix("each ") {
            Some(call) => self.each(call, prepared),
            None => self.play_one(line),
        }
    }
}

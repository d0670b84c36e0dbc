//! Files that are watched: a runtime in front of the real one, which notes each call of the system, moves
//! two bytes at a time, lets one call fail, and lets another program come in before one. Where the syncs alone are noted, the
//! bytes move as ever.
ghost use Rattle.std.specs.Prelude.{◌≤◌};

use crate::Journal;
use std::alloc::Global;
use std::cell::Cell;
use std::fs::{Metadata, OpenFile, OpenOptions};
use std::io;
use std::io::{Read, Seek, SeekFrom, Write};
use std::rt::Files;

/// What another program does.
#[derive(Clone, Copy)]
pub enum Race {
    Nothing,
    /// A link to `../secret` stands under the path now.
    Link(Journal),
    /// A file of the text `raced` stands under the path now.
    File(Journal),
    /// A folder stands under the path now.
    Folder(Journal),
    /// Nothing stands under the path now.
    Gone(Journal),
}

/// What was called.
#[derive(Drop)]
pub struct Seen {
    syncs_alone: bool,
    journal: Cell<Journal>,
    calls: Cell<u32>,
    failing: Cell<u32>,
    fault: Cell<io::ErrorKind>,
    racing: Cell<u32>,
    race: Cell<Race>,
}

impl Seen {
    /// For all calls.
    pub fn new() -> Seen {
        Seen::of(false)
    }

    /// For the syncs alone.
    pub fn of_syncs() -> Seen {
        Seen::of(true)
    }

    fn of(syncs_alone: bool) -> Seen {
        Seen {
            syncs_alone,
            journal: Cell::new(Journal::new()),
            calls: Cell::new(0),
            failing: Cell::new(0),
            fault: Cell::new(io::ErrorKind::StorageFull),
            racing: Cell::new(0),
            race: Cell::new(Race::Nothing),
        }
    }

    /// The calls since it was asked last, each with its paths, and with a comma behind it.
    pub fn take(&self) -> Journal {
        self.calls.set(0);
        self.journal.replace(Journal::new())
    }

    /// The number of calls since it was asked last.
    pub fn calls(&self) -> u32 {
        self.calls.get()
    }

    /// The call of that number, counted from 1, is to fail: for want of room, which says nothing of a file or of rights.
    pub fn fail_at(&self, call: u32) {
        self.fail_with(call, io::ErrorKind::StorageFull);
    }

    /// The call of that number, counted from 1, is to fail with that error.
    pub fn fail_with(&self, call: u32, fault: io::ErrorKind) {
        self.failing.set(call);
        self.fault.set(fault);
    }

    /// Before the call of that number another program comes.
    pub fn race_at(&self, call: u32, race: Race) {
        self.racing.set(call);
        self.race.set(race);
    }

    // How many of so many bytes are moved at a time.
    fn most(&self, len: usize) -> usize
        ensures { result ≤ len }
    {
        if self.syncs_alone { len } else { len.min(2) }
    }

    fn note_sync(&self, word: &str, path: &str) -> io::Result<()> {
        self.put(word, path, None)
    }

    fn note(&self, word: &str, path: &str, more: Option<&str>) -> io::Result<()> {
        if self.syncs_alone {
            return Ok(());
        }
        self.put(word, path, more)
    }

    fn put(&self, word: &str, path: &str, more: Option<&str>) -> io::Result<()> {
        let mut journal = self.journal.get();
        journal.push(word);
        journal.push(" ");
        journal.push(path);
        if let Some(more) = more {
            journal.push(" ");
            journal.push(more);
        }
        journal.push(",");
        self.journal.set(journal);
        self.count()
    }

    fn note_number(&self, word: &str, path: &str, number: u64) -> io::Result<()> {
        if self.syncs_alone {
            return Ok(());
        }
        let mut journal = self.journal.get();
        journal.push(word);
        journal.push(" ");
        journal.push(path);
        journal.push(" ");
        journal.push_digit(number);
        journal.push(",");
        self.journal.set(journal);
        self.count()
    }

    fn count(&self) -> io::Result<()> {
        let calls = self.calls.get().saturating_add(1);
        self.calls.set(calls);
        if self.failing.get() == calls {
            return Err(self.fault.get().into());
        }
        Ok(())
    }
}

#[derive(Clone, Copy)]
pub struct Watched<'a, R> {
    pub rt: R,
    pub seen: &'a Seen,
}

impl<'a, R: Files> Watched<'a, R> {
    fn note(&self, word: &str, path: &str, more: Option<&str>) -> io::Result<()> {
        if self.seen.racing.get() == self.seen.calls.get().saturating_add(1) {
            self.race()?;
        }
        self.seen.note(word, path, more)
    }

    fn race(&self) -> io::Result<()> {
        match self.seen.race.get() {
            Race::Nothing => Ok(()),
            Race::Gone(path) => self.rt.remove_file(path.as_str()),
            Race::Link(path) => {
                let _ = self.rt.remove_file(path.as_str());
                self.rt.symlink("../secret", path.as_str())
            }
            Race::Folder(path) => {
                let _ = self.rt.remove_file(path.as_str());
                self.rt.create_dir(path.as_str())
            }
            Race::File(path) => {
                let _ = self.rt.remove_file(path.as_str());
                let mut file = OpenOptions::new()
                    .write(true)
                    .create(true)
                    .open(&self.rt, path.as_str())?;
                file.write_all(b"raced")
            }
        }
    }
}

#[derive(Drop)]
pub struct WatchedFile<'a, F> {
    file: F,
    path: Journal,
    seen: &'a Seen,
}

/// The names in a folder. A '?' in a name is read as a byte that is in no text.
#[derive(Drop)]
pub struct WatchedDir<'a, D> {
    dir: D,
    path: Journal,
    seen: &'a Seen,
}

impl<'a, R: AllocGlobal> Alloc for Watched<'a, R> {
    type A = Global;

    fn alloc(&self) -> Global {
        self.rt.alloc()
    }
}

impl<'a, F: Read> Read for WatchedFile<'a, F> {
    fn read(&mut self, buf: &mut [u8]) -> io::Result<usize> {
        self.seen.note("read", self.path.as_str(), None)?;
        let most = self.seen.most(buf.len());
        self.file.read(&mut buf[..most])
    }
}

impl<'a, D: Read> Read for WatchedDir<'a, D> {
    fn read(&mut self, buf: &mut [u8]) -> io::Result<usize> {
        self.seen.note("readdir", self.path.as_str(), None)?;
        let read = self.dir.read(buf)?;
        for byte in buf.iter_mut() {
            if *byte == b'?' {
                *byte = 0xff;
            }
        }
        Ok(read)
    }
}

impl<'a, F: Write> Write for WatchedFile<'a, F> {
    fn write(&mut self, buf: &[u8]) -> io::Result<usize> {
        self.seen.note("write", self.path.as_str(), None)?;
        let most = self.seen.most(buf.len());
        self.file.write(&buf[..most])
    }

    fn flush(&mut self) -> io::Result<()> {
        self.file.flush()
    }
}

impl<'a, F: Seek> Seek for WatchedFile<'a, F> {
    fn seek(&mut self, to: SeekFrom) -> io::Result<u64> {
        match to {
            SeekFrom::Start(at) => self.seen.note_number("seek", self.path.as_str(), at)?,
            _ => self.seen.note("seek", self.path.as_str(), None)?,
        }
        self.file.seek(to)
    }
}

impl<'a, F: OpenFile> OpenFile for WatchedFile<'a, F> {
    fn metadata(&self) -> io::Result<Metadata> {
        self.seen.note("fstat", self.path.as_str(), None)?;
        self.file.metadata()
    }

    fn set_len(&self, size: u64) -> io::Result<()> {
        self.seen.note_number("cut", self.path.as_str(), size)?;
        self.file.set_len(size)
    }

    fn sync_all(&self) -> io::Result<()> {
        self.seen.note_sync("sync", self.path.as_str())?;
        self.file.sync_all()
    }

    fn sync_data(&self) -> io::Result<()> {
        self.seen.note_sync("sync_data", self.path.as_str())?;
        self.file.sync_data()
    }
}

impl<'a, R: Files> Files for Watched<'a, R> {
    type File = WatchedFile<'a, R::File>;

    type Dir = WatchedDir<'a, R::Dir>;

    fn open_file(&self, how: &OpenOptions, path: &str) -> io::Result<WatchedFile<'a, R::File>> {
        self.note("open", path, None)?;
        let mut own = Journal::new();
        own.push(path);
        Ok(WatchedFile {
            file: self.rt.open_file(how, path)?,
            path: own,
            seen: self.seen,
        })
    }

    fn open_dir(&self, path: &str) -> io::Result<WatchedDir<'a, R::Dir>> {
        self.note("list", path, None)?;
        let mut own = Journal::new();
        own.push(path);
        Ok(WatchedDir {
            dir: self.rt.open_dir(path)?,
            path: own,
            seen: self.seen,
        })
    }

    fn metadata(&self, path: &str) -> io::Result<Metadata> {
        self.note("stat", path, None)?;
        self.rt.metadata(path)
    }

    fn symlink_metadata(&self, path: &str) -> io::Result<Metadata> {
        self.note("lstat", path, None)?;
        self.rt.symlink_metadata(path)
    }

    fn copy(&self, from: &str, to: &str) -> io::Result<u64> {
        self.note("copy", from, Some(to))?;
        self.rt.copy(from, to)
    }

    fn rename(&self, from: &str, to: &str) -> io::Result<()> {
        self.note("rename", from, Some(to))?;
        self.rt.rename(from, to)
    }

    fn remove_file(&self, path: &str) -> io::Result<()> {
        self.note("unlink", path, None)?;
        self.rt.remove_file(path)
    }

    fn create_dir(&self, path: &str) -> io::Result<()> {
        self.note("mkdir", path, None)?;
        self.rt.create_dir(path)
    }

    fn remove_dir(&self, path: &str) -> io::Result<()> {
        self.note("rmdir", path, None)?;
        self.rt.remove_dir(path)
    }

    fn remove_dir_all<B: std::alloc::Allocator>(&self, alloc: B, path: &str) -> io::Result<()> {
        self.note("rmdir", path, None)?;
        self.rt.remove_dir_all(alloc, path)
    }

    fn hard_link(&self, original: &str, link: &str) -> io::Result<()> {
        self.note("link", original, Some(link))?;
        self.rt.hard_link(original, link)
    }
}

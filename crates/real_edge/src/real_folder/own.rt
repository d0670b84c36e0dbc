//! The own folder.
use super::paths::Paths;
use super::placed::Placed;
use super::refusals::Refusals;
use super::system::{
    make_new, open_own, plain_len, remove, rename, status_of, sync_file, sync_folder,
};
use crate::error::{Answer, ListError, SystemCall, refused, told};
use disk_model::{Made, Name};
use ftn_addr::NoMemory;
use std::alloc::Global;
use std::fs::{DirEntry, OpenFile};
use std::rt::Files;
use std::{fs, io};

/// A file that was used.
#[derive(Drop)]
pub struct Held<F> {
    name: Name,
    opened: Placed<F>,
}

/// The own folder, as the system has it.
#[derive(Drop)]
pub struct Folder<R: Files> {
    pub(super) files: R,
    pub(super) paths: Paths,
    // The file that was used last, and the one before it: a session that sends a file and takes one uses both in turn.
    held: Option<Held<R::File>>,
    before: Option<Held<R::File>>,
    // A name was made or taken away, perhaps by a program that was stopped, and the folder wasn't synced
    // since.
    pub(super) has_new_names: bool,
    pub(super) refusals: Refusals,
}

impl<R: Files + Drop> Folder<R> {
    pub fn new(alloc: Global, files: R, path: &str) -> Result<Folder<R>, NoMemory> {
        Ok(Folder {
            files,
            paths: Paths::new(alloc, path)?,
            held: None,
            before: None,
            has_new_names: true,
            refusals: Refusals::new(),
        })
    }

    /// The length of a file.
    pub fn len_of(&mut self, name: &Name) -> Answer<Option<u64>> {
        plain_len(&self.files, self.paths.own(name)?)
    }

    pub fn read(&mut self, name: &Name, at: u64, out: &mut [u8]) -> Answer<()> {
        let mut opened = self.open(name)?;
        opened.read(at, out)?;
        self.hold(name, opened);
        Ok(())
    }

    pub fn create(&mut self, name: &Name) -> Answer<Made> {
        self.forget(name);
        match make_new(&self.files, self.paths.own(name)?) {
            Ok(file) => {
                self.hold(name, Placed::new(file, 0));
                self.sync_names()?;
                Ok(Made::New)
            }
            Err(e) if e.error.kind() == io::ErrorKind::AlreadyExists => {
                match self.len_of(name)? {
                    Some(_) => Ok(Made::Exists),
                    None => Err(e),
                }
            }
            Err(e) => Err(e),
        }
    }

    pub fn write(&mut self, name: &Name, at: u64, bytes: &[u8]) -> Answer<()> {
        let mut opened = self.open_with(name, at)?;
        opened.write(at, bytes)?;
        self.hold(name, opened);
        Ok(())
    }

    pub fn cut(&mut self, name: &Name, len: u64) -> Answer<()> {
        let mut opened = self.open_with(name, len)?;
        opened.cut(len)?;
        self.hold(name, opened);
        Ok(())
    }

    pub fn sync(&mut self, name: &Name) -> Answer<()> {
        let opened = self.open(name)?;
        sync_file(&opened.file)?;
        if self.has_new_names {
            self.sync_names()?;
        }
        self.hold(name, opened);
        Ok(())
    }

    /// Makes the names in the folder durable. Where that fails, the next [`Folder::sync`] does it.
    pub(super) fn sync_names(&mut self) -> Answer<()> {
        self.has_new_names = true;
        sync_folder(&self.files, self.paths.folder())?;
        self.has_new_names = false;
        Ok(())
    }

    pub fn rename(&mut self, from: &Name, to: &Name) -> Answer<()> {
        self.forget(from);
        self.forget(to);
        let (old, new) = self.paths.two(from, to)?;
        rename(&self.files, old, new)?;
        self.sync_names()
    }

    pub fn remove(&mut self, name: &Name) -> Answer<()> {
        self.forget(name);
        remove(&self.files, self.paths.own(name)?)?;
        self.sync_names()
    }

    /// Drops the handle of a file that will not be that one.
    pub(super) fn forget(&mut self, name: &Name) {
        let _ = self.taken(name);
    }

    // The handle of a file, where it is held, which it isn't any more then.
    fn taken(&mut self, name: &Name) -> Option<Placed<R::File>> {
        match take_named(&mut self.held, name) {
            Some(opened) => Some(opened),
            None => take_named(&mut self.before, name),
        }
    }

    pub(super) fn hold(&mut self, name: &Name, opened: Placed<R::File>) {
        let held = Held {
            name: *name,
            opened,
        };
        if let Some(last) = self.held.replace(held) {
            self.before = Some(last);
        }
    }

    // The file that is held, or else it is opened.
    fn open(&mut self, name: &Name) -> Answer<Placed<R::File>> {
        if let Some(opened) = self.taken(name) {
            return Ok(opened);
        }
        match open_own(&self.files, self.paths.own(name)?)? {
            Some(file) => Ok(Placed::new(file, 0)),
            None => Err(refused(SystemCall::Open, io::ErrorKind::NotFound)),
        }
    }

    // The same file where it has at least so many bytes. The system isn't asked for its length where the last read or write ended
    // there.
    fn open_with(&mut self, name: &Name, len: u64) -> Answer<Placed<R::File>> {
        let opened = self.open(name)?;
        if !opened.ended_at(len) && status_of(&opened.file)?.len() < len {
            return Err(refused(SystemCall::Stat, io::ErrorKind::InvalidInput));
        }
        Ok(opened)
    }
}

impl<R: Files + AllocGlobal + Clone + Drop> Folder<R> {
    /// The names of own files that regular files have, in the order of their bytes.
    pub fn list(&self) -> Result<Vec<Name>, ListError> {
        let entries = told(
            SystemCall::List,
            fs::read_dir(&self.files, self.paths.folder()),
        )?;
        let mut names = Vec::new(self.files.alloc());
        for entry in entries {
            if let Some(name) = told(SystemCall::List, own_name(entry))? {
                names.push(name)?;
            }
        }
        names.sort()?;
        Ok(names)
    }
}

// The handle in a place, where it is that of the file of this name.
fn take_named<F: Drop>(place: &mut Option<Held<F>>, name: &Name) -> Option<Placed<F>> {
    match place.take() {
        Some(held) if held.name == *name => Some(held.opened),
        other => {
            *place = other;
            None
        }
    }
}

// The name of an own file. What has no such name, or is no regular file, is passed over.
fn own_name<R: Files + Drop>(entry: io::Result<DirEntry<R>>) -> io::Result<Option<Name>> {
    let entry = match entry {
        Ok(entry) => entry,
        Err(e) if e.kind() == io::ErrorKind::InvalidFilename => return Ok(None),
        Err(e) => return Err(e),
    };
    match Name::new(entry.file_name().as_bytes()) {
        Some(name) if entry.file_type()?.is_file() => Ok(Some(name)),
        _ => Ok(None),
    }
}

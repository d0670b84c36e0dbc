//! Outside folders. A path under which no file can stand, as one below a file, one that isn't UTF-8 or one
//! with a name of over 255 bytes, has no file; only `mark` and `give` fail there.
//!
//! What may not be seen or opened has no file either, and what may not be removed or cut is another's: both are noted, and fail
//! nothing, so that no file of another program stops the others. `mark` and `give` fail there.
//!
//! A file of the own folder, however its path is spelled, is no outside file that could be copied, removed or cut, and nothing is
//! given into it.
use super::copying::copy_most;
use super::own::Folder;
use super::paths::{folder_of, is_entry_name, text, whole_text};
use super::placed::Placed;
use super::system::{
    at_path, file_at, folder_at, is_same, link, make_folders, make_new, open_plain, plain_len,
    regular, remove, remove_any, rename, stat_of, sync_file, sync_folder, write_all,
};
use crate::error::{Answer, ListError, SystemCall, SystemError, refused};
use disk_model::{Copied, Giving, Hit, Marking, Moved, Name, OutStat};
use ftn_addr::Bytes;
use std::fs::{Metadata, OpenFile, OpenOptions, ReadDir};
use std::rt::Files;
use std::{fs, io};

impl<R: Files + Drop> Folder<R> {
    pub fn look(&mut self, path: &Bytes) -> Answer<Option<OutStat>> {
        let Some(path) = text(path.as_slice()) else {
            return Ok(None);
        };
        match file_at(&self.files, &mut self.refusals, path)? {
            Some(metadata) => Ok(Some(stat_of(&metadata))),
            None => Ok(None),
        }
    }

    /// Syncs the file before it moves, since the program that wrote it may not have. A link is no file.
    pub fn take(&mut self, path: &Bytes, own: &Name) -> Answer<Moved> {
        let Some(path) = text(path.as_slice()) else {
            return Ok(Moved::Absent);
        };
        let Some(file) = open_plain(&self.files, &mut self.refusals, path)? else {
            return Ok(Moved::Absent);
        };
        self.forget(own);
        let new = self.paths.own(own)?;
        if at_path(&self.files, new)?.is_some() {
            return Err(refused(SystemCall::Rename, io::ErrorKind::AlreadyExists));
        }
        sync_file(&file)?;
        rename(&self.files, path, new)?;
        self.sync_names()?;
        sync_folder(&self.files, folder_of(path))?;
        Ok(Moved::Done)
    }

    /// Removes the own file and makes it anew, so that no link is followed.
    pub fn copy(&mut self, path: &Bytes, own: &Name, most: u64) -> Answer<Copied> {
        let Some(path) = text(path.as_slice()) else {
            return Ok(Copied::Absent);
        };
        if self.source_at(path)?.is_none() {
            return Ok(Copied::Absent);
        }
        let answer = OpenOptions::new().read(true).open(&self.files, path);
        let opened = self.refusals.found(SystemCall::Open, answer)?;
        let Some((mut source, metadata)) = regular(opened)? else {
            return Ok(Copied::Absent);
        };
        self.forget(own);
        let new = self.paths.own(own)?;
        self.has_new_names = true;
        remove_any(&self.files, new)?;
        if metadata.len() > most {
            return Ok(Copied::Over);
        }
        let mut file = make_new(&self.files, new)?;
        match copy_most(&mut source, &mut file, most)? {
            Some(size) => {
                self.hold(own, Placed::new(file, size));
                Ok(Copied::Copied(OutStat {
                    size,
                    ..stat_of(&metadata)
                }))
            }
            None => {
                remove(&self.files, new)?;
                Ok(Copied::Over)
            }
        }
    }

    pub fn remove_if(&mut self, path: &Bytes, was: &OutStat) -> Answer<Hit> {
        let Some(path) = text(path.as_slice()) else {
            return Ok(Hit::Other);
        };
        match self.source_at(path)? {
            Some(metadata) if stat_of(&metadata) == *was => {}
            _ => return Ok(Hit::Other),
        }
        let answer = fs::remove_file(&self.files, path);
        match self.refusals.changed(SystemCall::Remove, answer)? {
            Some(()) => self.removed(path),
            None => Ok(Hit::Other),
        }
    }

    pub fn cut_if(&mut self, path: &Bytes, was: &OutStat) -> Answer<Hit> {
        let Some(path) = text(path.as_slice()) else {
            return Ok(Hit::Other);
        };
        match self.source_at(path)? {
            Some(metadata) if stat_of(&metadata) == *was => {}
            _ => return Ok(Hit::Other),
        }
        let answer = OpenOptions::new().write(true).open(&self.files, path);
        let opened = self.refusals.changed(SystemCall::Open, answer)?;
        match regular(opened)? {
            Some((file, metadata)) if stat_of(&metadata) == *was => self.cut_out(&file),
            _ => Ok(Hit::Other),
        }
    }

    /// Writes and syncs the text in the own folder, and gives it its path by a link: that fails where the
    /// path is in use, and else the whole text is there at once. What an earlier mark left there is removed
    /// first and never written over, since it may be that mark itself. Whatever stands under the path is a mark,
    /// be it a folder or a link that leads nowhere, since some programs make such locks.
    pub fn mark(&mut self, path: &Bytes, text: &Bytes) -> Answer<Marking> {
        let path = whole_text(path.as_slice())?;
        if at_path(&self.files, path)?.is_some() {
            return Ok(Marking::Exists);
        }
        make_folders(&self.files, folder_of(path))?;
        let written = self.paths.mark()?;
        remove_any(&self.files, written)?;
        let mut file = make_new(&self.files, written)?;
        write_all(&mut file, text.as_slice())?;
        sync_file(&file)?;
        let is_made = link(&self.files, written, path)?;
        if is_made {
            sync_folder(&self.files, folder_of(path))?;
        }
        remove(&self.files, written)?;
        self.sync_names()?;
        if is_made {
            Ok(Marking::Made)
        } else {
            Ok(Marking::Exists)
        }
    }

    /// A name that no folder can have is refused. In the own folder every name is in use, so that no peer writes an own file.
    pub fn give(&mut self, own: &Name, folder: &Bytes, name: &Bytes) -> Answer<Giving> {
        let folder = whole_text(folder.as_slice())?;
        let name = whole_text(name.as_slice())?;
        if !is_entry_name(name) {
            return Err(refused(SystemCall::Path, io::ErrorKind::InvalidFilename));
        }
        if self.is_own(folder)? {
            return Ok(Giving::Taken);
        }
        self.forget(own);
        let (old, new) = self.paths.out(own, folder, name)?;
        if at_path(&self.files, new)?.is_some() {
            return Ok(Giving::Taken);
        }
        if plain_len(&self.files, old)?.is_none() {
            return Err(refused(SystemCall::Rename, io::ErrorKind::NotFound));
        }
        make_folders(&self.files, folder)?;
        rename(&self.files, old, new)?;
        self.has_new_names = true;
        sync_folder(&self.files, folder)?;
        self.sync_names()?;
        Ok(Giving::Given)
    }

    // The regular file to which a path leads that doesn't stand in the own folder.
    fn source_at(&mut self, path: &str) -> Answer<Option<Metadata>> {
        match file_at(&self.files, &mut self.refusals, path)? {
            Some(metadata) if !self.is_own(folder_of(path))? => Ok(Some(metadata)),
            _ => Ok(None),
        }
    }

    // Whether a path leads to the own folder.
    fn is_own(&self, folder: &str) -> Answer<bool> {
        let own = folder_at(&self.files, self.paths.folder())?;
        let other = folder_at(&self.files, folder)?;
        match (own, other) {
            (Some(own), Some(other)) => Ok(is_same(&own, &other)),
            _ => Ok(false),
        }
    }

    // Cuts an opened file to nothing, and makes that durable.
    fn cut_out(&mut self, file: &R::File) -> Answer<Hit> {
        let answer = file.set_len(0);
        match self.refusals.changed(SystemCall::Truncate, answer)? {
            Some(()) => {
                sync_file(file)?;
                Ok(Hit::Done)
            }
            None => Ok(Hit::Other),
        }
    }

    // Makes it durable that a file was removed.
    fn removed(&self, path: &str) -> Answer<Hit> {
        sync_folder(&self.files, folder_of(path))?;
        Ok(Hit::Done)
    }
}

impl<R: Files + AllocGlobal + Clone + Drop> Folder<R> {
    /// A mark that may not be read is another's; where an own one may not be removed, that fails.
    pub fn unmark(&mut self, path: &Bytes, mark: &Bytes) -> Answer<Hit> {
        let Some(path) = text(path.as_slice()) else {
            return Ok(Hit::Other);
        };
        match file_at(&self.files, &mut self.refusals, path)? {
            Some(metadata) if metadata.len() == mark.len() as u64 => {}
            _ => return Ok(Hit::Other),
        }
        let answer = fs::read(&self.files, path);
        match self.refusals.found(SystemCall::Read, answer)? {
            Some(bytes) if bytes.as_slice() == mark.as_slice() => {
                if remove_any(&self.files, path)? {
                    self.removed(path)
                } else {
                    Ok(Hit::Other)
                }
            }
            _ => Ok(Hit::Other),
        }
    }

    /// The names that are UTF-8, in the order of their bytes.
    pub fn names(&mut self, folder: &Bytes) -> Result<Vec<Bytes>, ListError> {
        let alloc = self.files.alloc();
        let mut names = Vec::new(alloc);
        let Some(entries) = self.entries(folder)? else {
            return Ok(names);
        };
        for entry in entries {
            match entry {
                Ok(entry) => {
                    names.push(Bytes::from_slice(alloc, entry.file_name().as_bytes())?)?;
                }
                Err(e) if e.kind() == io::ErrorKind::InvalidFilename => {}
                Err(error) => return Err(ListError::from(SystemError {
                    call: SystemCall::List,
                    error,
                })),
            }
        }
        names.sort()?;
        Ok(names)
    }

    fn entries(&mut self, folder: &Bytes) -> Answer<Option<ReadDir<R>>> {
        let Some(folder) = text(folder.as_slice()) else {
            return Ok(None);
        };
        let folder = if folder.is_empty() { "." } else { folder };
        let answer = fs::read_dir(&self.files, folder);
        self.refusals.found(SystemCall::List, answer)
    }
}

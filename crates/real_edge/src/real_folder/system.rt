//! Calls of the system.
ghost use Rattle.std.specs.Prelude.{OnOk};
ghost use Rattle.std.specs.Io.KnownBytes.{Appends};

use super::paths::folder_of;
use super::refusals::{Refusals, found};
use crate::error::{Answer, SystemCall, refused, told};
use disk_model::OutStat;
use std::fs::{Metadata, OpenFile, OpenOptions};
use std::io::Write;
use std::os::unix::fs::MetadataExt;
use std::rt::Files;
use std::{fs, io};

/// What stands under a path itself, be it a link.
pub fn at_path<R: Files>(files: &R, path: &str) -> Answer<Option<Metadata>> {
    found(SystemCall::Stat, fs::symlink_metadata(files, path))
}

/// The regular file of another program to which a path leads, also through links.
pub fn file_at<R: Files>(
    files: &R,
    refusals: &mut Refusals,
    path: &str,
) -> Answer<Option<Metadata>> {
    match refusals.found(SystemCall::Stat, fs::metadata(files, path))? {
        Some(metadata) if metadata.is_file() => Ok(Some(metadata)),
        _ => Ok(None),
    }
}

/// The length of the regular file that stands under the path of an own file itself.
pub fn plain_len<R: Files>(files: &R, path: &str) -> Answer<Option<u64>> {
    match fs::symlink_metadata(files, path) {
        Ok(metadata) if metadata.is_file() => Ok(Some(metadata.len())),
        Ok(_) => Err(refused(SystemCall::Stat, io::ErrorKind::InvalidInput)),
        Err(e) if e.kind() == io::ErrorKind::NotFound => Ok(None),
        Err(e) => told(SystemCall::Stat, Err(e)),
    }
}

/// Opens the own file that stands under a path itself: to read and write, or to read alone where that is all that the system
/// allows. A link is none, also one that comes there in the meantime.
pub fn open_own<R: Files>(files: &R, path: &str) -> Answer<Option<R::File>> {
    let Some(named) = at_path(files, path)? else {
        return Ok(None);
    };
    if !named.is_file() {
        return Ok(None);
    }
    let answer = match OpenOptions::new().read(true).write(true).open(files, path) {
        Err(e) if is_unwritable(e.kind()) => OpenOptions::new().read(true).open(files, path),
        answer => answer,
    };
    unless_other(named, found(SystemCall::Open, answer)?)
}

/// Opens the regular file of another program that stands under a path itself, to read it. A link is none, also one that comes
/// there in the meantime.
pub fn open_plain<R: Files>(
    files: &R,
    refusals: &mut Refusals,
    path: &str,
) -> Answer<Option<R::File>> {
    let answer = fs::symlink_metadata(files, path);
    let Some(named) = refusals.found(SystemCall::Stat, answer)? else {
        return Ok(None);
    };
    if !named.is_file() {
        return Ok(None);
    }
    let answer = OpenOptions::new().read(true).open(files, path);
    unless_other(named, refusals.found(SystemCall::Open, answer)?)
}

// The opened file, where it is the one that stood there before.
fn unless_other<F: OpenFile + Drop>(named: Metadata, file: Option<F>) -> Answer<Option<F>> {
    let Some(file) = file else {
        return Ok(None);
    };
    if !is_same(&named, &status_of(&file)?) {
        return Ok(None);
    }
    Ok(Some(file))
}

// Whether the error says that a file may be read at most.
fn is_unwritable(kind: io::ErrorKind) -> bool {
    matches!(
        kind,
        io::ErrorKind::PermissionDenied | io::ErrorKind::ReadOnlyFilesystem
    )
}

/// Whether both are of one file or folder.
pub fn is_same(one: &Metadata, other: &Metadata) -> bool {
    one.dev() == other.dev() && one.ino() == other.ino()
}

/// The opened file, and what it is, where it is a regular one.
pub fn regular<F: OpenFile + Drop>(file: Option<F>) -> Answer<Option<(F, Metadata)>> {
    let Some(file) = file else {
        return Ok(None);
    };
    let metadata = status_of(&file)?;
    if !metadata.is_file() {
        return Ok(None);
    }
    Ok(Some((file, metadata)))
}

/// What the system says of an open file.
pub fn status_of<F: OpenFile>(file: &F) -> Answer<Metadata> {
    told(SystemCall::Stat, file.metadata())
}

/// Makes a new file and opens it. It follows no link.
pub fn make_new<R: Files>(files: &R, path: &str) -> Answer<R::File> {
    let answer = OpenOptions::new()
        .read(true)
        .write(true)
        .create_new(true)
        .open(files, path);
    told(SystemCall::Open, answer)
}

/// Writes all the bytes, also where the system takes a few at a time.
pub fn write_all<F: Write>(file: &mut F, bytes: &[u8]) -> Answer<()>
    ensures { OnOk result (Appends (F.contents file.old) (F.contents file.new) bytes.now) }
{
    told(SystemCall::Write, file.write_all(bytes))
}

pub fn cut_to<F: OpenFile>(file: &F, len: u64) -> Answer<()> {
    told(SystemCall::Truncate, file.set_len(len))
}

/// Makes the bytes of a file durable.
pub fn sync_file<F: OpenFile>(file: &F) -> Answer<()> {
    told(SystemCall::Sync, file.sync_all())
}

/// Makes the names in a folder durable. The empty path is the folder that the program runs in.
pub fn sync_folder<R: Files>(files: &R, path: &str) -> Answer<()> {
    let path = if path.is_empty() { "." } else { path };
    let folder = told(SystemCall::Open, fs::File::open(files, path))?;
    sync_file(&folder)
}

pub fn rename<R: Files>(files: &R, from: &str, to: &str) -> Answer<()> {
    told(SystemCall::Rename, fs::rename(files, from, to))
}

pub fn remove<R: Files>(files: &R, path: &str) -> Answer<()> {
    told(SystemCall::Remove, fs::remove_file(files, path))
}

/// Removes a file where one stands, and says whether one did.
pub fn remove_any<R: Files>(files: &R, path: &str) -> Answer<bool> {
    Ok(found(SystemCall::Remove, fs::remove_file(files, path))?.is_some())
}

/// Gives a file a second path, unless something stands there: then it says false.
pub fn link<R: Files>(files: &R, file: &str, path: &str) -> Answer<bool> {
    match fs::hard_link(files, file, path) {
        Ok(()) => Ok(true),
        Err(e) if e.kind() == io::ErrorKind::AlreadyExists => Ok(false),
        Err(e) => told(SystemCall::Link, Err(e)),
    }
}

/// Makes a folder and those above it, where they are missing, and makes their names durable.
pub fn make_folders<R: Files>(files: &R, path: &str) -> Answer<()> {
    if path.is_empty() || is_folder(files, path)? {
        return Ok(());
    }
    for (end, byte) in path.as_bytes().iter().enumerate() {
        if *byte == b'/'
            && 0 < end
            && let Some(above) = path.get(..end)
        {
            make_folder(files, above)?;
        }
    }
    make_folder(files, path)
}

// Where another program makes the folder meanwhile, its name is made durable all the same.
fn make_folder<R: Files>(files: &R, path: &str) -> Answer<()> {
    if is_folder(files, path)? {
        return Ok(());
    }
    match fs::create_dir(files, path) {
        Err(e) if e.kind() == io::ErrorKind::AlreadyExists && is_folder(files, path)? => {}
        answer => told(SystemCall::MakeFolder, answer)?,
    }
    sync_folder(files, folder_of(path))
}

fn is_folder<R: Files>(files: &R, path: &str) -> Answer<bool> {
    Ok(folder_at(files, path)?.is_some())
}

/// The folder to which a path leads. The empty path is the folder that the program runs in.
pub fn folder_at<R: Files>(files: &R, path: &str) -> Answer<Option<Metadata>> {
    let path = if path.is_empty() { "." } else { path };
    match found(SystemCall::Stat, fs::metadata(files, path))? {
        Some(metadata) if metadata.is_dir() => Ok(Some(metadata)),
        _ => Ok(None),
    }
}

/// The size of a file and its time of change, in whole seconds. A time before 1970 is 0.
pub fn stat_of(metadata: &Metadata) -> OutStat {
    OutStat {
        size: metadata.len(),
        time: u64::try_from(metadata.mtime()).unwrap_or(0),
    }
}

//! Files of other programs.
ghost use Rattle.std.specs.Prelude.{◌≡◌, ◌<◌, ◌≤◌, ◌==◌, ◌&&◌, Some, None, IfOk, length, nat_eq, position, vec_len, vec_capacity};
ghost use Rattle.std.specs.List.{list_any};
ghost use Rattle.std.specs.Str.{bytes_eq};
ghost use Rattle.ftn_addr.specs.Key.{key_of};
ghost use Rattle.node_model.specs.Outside.{has_key};
ghost use Rattle.mem_store.specs.Outsiders.{Placed, is_at_or_below, outside_of, with_file, without_path};

use crate::lists::put;
use ftn_addr::{Bytes, FileKey, NoMemory};
use node_model::OutStat;
use std::alloc::Global;
use std::marker::Model;

/// A file of another program, under its path.
#[derive(Debug, Drop)]
pub struct OutsideFile {
    pub path: Bytes,
    pub bytes: Bytes,
    /// When it last changed.
    pub time: u64,
}

impl Model for OutsideFile {
    ghost use Rattle.mem_store.specs.Outsiders.{Placed};

    ghost Value = { Placed };

    ghost view = { λ f. record { path = f.path.list; file = record { bytes = f.bytes.list; time = f.time } } };
}

impl OutsideFile {
    pub fn new(
        alloc: Global,
        path: &Bytes,
        bytes: &[u8],
        time: u64,
    ) -> Result<OutsideFile, NoMemory>
        ensures { IfOk result (λ file. file ≡ record { path = path.now.list; file = record { bytes = bytes.now; time = time } }) }
    {
        Ok(OutsideFile {
            path: path.copy(alloc)?,
            bytes: Bytes::from_slice(alloc, bytes)?,
            time,
        })
    }

    // Whether it stands under that path.
    fn is_at(&self, path: &[u8]) -> bool
        ensures { result ≡ bytes_eq path.now self.now.path }
    {
        path == self.path.as_slice()
    }

    pub fn content(&self) -> &[u8]
        ensures { result.now ≡ self.now.file.bytes }
    {
        self.bytes.as_slice()
    }

    /// Its size and time.
    pub fn stat(&self) -> OutStat
        ensures size { result.size ≡ length self.now.file.bytes }
        ensures time { result.time ≡ self.now.file.time }
    {
        OutStat {
            size: self.bytes.len() as u64,
            time: self.time,
        }
    }

    /// Whether it has the size and time of a key.
    pub fn has_key(&self, key: &FileKey) -> bool
        ensures { result ≡ has_key (key_of key.now) (Some self.now.file) }
    {
        self.bytes.len() as u64 == key.size && self.time == key.time
    }

    // Whether it stands under that path, or below it.
    fn is_at_or_below(&self, path: &[u8]) -> bool
        ensures { result ≡ is_at_or_below path.now self.now.path }
    {
        is_at_or_below(path, self.path.as_slice())
    }
}

fn is_at_or_below(path: &[u8], at: &[u8]) -> bool
    ensures { result ≡ is_at_or_below path.now at.now }
{
    match at.strip_prefix(path) {
        Some(rest) => rest.is_empty() || rest[0] == b'/',
        None => false,
    }
}

/// Where the first file under that path stands, if there is one.
pub fn place_of_path(files: &[OutsideFile], path: &[u8]) -> Option<usize>
    ensures { result ≡ position (λ (f : Placed). bytes_eq path.now f.path) files.now }
{
    files.iter().position(|file| file.is_at(path))
}

/// Whether a file stands under that path, or below it.
pub fn in_use(path: &[u8], files: &[OutsideFile]) -> bool
    ensures { result ≡ list_any (λ (f : Placed). is_at_or_below path.now f.path) files.now }
{
    files.iter().any(|file| file.is_at_or_below(path))
}

/// Removes the file under that path.
pub fn remove_file(path: &[u8], files: &mut Vec<OutsideFile>)
    ensures items { files.new.items ≡ without_path path.now files.old.items }
    ensures len { vec_len files.new ≤ vec_len files.old }
    ensures capacity { vec_capacity files.new ≡ vec_capacity files.old }
{
    files.retain(|file| !file.is_at(path));
}

/// Puts a file in place of one under its path, where there is room for it. It takes no memory.
pub fn put_file(file: OutsideFile, files: &mut Vec<OutsideFile>)
    requires { vec_len files.old < vec_capacity files.old }
    ensures { files.new.items ≡ with_file file files.old.items }
{
    remove_file(file.path.as_slice(), files);
    put(file, files);
}

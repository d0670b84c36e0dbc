//! The calls of the own folder.
use crate::saying::{say, say_bytes, say_count, say_text};
use anyhow::{Context, Result};
use disk_model::{Disk, Name, Piece, write_twice};
use ftn_addr::{Bytes, Failed, NoMemory};
use ledger_file::put_file;
use mem_disk::MemDisk;
use std::alloc::Global;
use test_script::{bytes, number, word, words_from};

/// The name of an own file at a place.
pub fn name(words: &[&str], place: usize) -> Result<Name> {
    Name::new(word(words, place).as_bytes()).context("a name of an own file")
}

// A piece, in which a `#` is a number.
fn push_piece(alloc: Global, all: &mut Bytes, piece: &[u8], time: u64) -> Result<(), NoMemory> {
    for byte in piece {
        if *byte == b'#' {
            all.push_number(alloc, time)?;
        } else {
            all.push_slice(&[*byte])?;
        }
    }
    Ok(())
}

// The bytes that a word stands for.
fn push_word(alloc: Global, all: &mut Bytes, word: &str) -> Result<()> {
    let (times, text) = word.split_once("*").unwrap_or(("1", word));
    let times = times.parse::<u64>()?;
    let piece = bytes(alloc, text)?;
    for time in 1..=times {
        push_piece(alloc, all, piece.as_slice(), time)?;
    }
    Ok(())
}

/// The bytes that these words stand for, one behind the other; `3*x` stands for `xxx`, and `3*#,` for `1,2,3,`.
pub fn pieces(alloc: Global, words: &[&str]) -> Result<Bytes> {
    let mut all = Bytes::new(alloc);
    for word in words {
        push_word(alloc, &mut all, word)?;
    }
    Ok(all)
}

// A synced file, and then a write over its front that is not synced. Five calls.
fn put_and_write<D: Disk>(
    disk: &mut D,
    own: &Name,
    synced: &[u8],
    unsynced: &[u8],
) -> Result<(), Failed> {
    disk.create(own)?;
    disk.cut(own, 0)?;
    disk.write_at(own, 0, synced)?;
    disk.sync(own)?;
    disk.write_at(own, 0, unsynced)
}

// A synced file that is renamed, and one of its name that is removed. Seven calls.
fn put_and_remove<D: Disk>(disk: &mut D, own: &Name, to: &Name) -> Result<(), Failed> {
    disk.create(own)?;
    disk.cut(own, 0)?;
    disk.write_at(own, 0, b"abc")?;
    disk.sync(own)?;
    disk.rename(own, to)?;
    disk.create(own)?;
    disk.remove(own)
}

// A write behind a front that the file has.
fn write_behind<D: Disk>(disk: &mut D, own: &Name, at: u64, text: &[u8]) -> Result<(), Failed> {
    match disk.stat(own)? {
        Some(len) if at <= len => disk.write_at(own, at, text),
        _ => Err(Failed),
    }
}

// Two pieces in a file that has their places.
fn write_both<D: Disk>(
    disk: &mut D,
    own: &Name,
    first: Piece<'_>,
    second: Piece<'_>,
) -> Result<(), Failed> {
    match disk.stat(own)? {
        Some(len) if first.at.max(second.at) <= len => write_twice(disk, own, first, second),
        _ => Err(Failed),
    }
}

// The piece of a file whose place stands at a place among the words, and its text behind that.
fn piece<'a>(words: &[&'a str], place: usize) -> Result<Piece<'a>> {
    let at = number(words, place)?;
    let bytes = word(words, place.saturating_add(1)).as_bytes();
    Ok(Piece { at, bytes })
}

/// The bytes of an own file, where it stands.
pub fn file<D: Disk>(alloc: Global, disk: &mut D, own: &Name) -> Result<Option<Vec<u8>>, Failed> {
    let Some(len) = disk.stat(own)? else {
        return Ok(None);
    };
    let mut found = vec![in alloc; 0; len as usize].map_err(|_| Failed)?;
    disk.read_at(own, 0, &mut found)?;
    Ok(Some(found))
}

// The bytes of an own file, as they are printed.
fn say_file(alloc: Global, disk: &mut MemDisk, words: &[&str], out: &mut String) -> Result<()> {
    match file(alloc, disk, &name(words, 1)?)? {
        Some(found) => say_found(alloc, found.as_slice(), out),
        None => say_text(out, "none"),
    }
}

fn say_found(alloc: Global, found: &[u8], out: &mut String) -> Result<()> {
    say_count(out, "", found.len() as u64, " bytes, ")?;
    say_bytes(alloc, out, found)
}

fn say_names(alloc: Global, names: &[Name], out: &mut String) -> Result<()> {
    say_text(out, "the names")?;
    for name in names {
        say_text(out, " ")?;
        say_bytes(alloc, out, name.as_slice())?;
    }
    Ok(())
}

// The names of the own files.
fn list(alloc: Global, disk: &mut MemDisk, out: &mut String) -> Result<()> {
    match disk.list() {
        Ok(names) => say_names(alloc, names.as_slice(), out),
        Err(_) => say(out, Failed),
    }
}

fn put(disk: &mut MemDisk, words: &[&str], out: &mut String) -> Result<()> {
    let (synced, unsynced) = (word(words, 2).as_bytes(), word(words, 3).as_bytes());
    say(out, put_and_write(disk, &name(words, 1)?, synced, unsynced))
}

fn rename(disk: &mut MemDisk, words: &[&str], out: &mut String) -> Result<()> {
    let to = name(words, 2)?;
    say(out, put_and_remove(disk, &name(words, 1)?, &to))
}

fn create(disk: &mut MemDisk, words: &[&str], out: &mut String) -> Result<()> {
    say(out, disk.create(&name(words, 1)?))
}

fn twice(disk: &mut MemDisk, words: &[&str], out: &mut String) -> Result<()> {
    let (first, second) = (piece(words, 2)?, piece(words, 4)?);
    say(out, write_both(disk, &name(words, 1)?, first, second))
}

fn behind(alloc: Global, disk: &mut MemDisk, words: &[&str], out: &mut String) -> Result<()> {
    let (own, at) = (name(words, 1)?, number(words, 2)?);
    let text = pieces(alloc, words_from(words, 3))?;
    say(out, write_behind(disk, &own, at, text.as_slice()))
}

fn store(alloc: Global, disk: &mut MemDisk, words: &[&str], out: &mut String) -> Result<()> {
    let own = name(words, 1)?;
    let text = pieces(alloc, words_from(words, 2))?;
    say(out, put_file(disk, &own, text.as_slice()))
}

/// A call of the own folder, by its words.
pub fn own_call(alloc: Global, disk: &mut MemDisk, words: &[&str], out: &mut String) -> Result<()> {
    match word(words, 0) {
        "list" => list(alloc, disk, out),
        "put" => put(disk, words, out),
        "move" => rename(disk, words, out),
        "create" => create(disk, words, out),
        "file" => say_file(alloc, disk, words, out),
        "twice" => twice(disk, words, out),
        "behind" => behind(alloc, disk, words, out),
        _ => store(alloc, disk, words, out),
    }
}

//! The calls on files of other programs.
use crate::own::{name, pieces};
use crate::saying::{no_such, say, say_bytes, say_text};
use anyhow::Result;
use disk_model::{Giving, ListFault, Moved, Name, OutStat, Yard};
use ftn_addr::{Bytes, Failed};
use mem_disk::MemDisk;
use std::alloc::Global;
use test_script::{bytes, number, word, words_from};

// An own file that is made and given.
fn give_new<Y: Yard>(
    yard: &mut Y,
    own: &Name,
    folder: &Bytes,
    name: &Bytes,
) -> Result<Giving, Failed> {
    yard.create(own)?;
    yard.give(own, folder, name)
}

// An outside file becomes an own one, whose name is free.
fn take_free<Y: Yard>(yard: &mut Y, path: &Bytes, own: &Name) -> Result<Moved, Failed> {
    match yard.stat(own)? {
        None => yard.take(path, own),
        Some(_) => Err(Failed),
    }
}

// The size and the time of an outside file, behind its path.
fn stat(words: &[&str]) -> Result<OutStat> {
    let (size, time) = (number(words, 2)?, number(words, 3)?);
    Ok(OutStat { size, time })
}

fn put(
    alloc: Global,
    disk: &mut MemDisk,
    words: &[&str],
    path: &Bytes,
    out: &mut String,
) -> Result<()> {
    let time = number(words, 2)?;
    let text = pieces(alloc, words_from(words, 3))?;
    say(out, disk.put_out(path, text.as_slice(), time))
}

fn copy(disk: &mut MemDisk, words: &[&str], path: &Bytes, out: &mut String) -> Result<()> {
    let most = number(words, 3)?;
    say(out, disk.copy(path, &name(words, 2)?, most))
}

fn take(disk: &mut MemDisk, words: &[&str], path: &Bytes, out: &mut String) -> Result<()> {
    say(out, take_free(disk, path, &name(words, 2)?))
}

fn remove(disk: &mut MemDisk, words: &[&str], path: &Bytes, out: &mut String) -> Result<()> {
    say(out, disk.remove_if(path, &stat(words)?))
}

fn cut(disk: &mut MemDisk, words: &[&str], path: &Bytes, out: &mut String) -> Result<()> {
    say(out, disk.cut_if(path, &stat(words)?))
}

fn give(
    disk: &mut MemDisk,
    words: &[&str],
    folder: &Bytes,
    name_in: &Bytes,
    out: &mut String,
) -> Result<()> {
    say(out, give_new(disk, &name(words, 3)?, folder, name_in))
}

fn say_names(alloc: Global, names: &[Bytes], out: &mut String) -> Result<()> {
    say_text(out, "the names")?;
    for name in names {
        say_text(out, " ")?;
        say_bytes(alloc, out, name.as_slice())?;
    }
    Ok(())
}

// The names in a folder.
fn names(alloc: Global, disk: &mut MemDisk, folder: &Bytes, out: &mut String) -> Result<()> {
    match disk.names(folder) {
        Ok(names) => say_names(alloc, names.as_slice(), out),
        Err(fault) => say(out, Err::<(), ListFault>(fault)),
    }
}

// The call, of a path and a text.
fn path_call(
    alloc: Global,
    disk: &mut MemDisk,
    words: &[&str],
    path: &Bytes,
    text: &Bytes,
    out: &mut String,
) -> Result<()> {
    match word(words, 0) {
        "out" => put(alloc, disk, words, path, out),
        "look" => say(out, disk.look(path)),
        "copy" => copy(disk, words, path, out),
        "take" => take(disk, words, path, out),
        "remove" => remove(disk, words, path, out),
        "cut" => cut(disk, words, path, out),
        "mark" => say(out, disk.mark(path, text)),
        "unmark" => say(out, disk.unmark(path, text)),
        "give" => give(disk, words, path, text, out),
        "names" => names(alloc, disk, path, out),
        _ => no_such("call"),
    }
}

/// A call on files of other programs, by its words.
pub fn outside_call(
    alloc: Global,
    disk: &mut MemDisk,
    words: &[&str],
    out: &mut String,
) -> Result<()> {
    let path = bytes(alloc, word(words, 1).trim_matches('"'))?;
    let text = bytes(alloc, word(words, 2))?;
    path_call(alloc, disk, words, &path, &text, out)
}

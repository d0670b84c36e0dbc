//! The calls of the folder, by their words.
use crate::words::name;
use anyhow::{Result, bail};
use disk_model::{Copied, Disk, Name, OutStat, Yard};
use ftn_addr::{Bytes, Failed};
use real_edge::RealFolder;
use std::alloc::Global;
use std::fmt::Debug;
use std::str;
use test_files::Watched;
use test_script::{bytes, number, word};

/// Before this no test is made, in seconds since 1970.
const LONG_AGO: u64 = 1_600_000_000;

/// The folder, with the system's calls noted.
pub type Folder<'a> = RealFolder<Watched<'a, HostRuntime>>;

fn said<T: Debug + Drop>(alloc: Global, answer: T) -> Result<String> {
    Ok(format!(in alloc; "{answer:?}")?)
}

fn push_text(text: &mut String, bytes: &[u8]) -> Result<()> {
    text.push_str(" ")?;
    text.push_str(str::from_utf8(bytes).unwrap_or("?"))?;
    Ok(())
}

// The size of a file and when its bytes changed, which is now where that is later than what is put anywhere.
fn stat_text(alloc: Global, stat: OutStat) -> Result<String> {
    let size = stat.size;
    Ok(if stat.time < LONG_AGO {
        format!(in alloc; "Ok {size} bytes of {}", stat.time)?
    } else {
        format!(in alloc; "Ok {size} bytes of now")?
    })
}

// The names of the own files.
fn list(alloc: Global, folder: &mut Folder<'_>) -> Result<String> {
    let Ok(names) = folder.list() else {
        return said(alloc, Err::<(), Failed>(Failed));
    };
    let mut text = String::from_str(alloc, "Ok")?;
    for name in &names {
        push_text(&mut text, name.as_slice())?;
    }
    Ok(text)
}

// The names in an outside folder.
fn names(alloc: Global, folder: &mut Folder<'_>, path: &Bytes) -> Result<String> {
    let Ok(names) = folder.names(path) else {
        return said(alloc, Err::<(), Failed>(Failed));
    };
    let mut text = String::from_str(alloc, "Ok")?;
    for name in &names {
        push_text(&mut text, name.as_slice())?;
    }
    Ok(text)
}

// So many bytes from a place on, at most eight.
fn read(alloc: Global, folder: &mut Folder<'_>, own: &Name, words: &[&str]) -> Result<String> {
    let (at, len) = (number(words, 2)?, number(words, 3)?);
    let mut out = [0; 8];
    let piece = &mut out[..usize::try_from(len.min(8))?];
    let answer = folder.read_at(own, at, piece);
    let mut text = said(alloc, answer)?;
    if answer.is_ok() {
        push_text(&mut text, piece)?;
    }
    Ok(text)
}

fn write(alloc: Global, folder: &mut Folder<'_>, own: &Name, words: &[&str]) -> Result<String> {
    let at = number(words, 2)?;
    said(alloc, folder.write_at(own, at, word(words, 3).as_bytes()))
}

fn cut(alloc: Global, folder: &mut Folder<'_>, own: &Name, words: &[&str]) -> Result<String> {
    let len = number(words, 2)?;
    said(alloc, folder.cut(own, len))
}

fn rename(alloc: Global, folder: &mut Folder<'_>, own: &Name, words: &[&str]) -> Result<String> {
    let to = name(words, 2)?;
    said(alloc, folder.rename(own, &to))
}

/// The calls of an own file.
const OWN_CALLS: [&str; 8] = [
    "stat", "create", "read", "write", "cut", "sync", "rename", "remove",
];

// One of these.
fn own_call(alloc: Global, folder: &mut Folder<'_>, words: &[&str]) -> Result<String> {
    let own = name(words, 1)?;
    match word(words, 0) {
        "stat" => said(alloc, folder.stat(&own)),
        "create" => said(alloc, folder.create(&own)),
        "read" => read(alloc, folder, &own, words),
        "write" => write(alloc, folder, &own, words),
        "cut" => cut(alloc, folder, &own, words),
        "sync" => said(alloc, folder.sync(&own)),
        "rename" => rename(alloc, folder, &own, words),
        _ => said(alloc, folder.remove(&own)),
    }
}

// The file that was looked at last, or one of another size or time.
fn meant(was: OutStat, word: &str) -> OutStat {
    match word {
        "size" => OutStat {
            size: was.size.wrapping_add(1),
            ..was
        },
        "time" => OutStat {
            time: was.time.wrapping_sub(1),
            ..was
        },
        _ => was,
    }
}

fn look(alloc: Global, folder: &mut Folder<'_>, was: &mut OutStat, path: &Bytes) -> Result<String> {
    match folder.look(path) {
        Ok(Some(stat)) => {
            *was = stat;
            stat_text(alloc, stat)
        }
        Ok(None) => Ok(String::from_str(alloc, "Ok none")?),
        Err(failed) => said(alloc, Err::<(), Failed>(failed)),
    }
}

fn take(alloc: Global, folder: &mut Folder<'_>, path: &Bytes, words: &[&str]) -> Result<String> {
    let own = name(words, 2)?;
    said(alloc, folder.take(path, &own))
}

fn copy(alloc: Global, folder: &mut Folder<'_>, path: &Bytes, words: &[&str]) -> Result<String> {
    let (own, most) = (name(words, 2)?, number(words, 3)?);
    match folder.copy(path, &own, most) {
        Ok(Copied::Copied(stat)) => stat_text(alloc, stat),
        answer => said(alloc, answer),
    }
}

fn mark(alloc: Global, folder: &mut Folder<'_>, path: &Bytes, words: &[&str]) -> Result<String> {
    let text = bytes(alloc, word(words, 2))?;
    said(alloc, folder.mark(path, &text))
}

fn unmark(alloc: Global, folder: &mut Folder<'_>, path: &Bytes, words: &[&str]) -> Result<String> {
    let text = bytes(alloc, word(words, 2))?;
    said(alloc, folder.unmark(path, &text))
}

// Gives the own file to a folder, under a name.
fn give_to(
    alloc: Global,
    folder: &mut Folder<'_>,
    own: &Name,
    to: &Bytes,
    words: &[&str],
) -> Result<String> {
    let as_name = bytes(alloc, word(words, 3))?;
    said(alloc, folder.give(own, to, &as_name))
}

fn give(alloc: Global, folder: &mut Folder<'_>, words: &[&str]) -> Result<String> {
    let own = name(words, 1)?;
    let to = bytes(alloc, word(words, 2))?;
    give_to(alloc, folder, &own, &to, words)
}

fn no_such_call() -> Result<String> {
    bail!("no such call")
}

// A call of the file, the folder or the mark under a path.
fn outside_call(
    alloc: Global,
    folder: &mut Folder<'_>,
    was: &mut OutStat,
    words: &[&str],
) -> Result<String> {
    let path = bytes(alloc, word(words, 1))?;
    match word(words, 0) {
        "look" => look(alloc, folder, was, &path),
        "names" => names(alloc, folder, &path),
        "take" => take(alloc, folder, &path, words),
        "copy" => copy(alloc, folder, &path, words),
        "remove_if" => said(alloc, folder.remove_if(&path, &meant(*was, word(words, 2)))),
        "cut_if" => said(alloc, folder.cut_if(&path, &meant(*was, word(words, 2)))),
        "mark" => mark(alloc, folder, &path, words),
        "unmark" => unmark(alloc, folder, &path, words),
        _ => no_such_call(),
    }
}

/// Makes the call of these words: what it answers. What a look finds is what is meant by the next `remove_if` and `cut_if`.
pub fn call(
    alloc: Global,
    folder: &mut Folder<'_>,
    was: &mut OutStat,
    words: &[&str],
) -> Result<String> {
    match word(words, 0) {
        "list" => list(alloc, folder),
        "give" => give(alloc, folder, words),
        own if OWN_CALLS.contains(&own) => own_call(alloc, folder, words),
        _ => outside_call(alloc, folder, was, words),
    }
}

//! The busy mark of 2:5020/1042 and its note.
use crate::own::{file, name};
use crate::saying::{no_such, say, say_bytes, say_text};
use anyhow::Result;
use busy_marks::{clear_note, mark_addr, mark_text, unmark_addr};
use disk_model::{Copied, Name, Yard};
use ftn_addr::{Addr, Bytes};
use mem_disk::MemDisk;
use std::alloc::Global;
use test_script::word;

const NOTE: &str = "m0002139c04120000.bsy";

const PATH: &str = "outbound/139c0412.bsy";

// What 2:5047/13@fidonet writes into it.
const TEXT: &str = "binkp 2:5047/13@fidonet\n";

const OTHERS: &str = "1042 busy";

// What a file holds: the path or the text of the mark, what another program wrote, or something else.
fn word_of(found: &[u8]) -> &'static str {
    if found == PATH.as_bytes() {
        "the path"
    } else if found == TEXT.as_bytes() {
        "the text"
    } else if found == OTHERS.as_bytes() {
        "another's"
    } else {
        "something else"
    }
}

// What the own file of that name holds, nothing where it doesn't stand.
fn say_own(alloc: Global, disk: &mut MemDisk, own: &Name, out: &mut String) -> Result<()> {
    match file(alloc, disk, own)? {
        Some(found) => say_text(out, word_of(found.as_slice())),
        None => say_text(out, "nothing"),
    }
}

// What the outside file of that path holds.
fn say_outside(alloc: Global, disk: &mut MemDisk, path: &Bytes, out: &mut String) -> Result<()> {
    let copy = name(&["copy"], 0)?;
    match disk.copy(path, &copy, 100)? {
        Copied::Copied(_) => say_own(alloc, disk, &copy, out),
        Copied::Absent => say_text(out, "nothing"),
        Copied::Over => say_text(out, "something else"),
    }
}

fn state(alloc: Global, disk: &mut MemDisk, path: &str, out: &mut String) -> Result<()> {
    say_own(alloc, disk, &name(&[NOTE], 0)?, out)?;
    say_text(out, ", ")?;
    let path = Bytes::from_slice(alloc, path.as_bytes())?;
    say_outside(alloc, disk, &path, out)
}

// The text of a mark that 2:5047/13 of a domain makes.
fn text_of(alloc: Global, domain: &str, out: &mut String) -> Result<()> {
    let home = Addr {
        zone: 2,
        net: 5047,
        node: 13,
        point: 0,
        domain: Bytes::from_slice(alloc, domain.as_bytes())?,
    };
    let text = mark_text(alloc, &home)?;
    say_bytes(alloc, out, text.as_slice())
}

// Makes, undoes or clears the mark of that path and text.
fn call_of<Y: Yard>(
    alloc: Global,
    yard: &mut Y,
    word: &str,
    path: &Bytes,
    text: &Bytes,
    out: &mut String,
) -> Result<()> {
    let note = name(&[NOTE], 0)?;
    match word {
        "mark" => say(out, mark_addr(yard, path, &note, text)),
        "unmark" => say(out, unmark_addr(yard, path, &note, text)),
        "clear" => say(out, clear_note(alloc, yard, &note, text)),
        _ => no_such("call of a mark"),
    }
}

fn mark_call<Y: Yard>(alloc: Global, yard: &mut Y, word: &str, out: &mut String) -> Result<()> {
    let path = Bytes::from_slice(alloc, PATH.as_bytes())?;
    let text = Bytes::from_slice(alloc, TEXT.as_bytes())?;
    call_of(alloc, yard, word, &path, &text, out)
}

/// A call of the mark, by its words.
pub fn busy_call(
    alloc: Global,
    disk: &mut MemDisk,
    words: &[&str],
    out: &mut String,
) -> Result<()> {
    match word(words, 1) {
        "state" => state(alloc, disk, word(words, 2), out),
        "text" => text_of(alloc, word(words, 2), out),
        call => mark_call(alloc, disk, call, out),
    }
}

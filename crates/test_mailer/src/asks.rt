//! What is asked of the disk behind a call, and of what was told.
//!
//! ```text
//! calls, syncs, faults                 the calls of the disk, how many were syncs, and how many failed
//! files, names FOLDER                  the names of the own files, and of those in an outside folder
//! size PATH                            the size of an outside file
//! show PATH                            its bytes, of which a copy is left in the own folder
//! read NAME                            the bytes of an own file
//! keep, kept                           whether the own files are as they were at `keep`; of one, `keep NAME` and `kept NAME`
//! status                               the status of the last call
//! printed                              what it printed, where it held a session
//! fault                                whether nothing was told, or at last a disk fault
//! heard PIECE..                        whether that was told
//! woven ONE PIECE..                    whether the pieces were told, with ONE anywhere behind the first
//! report                               the line of a session
//! memory                               how the program ends where there is no memory for its words
//! ```
use crate::calls::{end_for_memory, said};
use crate::stage::Stage;
use crate::texts::{Texts, push_bytes};
use disk_model::Disk;
use ftn_addr::{Addr, Bytes, Failed};
use mem_disk::MemDisk;
use mem_node::{files_of, names_in, outside_file, own_file, size_at};
use session_core::{Cause, End};
use session_lines::push_session;
use session_run::Report;
use std::alloc::Global;
use std::test::Fail;
use test_script::{word, words_from};

const DISK_FAULT: &[u8] = b"\x80\x0b\x07disk fault";

fn is_or_not(is_so: bool) -> &'static str {
    if is_so { " yes" } else { " no" }
}

/// The names and bytes of the own files, or of the one of that name.
pub fn own_bytes(alloc: Global, disk: &mut MemDisk, only: &str) -> Result<Bytes, Fail> {
    let mut all = Bytes::new(alloc);
    for name in &files_of(disk)? {
        if !only.is_empty() && name.as_slice() != only.as_bytes() {
            continue;
        }
        all.push_slice(name.as_slice())?;
        let bytes = own_file(alloc, disk, name.as_slice())?.ok_or(Failed)?;
        all.push_number(alloc, bytes.len() as u64)?;
        all.push_slice(b" ")?;
        all.push_slice(bytes.as_slice())?;
    }
    Ok(all)
}

fn files(alloc: Global, disk: &mut MemDisk) -> Result<String, Fail> {
    let mut text = String::new(alloc);
    for name in &files_of(disk)? {
        text.push_str(" ")?;
        push_bytes(alloc, name.as_slice(), &mut text)?;
    }
    Ok(text)
}

fn names(alloc: Global, disk: &mut MemDisk, folder: &str) -> Result<String, Fail> {
    let mut text = String::new(alloc);
    for name in &names_in(alloc, disk, folder.as_bytes())? {
        text.push_str(" ")?;
        push_bytes(alloc, name.as_slice(), &mut text)?;
    }
    Ok(text)
}

// These bytes behind a blank.
fn line(alloc: Global, bytes: &[u8]) -> Result<String, Fail> {
    let mut text = String::from_str(alloc, " ")?;
    push_bytes(alloc, bytes, &mut text)?;
    Ok(text)
}

// The bytes of a file.
fn shown(alloc: Global, file: Option<Vec<u8>>) -> Result<String, Fail> {
    let Some(bytes) = file else {
        return Ok(String::from_str(alloc, " none")?);
    };
    if bytes.is_empty() {
        return Ok(String::from_str(alloc, " empty")?);
    }
    line(alloc, bytes.as_slice())
}

fn show(alloc: Global, disk: &mut MemDisk, path: &str) -> Result<String, Fail> {
    let file = outside_file(alloc, disk, path.as_bytes())?;
    shown(alloc, file)
}

fn read(alloc: Global, disk: &mut MemDisk, name: &str) -> Result<String, Fail> {
    let file = own_file(alloc, disk, name.as_bytes())?;
    shown(alloc, file)
}

fn size(alloc: Global, disk: &mut MemDisk, path: &str) -> Result<String, Fail> {
    let size = size_at(alloc, disk, path.as_bytes())?;
    Ok(said(alloc, size)?)
}

fn ask_disk(alloc: Global, disk: &mut MemDisk, words: &[&str]) -> Result<String, Fail> {
    let path = word(words, 1);
    match word(words, 0) {
        "calls" => Ok(said(alloc, disk.calls())?),
        "syncs" => Ok(said(alloc, disk.syncs())?),
        "faults" => Ok(said(alloc, disk.faults())?),
        "files" => files(alloc, disk),
        "names" => names(alloc, disk, path),
        "size" => size(alloc, disk, path),
        "show" => show(alloc, disk, path),
        "read" => read(alloc, disk, path),
        _ => Err(Failed.into()),
    }
}

// Whether nothing was told, or a disk fault at last.
fn is_fault(told: &[u8]) -> bool {
    told.is_empty() || told.ends_with(DISK_FAULT)
}

fn is_heard(texts: &Texts, told: &[u8], words: &[&str]) -> Result<bool, Fail> {
    let all = texts.joined(words)?;
    Ok(all.as_slice() == told)
}

// All words but the first, with the first at that place.
fn woven(texts: &Texts, words: &[&str], place: usize) -> Result<Bytes, Fail> {
    let mut all = texts.joined(words.get(1..place).unwrap_or(words))?;
    texts.push_all(words.get(..1).unwrap_or(words), &mut all)?;
    texts.push_all(words_from(words, place), &mut all)?;
    Ok(all)
}

// Whether the words but the first were told, with the first anywhere behind the second.
fn is_woven(texts: &Texts, told: &[u8], words: &[&str]) -> Result<bool, Fail> {
    for place in 2..=words.len() {
        let all = woven(texts, words, place)?;
        if all.as_slice() == told {
            return Ok(true);
        }
    }
    Ok(false)
}

// The line of a session.
fn report(alloc: Global) -> Result<String, Fail> {
    let peer = Addr {
        zone: 2,
        net: 5020,
        node: 7,
        point: 3,
        domain: Bytes::from_slice(alloc, b"fidonet")?,
    };
    let report = Report {
        session: 4,
        peer: Some(peer),
        sent: 1,
        received: 20,
        skipped: 300,
        taken: 5,
        wrote: 6,
        end: End::Broke(Cause::Late, 9),
    };
    let mut said = Bytes::new(alloc);
    push_session(alloc, &report, &mut said)?;
    line(alloc, said.as_slice())
}

// What is asked of the own files that were kept, and of what was told.
fn is_so<W>(stage: &mut Stage<W>, words: &[&str]) -> Result<String, Fail> {
    let rest = words_from(words, 1);
    let is_so = match word(words, 0) {
        "fault" => is_fault(stage.told.as_slice()),
        "heard" => is_heard(&stage.texts, stage.told.as_slice(), rest)?,
        "woven" => is_woven(&stage.texts, stage.told.as_slice(), rest)?,
        _ => {
            let own = own_bytes(stage.alloc, &mut stage.disk, word(words, 1))?;
            own.as_slice() == stage.kept.as_slice()
        }
    };
    Ok(String::from_str(stage.alloc, is_or_not(is_so))?)
}

/// What the question of these words answers.
pub fn ask<W>(stage: &mut Stage<W>, words: &[&str]) -> Result<String, Fail> {
    let alloc = stage.alloc;
    match word(words, 0) {
        "kept" | "fault" | "heard" | "woven" => is_so(stage, words),
        "status" => line(alloc, stage.status.as_slice()),
        "printed" => line(alloc, stage.printed.as_slice()),
        "report" => report(alloc),
        "memory" => end_for_memory(alloc),
        _ => ask_disk(alloc, &mut stage.disk, words),
    }
}

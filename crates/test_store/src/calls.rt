//! The calls of the script, by their words.
use crate::intakes::{behind, intake};
use crate::names::{file_name, number_in};
use crate::stage::Stage;
use crate::texts::{told_bytes, told_file, told_names};
use disk_model::OutStat;
use ftn_addr::{Failed, NoMemory};
use mem_disk::MemDisk;
use mem_node::{
    Resting, finish_once, found, is_file, listed, mark_and_unmark, mark_once, names_in,
    outside_file, own_file, queue_of, read_once, reopened, seen, staged, take_once, with_outside,
    with_own, with_timed,
};
use node_store::TakeName;
use std::alloc::{AllocError, Global};
use std::test::Fail;
use test_script::{number, shown, word, words_from};

/// When an outside file changed last, where its line doesn't say it.
const CHANGED_AT: u64 = 900_000_000;

// A disk on which another program added to an outside file, or made it.
fn appended(alloc: Global, rest: Resting, path: &[u8], bytes: &[u8]) -> Result<Resting, Fail> {
    let mut disk = rest.into_disk();
    let mut all = match outside_file(alloc, &mut disk, path)? {
        Some(all) => all,
        None => Vec::new(alloc),
    };
    all.extend_from_slice(bytes)?;
    Ok(with_outside(alloc, reopened(disk)?, path, all.as_slice())?)
}

// The disk that the words make of one at rest.
fn made(
    alloc: Global,
    rest: Resting,
    words: &[&str],
    path: &[u8],
    bytes: &[u8],
) -> Result<Resting, Fail> {
    match word(words, 0) {
        "new" => Ok(Resting::new(alloc)),
        "out" => {
            let time = number(words, 3).unwrap_or(CHANGED_AT);
            Ok(with_timed(alloc, rest, path, bytes, time)?)
        }
        "append" => appended(alloc, rest, path, bytes),
        "own" => with_own(rest, path, bytes),
        _ => Ok(rest),
    }
}

// Makes another disk of the present one.
fn prepare(stage: &mut Stage, words: &[&str], path: &[u8], bytes: &[u8]) -> Result<String, Fail> {
    let rest = stage.take_rest()?;
    stage.disk = made(stage.alloc, rest, words, path, bytes)?.into_disk();
    Ok(String::new(stage.alloc))
}

// The takes that stand.
fn told_takes(alloc: Global, takes: &[TakeName]) -> Result<String, NoMemory> {
    let mut text = String::new(alloc);
    for take in takes {
        let own = shown(alloc, take.own.as_slice())?;
        let is = if take.recorded { "recorded" } else { "waits" };
        let between = if text.is_empty() { "" } else { ", " };
        let told = format!(in alloc; "{between}{own} {} {is}", take.take)?;
        text.push_str(told.as_str())?;
    }
    if text.is_empty() {
        text.push_str("none")?;
    }
    Ok(text)
}

fn take(stage: &mut Stage, path: &[u8]) -> Result<String, Fail> {
    let rest = stage.take_rest()?;
    let (took, disk) = take_once(stage.alloc, rest, path)?;
    stage.disk = disk;
    let Some((take, moved, left)) = took else {
        return Ok(String::from_str(stage.alloc, "refused")?);
    };
    let left = told_takes(stage.alloc, left.as_slice())?;
    Ok(format!(in stage.alloc; "{take} {moved:?}, then {left}")?)
}

fn open(stage: &mut Stage, is_all: bool) -> Result<String, Fail> {
    let rest = stage.take_rest()?;
    let ((takes, removed), left, disk) = found(stage.alloc, rest)?;
    stage.disk = disk;
    let left = told_takes(stage.alloc, left.as_slice())?;
    Ok(if is_all {
        format!(in stage.alloc; "{takes} wait, {removed} removed: {left}")?
    } else {
        format!(in stage.alloc; "{takes} wait: {left}")?
    })
}

fn finish(stage: &mut Stage) -> Result<String, Fail> {
    let rest = stage.take_rest()?;
    let (finished, disk) = finish_once(stage.alloc, rest)?;
    stage.disk = disk;
    let Some((recorded, left)) = finished else {
        return Ok(String::from_str(stage.alloc, "refused")?);
    };
    let recorded = told_takes(stage.alloc, recorded.as_slice())?;
    let left = told_takes(stage.alloc, left.as_slice())?;
    Ok(format!(in stage.alloc; "{recorded}, then {left}")?)
}

fn stage_first(stage: &mut Stage) -> Result<String, Fail> {
    let rest = stage.take_rest()?;
    let ((number, len), disk) = staged(stage.alloc, rest)?;
    stage.disk = disk;
    Ok(format!(in stage.alloc; "{number} of {len} bytes")?)
}

fn mark(stage: &mut Stage, path: &[u8], text: &[u8]) -> Result<String, Fail> {
    let rest = stage.take_rest()?;
    let (answer, disk) = mark_once(stage.alloc, rest, path, text)?;
    stage.disk = disk;
    Ok(format!(in stage.alloc; "{answer:?}")?)
}

fn unmark(stage: &mut Stage, path: &[u8], text: &[u8]) -> Result<String, Fail> {
    let rest = stage.take_rest()?;
    stage.disk = mark_and_unmark(stage.alloc, rest, path, text)?;
    Ok(String::from_str(stage.alloc, "done")?)
}

// Reads an outside file that a store takes.
fn piece(stage: &mut Stage, words: &[&str], path: &[u8]) -> Result<String, Fail> {
    let (at, room) = (number(words, 2)?, number(words, 3)?);
    let rest = stage.take_rest()?;
    let piece = read_once(stage.alloc, rest, path, at, room as usize)?;
    Ok(told_bytes(stage.alloc, piece.as_slice())?)
}

fn told_stat(alloc: Global, stat: Option<OutStat>) -> Result<String, AllocError> {
    match stat {
        Some(stat) => format!(in alloc; "{} bytes of {}", stat.size, stat.time),
        None => String::from_str(alloc, "none"),
    }
}

fn see(alloc: Global, rest: Resting, path: &[u8]) -> Result<String, Fail> {
    let stat = seen(alloc, rest, path)?;
    Ok(told_stat(alloc, stat)?)
}

fn list(alloc: Global, rest: Resting, path: &[u8]) -> Result<String, Fail> {
    let names = listed(alloc, rest, path)?;
    Ok(told_names(alloc, names.as_slice())?)
}

fn queued(alloc: Global, rest: Resting) -> Result<String, Fail> {
    let count = queue_of(alloc, rest)?;
    Ok(format!(in alloc; "{count}")?)
}

// What a store says of the outside, and how many files it has queued.
fn ask_store(stage: &mut Stage, word: &str, path: &[u8]) -> Result<String, Fail> {
    let rest = stage.take_rest()?;
    match word {
        "see" => see(stage.alloc, rest, path),
        "list" => list(stage.alloc, rest, path),
        _ => queued(stage.alloc, rest),
    }
}

// What is on the disk.
fn ask_disk(
    alloc: Global,
    disk: &mut MemDisk,
    words: &[&str],
    path: &[u8],
    bytes: &[u8],
) -> Result<String, Fail> {
    match word(words, 0) {
        "names" => Ok(told_names(alloc, names_in(alloc, disk, path)?.as_slice())?),
        "show" => Ok(told_file(alloc, outside_file(alloc, disk, path)?)?),
        "read" => Ok(told_file(alloc, own_file(alloc, disk, path)?)?),
        _ => {
            let is_same = is_file(own_file(alloc, disk, path)?, bytes);
            Ok(String::from_str(alloc, if is_same { "yes" } else { "no" })?)
        }
    }
}

// The greatest of the numbers that is no more than that one; 0 where none is.
fn greatest(alloc: Global, words: &[&str], most: u64) -> Result<String, Fail> {
    let mut greatest = 0;
    for word in words_from(words, 1) {
        let number = word.parse::<u64>()?;
        if number <= most {
            greatest = number.max(greatest);
        }
    }
    Ok(format!(in alloc; "{greatest}")?)
}

/// Makes the call of these words, of which the second and the third stand for these bytes: what it answers, or nothing.
pub fn call(stage: &mut Stage, words: &[&str], path: &[u8], bytes: &[u8]) -> Result<String, Fail> {
    let alloc = stage.alloc;
    match word(words, 0) {
        "new" | "out" | "append" | "own" | "reopen" => prepare(stage, words, path, bytes),
        "open" => open(stage, true),
        "takes" => open(stage, false),
        "take" => take(stage, path),
        "finish" => finish(stage),
        "stage" => stage_first(stage),
        "mark" => mark(stage, path, bytes),
        "unmark" => unmark(stage, path, bytes),
        "intake" => intake(stage, words),
        "behind" | "ends" => behind(stage, words),
        "piece" => piece(stage, words, path),
        "see" | "list" | "queued" => ask_store(stage, word(words, 0), path),
        "names" | "show" | "read" | "holds" => {
            ask_disk(alloc, &mut stage.disk, words, path, bytes)
        }
        "calls" => greatest(alloc, words, stage.disk.calls()),
        "left" => greatest(alloc, words, stage.left),
        "file" => file_name(alloc, words),
        "number" => number_in(alloc, words),
        _ => Err(Failed.into()),
    }
}

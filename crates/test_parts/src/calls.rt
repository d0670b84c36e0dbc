//! The calls of the script, by their words, and those of the disk as a whole.
use crate::folds::record_call;
use crate::indexes::index_steps;
use crate::ledger::ledger_steps;
use crate::marks::busy_call;
use crate::nodelists::list_call;
use crate::outside::outside_call;
use crate::own::own_call;
use crate::saying::{say, say_count};
use anyhow::Result;
use disk_model::Disk;
use ftn_addr::NoMemory;
use ledger_rec::Folded;
use mem_disk::MemDisk;
use std::alloc::Global;
use std::mem;
use test_script::{number, word, words_from};

fn renew(alloc: Global, disk: &mut MemDisk, out: &mut String) -> Result<()> {
    *disk = MemDisk::new(alloc);
    say(out, ())
}

fn fail(disk: &mut MemDisk, words: &[&str], out: &mut String) -> Result<()> {
    say(out, disk.fail_at(number(words, 1)?))
}

// What the disk counted.
fn counts(disk: &MemDisk, out: &mut String) -> Result<()> {
    let calls = disk.calls();
    say_count(out, "", calls, " calls, ")?;
    say_count(out, "", disk.faults(), " faults, ")?;
    say_count(out, "", disk.syncs() as u64, " syncs, ")?;
    say_count(out, "", disk.picks(calls), " picks")
}

fn picks(disk: &MemDisk, words: &[&str], out: &mut String) -> Result<()> {
    let after = number(words, 1)?.min(disk.calls());
    say(out, disk.picks(after))
}

// The disk becomes what a stop leaves, behind so many calls, or behind all where there are fewer.
fn stop(alloc: Global, disk: &mut MemDisk, pick: u64, after: u64) -> Result<u64, NoMemory> {
    let before = mem::replace(disk, MemDisk::new(alloc));
    let after = before.calls().min(after);
    match before.stop(after, pick) {
        Ok(left) => {
            *disk = left;
            Ok(after)
        }
        Err(_) => Err(NoMemory),
    }
}

fn stop_call(alloc: Global, disk: &mut MemDisk, words: &[&str], out: &mut String) -> Result<()> {
    let pick = number(words, 1)?;
    let after = number(words, 2).unwrap_or(u64::MAX);
    match stop(alloc, disk, pick, after) {
        Ok(after) => say(out, after),
        Err(fault) => say(out, fault),
    }
}

// A call of the disk as a whole, or one on its files.
fn disk_call(alloc: Global, disk: &mut MemDisk, words: &[&str], out: &mut String) -> Result<()> {
    match word(words, 0) {
        "new" => renew(alloc, disk, out),
        "fail" => fail(disk, words, out),
        "counts" => counts(disk, out),
        "picks" => picks(disk, words, out),
        "stop" => stop_call(alloc, disk, words, out),
        "put" | "move" | "store" | "create" | "list" | "file" | "behind" | "twice" => {
            own_call(alloc, disk, words, out)
        }
        _ => outside_call(alloc, disk, words, out),
    }
}

/// Makes the call of these words, of the disk or of what stands over it: what it answers comes behind the text.
pub fn call(
    alloc: Global,
    disk: &mut MemDisk,
    folded: &mut Folded,
    words: &[&str],
    out: &mut String,
) -> Result<()> {
    match word(words, 0) {
        "files" | "numbers" | "turns" | "set" => index_steps(alloc, words, out),
        "ledger" => ledger_steps(alloc, disk, words_from(words, 1), out),
        "busy" => busy_call(alloc, disk, words, out),
        "nodes" | "index" | "opens" | "compile" | "read" | "route" | "found" | "pair" => {
            list_call(alloc, disk, words, out)
        }
        "write"
        | "spell"
        | "fold"
        | "folded"
        | "longer"
        | "hold"
        | "waits"
        | "acts"
        | "queued"
        | "batch"
        | "many" => record_call(alloc, folded, words, out),
        _ => disk_call(alloc, disk, words, out),
    }
}

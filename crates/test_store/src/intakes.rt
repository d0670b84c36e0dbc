//! Taking the outbound in.
ghost use Rattle.std.specs.Prelude.{◌≤◌, IfOk};

use crate::stage::Stage;
use ftn_addr::{Bytes, Failed, NoMemory};
use mem_node::{Behind, left_behind, take_in_once};
use outbound_take::{TakeFault, Taken};
use std::alloc::Global;
use std::test::Fail;
use test_script::{number, shown, word};

// The number of an address at a place.
fn address_number(words: &[&str], place: usize) -> Result<u16, Fail>
    ensures { IfOk result (λ number. number ≤ 32767) }
{
    let number = u16::try_from(number(words, place)?)?;
    if 32767 < number {
        return Err(Failed.into());
    }
    Ok(number)
}

// The fates of each file.
fn told_taken(alloc: Global, taken: &Taken) -> Result<String, NoMemory> {
    let mut text = String::new(alloc);
    for file in &taken.files {
        if !text.is_empty() {
            text.push_str("; ")?;
        }
        let fates = format!(in alloc; "{:?}", file.fates)?;
        text.push_str(fates.as_str())?;
    }
    if text.is_empty() || !taken.over.is_empty() {
        let over = format!(in alloc; "over {:?}", taken.over)?;
        text.push_str(over.as_str())?;
    }
    Ok(text)
}

fn told_fault(alloc: Global, fault: &TakeFault) -> Result<String, NoMemory> {
    match fault {
        TakeFault::Marked(name) => {
            let name = shown(alloc, name.as_slice())?;
            Ok(format!(in alloc; "Marked {name}")?)
        }
        TakeFault::Disk | TakeFault::Full | TakeFault::NoMemory => {
            Ok(format!(in alloc; "{fault:?}")?)
        }
    }
}

// What a take-in answers.
fn told_answer(alloc: Global, answer: &Result<Taken, TakeFault>) -> Result<String, NoMemory> {
    match answer {
        Ok(taken) => told_taken(alloc, taken),
        Err(fault) => told_fault(alloc, fault),
    }
}

/// Takes the outbound in: the fates of each file.
pub fn intake(stage: &mut Stage, words: &[&str]) -> Result<String, Fail> {
    let (zone, point) = (address_number(words, 1)?, address_number(words, 2)?);
    let rest = stage.take_rest()?;
    let Some((answer, disk)) = take_in_once(stage.alloc, rest, zone, point)? else {
        return Ok(String::from_str(stage.alloc, "no store")?);
    };
    stage.disk = disk;
    Ok(told_answer(stage.alloc, &answer)?)
}

// How a take-in ended: with its fates, or not.
fn told_end(alloc: Global, behind: &Behind, is_fates: bool) -> Result<String, NoMemory> {
    match behind.fates() {
        Ok(fates) if is_fates => Ok(format!(in alloc; "{fates:?}")?),
        Ok(_) => Ok(String::from_str(alloc, "ended")?),
        Err(fault) => told_fault(alloc, fault),
    }
}

// The list and the outside files, a line for each.
fn told_left(alloc: Global, behind: &Behind) -> Result<String, NoMemory> {
    let mut left = Bytes::from_slice(alloc, b"\n")?;
    left.push_slice(behind.queue())?;
    left.push_slice(behind.outside())?;
    let text = shown(alloc, left.as_slice())?;
    Ok(text.as_str().replace(alloc, "\\x0a", "\n  ")?)
}

/// Takes the outbound in: how that ended, with the fates or without them, and what it leaves.
pub fn behind(stage: &mut Stage, words: &[&str]) -> Result<String, Fail> {
    let alloc = stage.alloc;
    let (zone, point) = (address_number(words, 1)?, address_number(words, 2)?);
    let rest = stage.take_rest()?;
    let behind = left_behind(alloc, rest, zone, point)?;
    let mut text = told_end(alloc, &behind, word(words, 0) == "behind")?;
    let left = told_left(alloc, &behind)?;
    text.push_str(left.as_str().trim_end())?;
    Ok(text)
}

//! Indexes of files, of numbers and of turns, each by steps on a new one.
use crate::saying::{no_such, say, say_text};
use anyhow::Result;
use file_index::{FileIndex, NumberIndex, NumberSet, Turn, TurnIndex};
use ftn_addr::{Addr, Bytes, FileKey};
use std::alloc::Global;
use test_script::{word, words_from};

fn node(alloc: Global, node: u64) -> Result<Addr> {
    Ok(Addr {
        zone: 2,
        net: 5047,
        node: u16::try_from(node)?,
        point: 0,
        domain: Bytes::from_slice(alloc, b"fidonet")?,
    })
}

fn key(alloc: Global, size: u64) -> Result<FileKey> {
    Ok(FileKey {
        name: Bytes::from_slice(alloc, b"a.txt")?,
        size,
        time: 1_000_000_000,
    })
}

// The numbers of a step, as those of `find:13:5`.
fn numbers_of(step: &str) -> Result<(u64, u64, u64)> {
    let mut numbers = step.split(":").skip(1);
    let first = numbers.next().unwrap_or("0").parse::<u64>()?;
    let second = numbers.next().unwrap_or("0").parse::<u64>()?;
    let third = numbers.next().unwrap_or("0").parse::<u64>()?;
    Ok((first, second, third))
}

// Notes and finds the file of that size for that node.
fn file_step(alloc: Global, index: &mut FileIndex, step: &str, out: &mut String) -> Result<()> {
    let (to, size, _) = numbers_of(step)?;
    let key = key(alloc, size)?;
    let to = node(alloc, to)?;
    if step.starts_with("note") {
        index.note(&to, &key);
        return say(out, ());
    }
    say(out, index.find(&to, &key))
}

// Notes a number at its place, finds it, and tells where it stands first of so many.
fn number_step(index: &mut NumberIndex, step: &str, out: &mut String) -> Result<()> {
    let (number, place, _) = numbers_of(step)?;
    let (number, place) = (u32::try_from(number)?, usize::try_from(place)?);
    if step.starts_with("note") {
        index.note(number, place);
        return say(out, ());
    }
    if step.starts_with("start") {
        return say(out, index.start(number, place));
    }
    say(out, index.find(number))
}

fn turn(rank: u64, number: u64) -> Result<Turn> {
    Ok(Turn {
        rank: u8::try_from(rank)?,
        number: u32::try_from(number)?,
    })
}

// The next turn of a node, behind that one where it is named.
fn next_turn(alloc: Global, index: &TurnIndex, step: &str, out: &mut String) -> Result<()> {
    let (to, rank, number) = numbers_of(step)?;
    let after = turn(rank, number)?;
    let is_behind = step.split(":").skip(2).next().is_some();
    let to = node(alloc, to)?;
    say(
        out,
        index.next(&to, if is_behind { Some(after) } else { None }),
    )
}

// Notes a turn of 2:5047/13 and takes it out, and tells the next of a node.
fn turn_step(alloc: Global, index: &mut TurnIndex, step: &str, out: &mut String) -> Result<()> {
    if step.starts_with("next") {
        return next_turn(alloc, index, step, out);
    }
    let (rank, number, _) = numbers_of(step)?;
    let turn = turn(rank, number)?;
    let to = node(alloc, 13)?;
    if step.starts_with("note") {
        index.note(&to, turn);
    } else {
        index.remove(&to, turn);
    }
    say(out, ())
}

// Notes a number and takes it out, and tells the next, behind that one where it is named.
fn set_step(set: &mut NumberSet, step: &str, out: &mut String) -> Result<()> {
    let number = u32::try_from(numbers_of(step)?.0)?;
    if step == "next" {
        return say(out, set.next(None));
    }
    if step.starts_with("next") {
        return say(out, set.next(Some(number)));
    }
    if step.starts_with("note") {
        set.note(number);
    } else {
        set.remove(number);
    }
    say(out, ())
}

/// An index of each kind, without anything noted.
#[derive(Drop)]
struct Indexes {
    files: FileIndex,
    numbers: NumberIndex,
    turns: TurnIndex,
    set: NumberSet,
}

impl Indexes {
    fn new(alloc: Global) -> Indexes {
        Indexes {
            files: FileIndex::new(alloc),
            numbers: NumberIndex::new(alloc),
            turns: TurnIndex::new(alloc),
            set: NumberSet::new(alloc),
        }
    }

    // A step on the index of that kind.
    fn step(&mut self, alloc: Global, kind: &str, step: &str, out: &mut String) -> Result<()> {
        match kind {
            "files" => file_step(alloc, &mut self.files, step, out),
            "numbers" => number_step(&mut self.numbers, step, out),
            "turns" => turn_step(alloc, &mut self.turns, step, out),
            "set" => set_step(&mut self.set, step, out),
            _ => no_such("index"),
        }
    }

    fn steps(&mut self, alloc: Global, kind: &str, steps: &[&str], out: &mut String) -> Result<()> {
        for step in steps {
            say_text(out, " ")?;
            self.step(alloc, kind, step, out)?;
        }
        Ok(())
    }
}

/// Steps on a new index of the kind that the first word names.
pub fn index_steps(alloc: Global, words: &[&str], out: &mut String) -> Result<()> {
    say_text(out, "answers")?;
    let mut indexes = Indexes::new(alloc);
    indexes.steps(alloc, word(words, 0), words_from(words, 1), out)
}

//! The calls of the program, and those of its store.
use crate::texts::{Texts, push_bytes, slices};
use binkp_link::MemSink;
use binkp_mailer::refuse_for_memory;
use ftn_addr::{Action, Failed};
use mem_disk::MemDisk;
use mem_mailer::{Found, Ran, Takes, call_by, call_over, call_slowly, end_of, run};
use mem_node::{Resting, act_once, with_queued, with_source};
use std::alloc::{AllocError, Global};
use std::fmt::Debug;
use std::sync::Wait;
use std::test::Fail;
use test_script::{number, word, words_from};

/// The place of `<`, `<<` or `<~`, behind which stands what the peer says: at once, one piece after another, or as a script has it.
pub fn saying_at(words: &[&str]) -> Option<usize> {
    for (place, word) in words.iter().enumerate() {
        if matches!(*word, "<" | "<<" | "<~") {
            return Some(place);
        }
    }
    None
}

// A call with a peer that says one piece after another.
fn slowly(
    alloc: Global,
    texts: &Texts,
    rest: Resting,
    named: &[&[u8]],
    words: &[&str],
) -> Result<Box<Ran>, Fail> {
    let pieces = texts.pieces(words)?;
    let pieces = slices(alloc, pieces.as_slice())?;
    Ok(call_slowly(alloc, rest, named, pieces.as_slice())?)
}

// What a read of a line finds by its word: `~` nothing, `!` that it is broken, and else what is said.
fn found(texts: &Texts, word: &str) -> Result<Found, Fail> {
    match word {
        "~" => Ok(Found::Nothing),
        "!" => Ok(Found::Fault),
        _ => Ok(Found::Bytes(texts.piece(word)?)),
    }
}

// What so many reads find by the same word.
fn push_found(texts: &Texts, times: u32, word: &str, all: &mut Vec<Found>) -> Result<(), Fail> {
    for _ in 0..times {
        all.push(found(texts, word)?)?;
    }
    Ok(())
}

// What the reads of a line find, in these words, each of which may come more than once, as in `60*~`.
fn all_found(alloc: Global, texts: &Texts, words: &[&str]) -> Result<Vec<Found>, Fail> {
    let mut all = Vec::new(alloc);
    for word in words {
        let (times, word) = word.split_once("*").unwrap_or(("1", word));
        push_found(texts, times.parse::<u32>()?, word, &mut all)?;
    }
    Ok(all)
}

// What a line takes by its word, which may be that of its reads.
fn takes(word: &str) -> Takes {
    match word {
        "^0" => Takes::Nothing,
        "^1" => Takes::NoWrite,
        "^3" => Takes::TwoWrites,
        _ => Takes::All,
    }
}

// A call over a line: behind what it takes or lets fail of the output, these words have what its reads find.
fn scripted(
    alloc: Global,
    texts: &Texts,
    rest: Resting,
    named: &[&[u8]],
    words: &[&str],
) -> Result<Box<Ran>, Fail> {
    let first = word(words, 0);
    let mut failing = Vec::new(alloc);
    if let Some(put) = first.strip_prefix("%") {
        failing.push(put.parse::<u64>()?)?;
    }
    let found = all_found(alloc, texts, words_from(words, 1))?;
    Ok(call_over(alloc, rest, named, found.as_slice(), takes(first), failing)?)
}

// A call with a peer that says what stands behind the first word, at once or one piece after another, or as a script has it.
fn heard(
    alloc: Global,
    texts: &Texts,
    rest: Resting,
    named: &[&[u8]],
    words: &[&str],
) -> Result<Box<Ran>, Fail> {
    let pieces = words_from(words, 1);
    match word(words, 0) {
        "<<" => slowly(alloc, texts, rest, named, pieces),
        "<~" => scripted(alloc, texts, rest, named, pieces),
        _ => {
            let said = texts.joined(pieces)?;
            Ok(call_by(alloc, rest, named, said.as_slice())?)
        }
    }
}

/// Makes the call of the words before that place, with a peer that says those behind it.
pub fn call(
    alloc: Global,
    texts: &Texts,
    rest: Resting,
    words: &[&str],
    place: usize,
) -> Result<Box<Ran>, Fail> {
    let named = texts.pieces(words.get(..place).unwrap_or(words))?;
    let named = slices(alloc, named.as_slice())?;
    heard(
        alloc,
        texts,
        rest,
        named.as_slice(),
        words_from(words, place),
    )
}

/// Runs the command of the words behind the first, which holds no session.
pub fn run_words(
    alloc: Global,
    texts: &Texts,
    rest: Resting,
    words: &[&str],
) -> Result<Box<Ran>, Fail> {
    let named = texts.pieces(words_from(words, 1))?;
    let named = slices(alloc, named.as_slice())?;
    Ok(run(alloc, rest, named.as_slice())?)
}

/// What a call of the store answers, and the disk behind it.
type Acted = Result<(String, MemDisk), Fail>;

// How a file is queued for a node of 2:5047.
fn queue(alloc: Global, texts: &Texts, rest: Resting, words: &[&str]) -> Acted {
    let node = u16::try_from(number(words, 1)?)?;
    if 32767 < node {
        return Err(Failed.into());
    }
    let (name, bytes) = (texts.piece(word(words, 2))?, texts.piece(word(words, 3))?);
    let (slot, rest) = with_queued(alloc, rest, node, name.as_slice(), bytes.as_slice())?;
    Ok((said(alloc, slot)?, rest.into_disk()))
}

fn action_of(word: &str) -> Result<Action, Fail> {
    match word {
        "leave" => Ok(Action::Leave),
        "delete" => Ok(Action::Delete),
        "cut" => Ok(Action::Cut),
        _ => Err(Failed.into()),
    }
}

// Queues the outside file of that path for 2:5047/13.
fn source(alloc: Global, rest: Resting, words: &[&str]) -> Acted {
    let action = action_of(word(words, 2))?;
    let rest = with_source(alloc, rest, word(words, 1).as_bytes(), action)?;
    Ok((String::from_str(alloc, " queued")?, rest.into_disk()))
}

/// An answer, behind a blank.
pub fn said<T: Debug + Drop>(alloc: Global, answer: T) -> Result<String, AllocError> {
    format!(in alloc; " {answer:?}")
}

// What the store answers where it is to act on the next source, or whether it does.
fn act_next(alloc: Global, rest: Resting, is_told: bool) -> Acted {
    let (acted, disk) = act_once(alloc, rest)?;
    let text = if is_told {
        said(alloc, acted)?
    } else {
        said(alloc, acted.is_ok())?
    };
    Ok((text, disk))
}

// How the program ends with these words, where nobody calls.
fn end<W: Wait>(rt: &W, alloc: Global, texts: &Texts, rest: Resting, words: &[&str]) -> Acted {
    let named = texts.pieces(words_from(words, 1))?;
    let named = slices(alloc, named.as_slice())?;
    let (exit, is_explained, told) = end_of(rt, alloc, rest, named.as_slice())?;
    let explained = if is_explained { "explained " } else { "" };
    let mut text = format!(in alloc; " {exit} {explained}")?;
    push_bytes(alloc, told.as_slice(), &mut text)?;
    Ok((text, MemDisk::new(alloc)))
}

/// How the program ends where there is no memory for its words.
pub fn end_for_memory(alloc: Global) -> Result<String, Fail> {
    let mut out = MemSink::new(alloc, Vec::new(alloc));
    let ended = refuse_for_memory(alloc, &mut out);
    let mut text = format!(in alloc; " {} ", ended.exit)?;
    push_bytes(alloc, out.written(), &mut text)?;
    Ok(text)
}

/// Whether a line that begins so is a call of the store, or ends the program.
pub fn is_acting(word: &str) -> bool {
    matches!(word, "queue" | "source" | "act" | "acts" | "ends")
}

/// Makes the call of these words.
pub fn act<W: Wait>(rt: &W, alloc: Global, texts: &Texts, rest: Resting, words: &[&str]) -> Acted {
    match word(words, 0) {
        "queue" => queue(alloc, texts, rest, words),
        "source" => source(alloc, rest, words),
        "act" => act_next(alloc, rest, true),
        "acts" => act_next(alloc, rest, false),
        _ => end(rt, alloc, texts, rest, words),
    }
}

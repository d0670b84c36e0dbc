//! Bytes that are put one behind the other, and the lines and words in them.
use crate::shown::{both_quoted, listed};
use anyhow::Result;
use ftn_addr::{Bytes, NoMemory, first_line, words};
use std::alloc::Global;
use test_script::{behind, bytes, number, word};

/// Adds a text so many times.
pub fn put(alloc: Global, times: u64, text: &str, out: &mut Bytes) -> Result<(), NoMemory> {
    let piece = bytes(alloc, text)?;
    for _ in 0..times {
        out.push_slice(piece.as_slice())?;
    }
    Ok(())
}

// Takes bytes away, or makes room. Whether the words say so.
fn trims(words: &[&str], text: &mut Bytes) -> Result<bool> {
    let count = || word(words, 1).parse::<usize>();
    match word(words, 0) {
        "reserve" => text.reserve(count()?)?,
        "drop" => text.drop_front(count()?.min(text.len())),
        "truncate" => text.truncate(count()?),
        _ => return Ok(false),
    }
    Ok(true)
}

/// Changes the text. Whether the line does so.
pub fn changes(alloc: Global, line: &str, words: &[&str], text: &mut Bytes) -> Result<bool> {
    let more = behind(line);
    match word(words, 0) {
        "|" => {
            put(alloc, 1, more, text)?;
            text.push_slice(b"\n")?;
        }
        "put" => put(alloc, number(words, 1)?, behind(more), text)?,
        "lower" => *text = Bytes::lower_case(alloc, more.as_bytes())?,
        "number" => text.push_number(alloc, number(words, 1)?)?,
        _ => return trims(words, text),
    }
    Ok(true)
}

/// The first line of a text, and what stands behind it.
pub fn line(alloc: Global, text: &[u8]) -> Result<String> {
    match first_line(text) {
        Some((line, rest)) => both_quoted(alloc, line, rest),
        None => Ok(String::from_str(alloc, "none")?),
    }
}

/// The words of a text.
pub fn words_in(alloc: Global, text: &[u8]) -> Result<String> {
    let words = words(alloc, text)?;
    Ok(listed(alloc, words.as_slice())?)
}

//! What the programs that play a script have in common: its lines and their words, and bytes as they are printed.
//!
//! A `\x` and two digits are a byte, in a word and in what is printed. There a `\` is `\x5c`.
#![tactic(auto)]

use binkp_args::unescape;
use ftn_addr::{Bytes, NoMemory};
use std::alloc::Global;
use std::num::ParseIntError;

/// The lines of a script.
pub fn lines_of(alloc: Global, text: &str) -> Result<Vec<&str>, NoMemory> {
    let mut lines = Vec::new(alloc);
    for line in text.lines() {
        lines.push(line)?;
    }
    Ok(lines)
}

/// The lines from one place to another, none where there are no such places.
pub fn between<'l, 't>(lines: &'l [&'t str], first: usize, last: usize) -> &'l [&'t str] {
    lines.get(first..last).unwrap_or(&lines[..0])
}

/// The words of a line, between blanks.
pub fn words_of(alloc: Global, line: &str) -> Result<Vec<&str>, NoMemory> {
    let mut words = Vec::new(alloc);
    for word in line.split_whitespace() {
        words.push(word)?;
    }
    Ok(words)
}

/// The word at a place, empty where there is none.
pub fn word<'a>(words: &[&'a str], place: usize) -> &'a str {
    words.get(place).copied().unwrap_or("")
}

/// The words from a place on.
pub fn words_from<'w, 'a>(words: &'w [&'a str], place: usize) -> &'w [&'a str] {
    words.get(place..).unwrap_or(&words[..0])
}

/// What stands behind the first blank.
pub fn behind(line: &str) -> &str {
    match line.split_once(' ') {
        Some((_, rest)) => rest,
        None => "",
    }
}

/// The number at a place.
pub fn number(words: &[&str], place: usize) -> Result<u64, ParseIntError> {
    word(words, place).parse::<u64>()
}

/// The bytes that a text stands for.
pub fn bytes(alloc: Global, text: &str) -> Result<Bytes, NoMemory> {
    let mut found = Bytes::new(alloc);
    unescape(alloc, text.as_bytes(), &mut found)?;
    Ok(found)
}

/// The bytes as text.
pub fn shown(alloc: Global, bytes: &[u8]) -> Result<String, NoMemory> {
    let mut text = String::new(alloc);
    for byte in bytes {
        push_shown(&mut text, *byte)?;
    }
    Ok(text)
}

// One byte more of a printed text.
fn push_shown(text: &mut String, byte: u8) -> Result<(), NoMemory> {
    if (b' '..=b'~').contains(&byte) && byte != b'\\' {
        text.push(char::from(byte))?;
    } else {
        text.push_str("\\x")?;
        text.push(digit(byte >> 4))?;
        text.push(digit(byte & 15))?;
    }
    Ok(())
}

// The digit for a half of a byte.
fn digit(half: u8) -> char {
    char::from_digit(u32::from(half), 16).unwrap_or('0')
}

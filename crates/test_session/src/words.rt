//! The words of a line.
use anyhow::{Context, Result};
use mem_talk::Offered;
use std::alloc::Global;
use test_script::word;

/// What stands before the bar, and behind it.
pub fn halves(line: &str) -> (&str, &str) {
    line.split_once("|").unwrap_or((line, ""))
}

/// The number at a place, which is `n` where `N` stands there.
pub fn number(words: &[&str], place: usize, n: u64) -> Result<u64> {
    let word = word(words, place);
    if word == "N" {
        return Ok(n);
    }
    word.parse::<u64>().context("a number")
}

/// The number of a node at a place.
pub fn node_number(words: &[&str], place: usize) -> Result<u16> {
    word(words, place).parse::<u16>().context("a node")
}

/// The file of that number and size, as `7:4097`.
pub fn file(word: &str) -> Result<Offered> {
    let (number, size) = word.split_once(":").context("a file")?;
    let number = number.parse::<u16>().context("a file's number")?;
    Ok(Offered(number, size.parse::<u32>().context("a size")?))
}

/// The files of these words.
pub fn files(alloc: Global, text: &str) -> Result<Vec<Offered>> {
    let mut files = Vec::new(alloc);
    for word in text.split_whitespace() {
        files.push(file(word)?)?;
    }
    Ok(files)
}

//! What a peer says, phrase by phrase.
use crate::words::{file, node_number, number};
use anyhow::{Result, bail};
use ftn_addr::Bytes;
use mem_talk::{Word, bytes_of};
use std::alloc::Global;
use test_script::{behind, bytes, word, words_of};

// What is said of a file and a place in it.
fn of_file(alloc: Global, words: &[&str], n: u64) -> Result<Bytes> {
    let file = file(word(words, 1))?;
    let place = number(words, 2, n)?;
    let said = match word(words, 0) {
        "file" => Word::File(file, place),
        "block" => Word::Block(file, place),
        _ => Word::Get(file, place),
    };
    Ok(bytes_of(alloc, &[said])?)
}

fn got(alloc: Global, words: &[&str]) -> Result<Bytes> {
    let file = file(word(words, 1))?;
    Ok(bytes_of(alloc, &[Word::Got(file)])?)
}

fn login(alloc: Global, words: &[&str]) -> Result<Bytes> {
    let node = node_number(words, 1)?;
    Ok(bytes_of(alloc, &[Word::Login(node)])?)
}

fn data(alloc: Global, text: &str) -> Result<Bytes> {
    let data = bytes(alloc, text)?;
    Ok(bytes_of(alloc, &[Word::Data(data.as_slice())])?)
}

fn command(alloc: Global, words: &[&str], text: &str) -> Result<Bytes> {
    let number = word(words, 1).parse::<u8>()?;
    let text = bytes(alloc, behind(text))?;
    Ok(bytes_of(alloc, &[Word::Command(number, text.as_slice())])?)
}

fn of_phrase(alloc: Global, phrase: &str, n: u64) -> Result<Bytes> {
    let words = words_of(alloc, phrase)?;
    let (words, text) = (words.as_slice(), behind(phrase));
    match word(words, 0) {
        "" => Ok(Bytes::new(alloc)),
        "raw" => Ok(bytes(alloc, text)?),
        "data" => data(alloc, text),
        "login" => login(alloc, words),
        "end" => Ok(bytes_of(alloc, &[Word::End])?),
        "command" => command(alloc, words, text),
        "file" | "block" | "get" => of_file(alloc, words, n),
        "got" => got(alloc, words),
        _ => bail!("no such phrase"),
    }
}

// Puts a phrase behind these bytes, as often as it is said.
fn put_times(alloc: Global, times: u64, phrase: &str, n: u64, bytes: &mut Bytes) -> Result<()> {
    let said = of_phrase(alloc, phrase, n)?;
    for _ in 0..times {
        bytes.push_slice(said.as_slice())?;
    }
    Ok(())
}

// Puts the first bytes of a phrase behind these.
fn put_front(alloc: Global, most: u64, phrase: &str, n: u64, bytes: &mut Bytes) -> Result<()> {
    let said = of_phrase(alloc, phrase, n)?;
    let most = usize::try_from(most)?;
    bytes.push_slice(&said.as_slice()[..most.min(said.len())])?;
    Ok(())
}

// Puts a phrase behind these bytes: once and whole, unless its first words say otherwise.
fn put(alloc: Global, phrase: &str, n: u64, bytes: &mut Bytes) -> Result<()> {
    let words = words_of(alloc, phrase)?;
    let count = number(words.as_slice(), 1, n).unwrap_or(0);
    match word(words.as_slice(), 0) {
        "times" => put_times(alloc, count, behind(behind(phrase)), n, bytes),
        "front" => put_front(alloc, count, behind(behind(phrase)), n, bytes),
        _ => put_times(alloc, 1, phrase, n, bytes),
    }
}

/// The bytes of these phrases, between which `;` stands.
pub fn said(alloc: Global, phrases: &str, n: u64) -> Result<Bytes> {
    let mut bytes = Bytes::new(alloc);
    for phrase in phrases.split(";") {
        put(alloc, phrase.trim(), n, &mut bytes)?;
    }
    Ok(bytes)
}

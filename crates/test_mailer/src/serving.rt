//! A node that serves.
use crate::texts::Texts;
use ftn_addr::{Bytes, Failed};
use mem_mailer::{Calls, Ran, serve_by};
use mem_node::Resting;
use std::alloc::Global;
use std::sync::Wait;
use std::test::Fail;
use test_script::{word, words_from};

// Who calls, by these words.
fn caller(texts: &Texts, words: &[&str]) -> Result<Calls, Fail> {
    match word(words, 0) {
        "~" => Ok(Calls::Nobody),
        "!" => Ok(Calls::Fault),
        _ => Ok(Calls::Peer(texts.joined(words)?)),
    }
}

// What the peer that a dial reaches says, by these words; nothing where it reaches nobody.
fn dialled(texts: &Texts, words: &[&str]) -> Result<Vec<Bytes>, Fail> {
    match word(words, 0) {
        "!" => texts.pieces(&[]),
        _ => texts.pieces(words),
    }
}

/// What dials reach, by the words behind the first.
pub fn dials_of(alloc: Global, texts: &Texts, words: &[&str]) -> Result<Vec<Vec<Bytes>>, Fail> {
    let mut dials = Vec::new(alloc);
    for part in words_from(words, 1).split(|word| *word == "|") {
        dials.push(dialled(texts, part)?)?;
    }
    Ok(dials)
}

// The moments of a clock, by the words behind the first.
fn moments_of(alloc: Global, words: &[&str]) -> Result<Vec<u64>, Fail> {
    let mut moments = Vec::new(alloc);
    for moment in words_from(words, 1) {
        moments.push(moment.parse::<u64>()?)?;
    }
    Ok(moments)
}

/// Serves as these words have it.
pub fn serve<W: Wait>(
    rt: &W,
    alloc: Global,
    texts: &Texts,
    rest: Resting,
    words: &[&str],
    dials: &[Vec<Bytes>],
) -> Result<Box<Ran>, Fail> {
    let mut parts = words.split(|word| *word == "|");
    let moments = moments_of(alloc, parts.next().unwrap_or(&[]))?;
    let mut calls = Vec::new(alloc);
    for part in parts {
        calls.push(caller(texts, part)?)?;
    }
    if moments.is_empty() {
        return Err(Failed.into());
    }
    let is_deaf = word(words, 0) == "deaf";
    Ok(serve_by(rt, alloc, rest, moments, calls.as_slice(), dials, is_deaf)?)
}

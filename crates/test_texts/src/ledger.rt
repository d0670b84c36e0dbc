//! The lines of a ledger, and of an outbound that was taken in.
use crate::addresses::{address_of, key};
use anyhow::Result;
use ftn_addr::{Addr, Bytes};
use ledger_rec::{Folded, MarkRec, NewFileRec, ReceivedRec, Record, RefusedRec};
use outbound_lines::{TookCounts, list_lines, marked_line, took_line};
use std::alloc::Global;
use test_script::{number, shown, word};

// The node of all records.
fn other(alloc: Global) -> Result<Addr> {
    Ok(address_of(alloc, b"2:5047/13@fidonet")?)
}

fn count(words: &[&str], place: usize) -> Result<u32> {
    Ok(u32::try_from(number(words, place)?)?)
}

// A file that came from no other: of a number, a flavour and a name.
fn queue(alloc: Global, words: &[&str]) -> Result<Record> {
    let (number, flavour) = (count(words, 1)?, u8::try_from(number(words, 2)?)?);
    Ok(Record::Queue(NewFileRec {
        number,
        dest: other(alloc)?,
        key: key(alloc, word(words, 3), 5)?,
        source: Bytes::new(alloc),
        action: 0,
        flavour,
    }))
}

// A part of a file of 10 bytes, of which 4 came: of a number and a name.
fn mark(alloc: Global, words: &[&str]) -> Result<Record> {
    let part = count(words, 1)?;
    Ok(Record::Mark(MarkRec {
        part,
        from: other(alloc)?,
        key: key(alloc, word(words, 2), 10)?,
        length: 4,
    }))
}

fn received(alloc: Global, words: &[&str]) -> Result<Record> {
    let receipt = count(words, 1)?;
    Ok(Record::Received(ReceivedRec {
        receipt,
        from: other(alloc)?,
        key: key(alloc, word(words, 2), 5)?,
        session: 1,
        secure: false,
    }))
}

fn refused(alloc: Global, name: &str) -> Result<Record> {
    Ok(Record::Refused(RefusedRec {
        from: other(alloc)?,
        key: key(alloc, name, 5)?,
        session: 1,
        reason: 1,
    }))
}

fn done(words: &[&str]) -> Result<Record> {
    Ok(Record::Done(count(words, 1)?, 1))
}

/// Folds the record of these words into a ledger. Whether they are one.
pub fn folds(alloc: Global, words: &[&str], ledger: &mut Folded) -> Result<bool> {
    let record = match word(words, 0) {
        "queue" => queue(alloc, words),
        "done" => done(words),
        "mark" => mark(alloc, words),
        "received" => received(alloc, words),
        "refused" => refused(alloc, word(words, 1)),
        _ => return Ok(false),
    };
    ledger.add_owned(record?)?;
    Ok(true)
}

// The counts of what was taken in, behind an address.
fn counts_of(words: &[&str]) -> Result<TookCounts> {
    Ok(TookCounts {
        queued: count(words, 2)?,
        again: count(words, 3)?,
        missing: count(words, 4)?,
        over: count(words, 5)?,
        passed: count(words, 6)?,
    })
}

/// The line of an outbound that was taken in: of an address and five counts.
pub fn took(alloc: Global, words: &[&str]) -> Result<String> {
    let counts = counts_of(words)?;
    let addr = address_of(alloc, word(words, 1).as_bytes())?;
    let line = took_line(alloc, &addr, &counts)?;
    Ok(shown(alloc, line.as_slice())?)
}

/// The lines of a ledger.
pub fn list(alloc: Global, ledger: &Folded) -> Result<String> {
    let lines = list_lines(alloc, ledger)?;
    Ok(shown(alloc, lines.as_slice())?)
}

/// The line of an outbound that another program holds.
pub fn marked(alloc: Global, text: &[u8]) -> Result<String> {
    let addr = address_of(alloc, text)?;
    let line = marked_line(alloc, &addr)?;
    Ok(shown(alloc, line.as_slice())?)
}

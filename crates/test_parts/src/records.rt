//! Records of the peer 2:5047/13@fidonet, by their words, and their bytes.
ghost use Rattle.std.specs.Prelude.{IfOk};
ghost use Rattle.ftn_addr.specs.Address.{address};
ghost use Rattle.ftn_addr.specs.Key.{key_of};
ghost use Rattle.ftn_addr.specs.Limits.{IsAddress, IsKey};
ghost use Rattle.ledger_rec.specs.Limits.{Fits, IsMark, IsNewFile};
ghost use Rattle.ledger_rec.specs.Record.{record_of, mark, new_file};

use crate::saying::{no_such, say, say_bytes};
use anyhow::Result;
use ftn_addr::{Addr, Bytes, FileKey};
use ledger_rec::{MarkRec, NewFileRec, ReceivedRec, Record, RefusedRec, read_record, write_record};
use std::alloc::Global;
use test_script::{bytes, number, word};

/// The peer, or a point of it.
pub fn peer(alloc: Global, point: u16) -> Result<Addr>
    ensures { IfOk result (λ addr. IsAddress (address addr)) }
{
    if point > 32_767 {
        return no_such("point");
    }
    Ok(Addr {
        zone: 2,
        net: 5047,
        node: 13,
        point,
        domain: Bytes::from_slice(alloc, b"fidonet")?,
    })
}

/// The key of a file of that name, which has 5 bytes.
pub fn key(alloc: Global, name: &str) -> Result<FileKey>
    ensures { IfOk result (λ key. IsKey (key_of key)) }
{
    if name.is_empty() || name.len() > 200 {
        return no_such("name of a file");
    }
    Ok(FileKey {
        name: Bytes::from_slice(alloc, name.as_bytes())?,
        size: 5,
        time: 1_000_000_000,
    })
}

/// A number of a record at a place.
pub fn count(words: &[&str], place: usize) -> Result<u32> {
    Ok(u32::try_from(number(words, place)?)?)
}

/// The peer, and the key of a file of that name.
pub fn named(alloc: Global, name: &str) -> Result<(Addr, FileKey)>
    ensures addr { IfOk result (λ named. IsAddress (address named.0)) }
    ensures key { IfOk result (λ named. IsKey (key_of named.1)) }
{
    let key = key(alloc, name)?;
    Ok((peer(alloc, 0)?, key))
}

/// A normal file of the queue, whose source is deleted.
pub fn file(alloc: Global, number: u32, name: &str) -> Result<NewFileRec>
    ensures { IfOk result (λ rec. IsNewFile (new_file rec)) }
{
    let source = Bytes::from_slice(alloc, b"/out/a.txt")?;
    let (dest, key) = named(alloc, name)?;
    Ok(NewFileRec {
        number,
        dest,
        key,
        source,
        action: 1,
        flavour: 3,
    })
}

fn queued(alloc: Global, words: &[&str]) -> Result<Record>
    ensures { IfOk result (λ rec. Fits (record_of rec)) }
{
    let number = count(words, 1)?;
    Ok(Record::Queue(file(alloc, number, word(words, 2))?))
}

fn done(words: &[&str]) -> Result<Record>
    ensures { IfOk result (λ rec. Fits (record_of rec)) }
{
    Ok(Record::Done(count(words, 1)?, count(words, 2)?))
}

fn received(alloc: Global, words: &[&str]) -> Result<Record>
    ensures { IfOk result (λ rec. Fits (record_of rec)) }
{
    let (receipt, session) = (count(words, 1)?, count(words, 3)?);
    let (from, key) = named(alloc, word(words, 2))?;
    Ok(Record::Received(ReceivedRec {
        receipt,
        from,
        key,
        session,
        secure: true,
    }))
}

fn refused(alloc: Global, words: &[&str]) -> Result<Record>
    ensures { IfOk result (λ rec. Fits (record_of rec)) }
{
    let session = count(words, 2)?;
    let (from, key) = named(alloc, word(words, 1))?;
    Ok(Record::Refused(RefusedRec {
        from,
        key,
        session,
        reason: 2,
    }))
}

/// A mark: its part, its file's name, and how many bytes are kept.
pub fn mark_of(alloc: Global, words: &[&str]) -> Result<MarkRec>
    ensures { IfOk result (λ rec. IsMark (mark rec)) }
{
    let (part, length) = (count(words, 1)?, number(words, 3)?);
    let (from, key) = named(alloc, word(words, 2))?;
    Ok(MarkRec {
        part,
        from,
        key,
        length,
    })
}

fn marked(alloc: Global, words: &[&str]) -> Result<Record>
    ensures { IfOk result (λ rec. Fits (record_of rec)) }
{
    Ok(Record::Mark(mark_of(alloc, words)?))
}

// A record of one number.
fn numbered(words: &[&str]) -> Result<Record>
    ensures { IfOk result (λ rec. Fits (record_of rec)) }
{
    let number = count(words, 1)?;
    match word(words, 0) {
        "taken" => Ok(Record::Taken(number)),
        "acted" => Ok(Record::Acted(number)),
        "answered" => Ok(Record::Answered(number)),
        _ => no_such("record"),
    }
}

/// The record of these words.
pub fn record(alloc: Global, words: &[&str]) -> Result<Record>
    ensures { IfOk result (λ rec. Fits (record_of rec)) }
{
    match word(words, 0) {
        "file" => queued(alloc, words),
        "done" => done(words),
        "received" => received(alloc, words),
        "refused" => refused(alloc, words),
        "mark" => marked(alloc, words),
        _ => numbered(words),
    }
}

// The bytes of a record.
fn spell(alloc: Global, rec: &Record, out: &mut String) -> Result<()>
    requires { Fits (record_of rec.now) }
{
    let mut bytes = Bytes::new(alloc);
    write_record(rec, &mut bytes)?;
    say_bytes(alloc, out, bytes.as_slice())
}

/// The bytes of the record of these words.
pub fn written(alloc: Global, words: &[&str], out: &mut String) -> Result<()> {
    let rec = record(alloc, words)?;
    spell(alloc, &rec, out)
}

// The bytes of a copy of a record.
fn copied(alloc: Global, rec: &Record, out: &mut String) -> Result<()>
    requires { Fits (record_of rec.now) }
{
    let copy = rec.copy(alloc)?;
    spell(alloc, &copy, out)
}

// The bytes of a copy of the record that these bytes spell for a home, or why they spell none.
fn read_at(alloc: Global, payload: &[u8], home: &Addr, out: &mut String) -> Result<()> {
    match read_record(alloc, payload, home) {
        Ok(rec) => copied(alloc, &rec, out),
        Err(fault) => say(out, fault),
    }
}

/// The same for the peer, of the bytes of a word.
pub fn read_back(alloc: Global, text: &str, out: &mut String) -> Result<()> {
    let payload = bytes(alloc, text)?;
    let home = peer(alloc, 0)?;
    read_at(alloc, payload.as_slice(), &home, out)
}

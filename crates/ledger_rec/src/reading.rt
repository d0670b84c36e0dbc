//! The record of a payload.
ghost use Rattle.std.specs.Prelude.{◌≡◌, ◌≢◌, ◌++◌, Ok, IfOk, IsErrOf};
ghost use Rattle.ftn_addr.specs.Address.{address};
ghost use Rattle.ledger_rec.specs.Limits.{HasNumbers, IsNewFile, IsReceived, IsRefused, IsMark};
ghost use Rattle.ftn_addr.specs.Outcomes.{Gives, GivesExactly};
ghost use Rattle.ledger_rec.specs.Payloads.{record_in};
ghost use Rattle.ledger_rec.specs.Reading.{new_file_at, received_at, refused_at, mark_at, pair_at, one_at, fields_at, record_at};
ghost use Rattle.ledger_rec.specs.Record.{RecordText, Queue, Received, Refused, Mark, record_of, new_file, received, refused, mark};
ghost use Rattle.ledger_rec.specs.Spelling.{Spells, SpellsNone, field_bytes, number_bytes};
ghost use Rattle.ledger_rec.specs.declared.fault.RecFault.TheVariants.{BadRecord as NoRecord};

use crate::fields::{address_at, byte_at, key_at, number_at, path_at, wide_at};
use crate::{MarkRec, NewFileRec, RecFault, ReceivedRec, Record, RefusedRec};
use ftn_addr::Addr;
use std::alloc::Global;

#[tactic(auto, unfolding(crate::specs::Reading::new_file_at))]
fn new_file_at(alloc: Global, bytes: &[u8], home: &Addr) -> Result<NewFileRec, RecFault>
    ensures gives { Gives RecFault.NoMemory new_file result (new_file_at (address home.now) bytes.now) }
    ensures spelled { IfOk result (λ r. bytes.now ≡ field_bytes (Queue (new_file r))) }
    ensures limits { IfOk result (λ r. IsNewFile (new_file r)) }
{
    let (number, rest) = number_at(bytes)?;
    let (dest, rest) = address_at(alloc, rest, home)?;
    let (key, rest) = key_at(alloc, rest)?;
    let (source, rest) = path_at(alloc, rest)?;
    let (action, rest) = byte_at(rest, 0, 2)?;
    let (flavour, rest) = byte_at(rest, 0, 4)?;
    if rest.is_empty() {
        Ok(NewFileRec {
            number,
            dest,
            key,
            source,
            action,
            flavour,
        })
    } else {
        Err(RecFault::BadRecord)
    }
}

#[tactic(auto, unfolding(crate::specs::Reading::received_at))]
fn received_at(alloc: Global, bytes: &[u8], home: &Addr) -> Result<ReceivedRec, RecFault>
    ensures gives { Gives RecFault.NoMemory received result (received_at (address home.now) bytes.now) }
    ensures spelled { IfOk result (λ r. bytes.now ≡ field_bytes (Received (received r))) }
    ensures limits { IfOk result (λ r. IsReceived (received r)) }
{
    let (receipt, rest) = number_at(bytes)?;
    let (from, rest) = address_at(alloc, rest, home)?;
    let (key, rest) = key_at(alloc, rest)?;
    let (session, rest) = number_at(rest)?;
    let (secure, rest) = byte_at(rest, 0, 1)?;
    if rest.is_empty() {
        Ok(ReceivedRec {
            receipt,
            from,
            key,
            session,
            secure: secure == 1,
        })
    } else {
        Err(RecFault::BadRecord)
    }
}

#[tactic(auto, unfolding(crate::specs::Reading::refused_at))]
fn refused_at(alloc: Global, bytes: &[u8], home: &Addr) -> Result<RefusedRec, RecFault>
    ensures gives { Gives RecFault.NoMemory refused result (refused_at (address home.now) bytes.now) }
    ensures spelled { IfOk result (λ r. bytes.now ≡ field_bytes (Refused (refused r))) }
    ensures limits { IfOk result (λ r. IsRefused (refused r)) }
{
    let (from, rest) = address_at(alloc, bytes, home)?;
    let (key, rest) = key_at(alloc, rest)?;
    let (session, rest) = number_at(rest)?;
    let (reason, rest) = byte_at(rest, 1, 2)?;
    if rest.is_empty() {
        Ok(RefusedRec {
            from,
            key,
            session,
            reason,
        })
    } else {
        Err(RecFault::BadRecord)
    }
}

#[tactic(auto, unfolding(crate::specs::Reading::mark_at))]
fn mark_at(alloc: Global, bytes: &[u8], home: &Addr) -> Result<MarkRec, RecFault>
    ensures gives { Gives RecFault.NoMemory mark result (mark_at (address home.now) bytes.now) }
    ensures spelled { IfOk result (λ r. bytes.now ≡ field_bytes (Mark (mark r))) }
    ensures limits { IfOk result (λ r. IsMark (mark r)) }
{
    let (part, rest) = number_at(bytes)?;
    let (from, rest) = address_at(alloc, rest, home)?;
    let (key, rest) = key_at(alloc, rest)?;
    let (length, rest) = wide_at(rest)?;
    if rest.is_empty() {
        Ok(MarkRec {
            part,
            from,
            key,
            length,
        })
    } else {
        Err(RecFault::BadRecord)
    }
}

/// Two numbers and nothing else.
#[tactic(auto, unfolding(crate::specs::Reading::pair_at))]
fn pair_at(bytes: &[u8]) -> Result<(u32, u32), RecFault>
    ensures gives { GivesExactly (λ x. (x.0, x.1)) result (pair_at bytes.now) }
    ensures spelled { IfOk result (λ x. bytes.now ≡ number_bytes x.0 ++ number_bytes x.1) }
{
    let (first, rest) = number_at(bytes)?;
    let (second, rest) = number_at(rest)?;
    if rest.is_empty() {
        Ok((first, second))
    } else {
        Err(RecFault::BadRecord)
    }
}

/// A number and nothing else.
#[tactic(auto, unfolding(crate::specs::Reading::one_at))]
fn one_at(bytes: &[u8]) -> Result<u32, RecFault>
    ensures gives { GivesExactly (λ n. n) result (one_at bytes.now) }
    ensures spelled { IfOk result (λ n. bytes.now ≡ number_bytes n) }
{
    let (number, rest) = number_at(bytes)?;
    if rest.is_empty() {
        Ok(number)
    } else {
        Err(RecFault::BadRecord)
    }
}

#[tactic(auto, unfolding(crate::specs::Reading::record_at, crate::specs::Reading::fields_at))]
fn record_at(alloc: Global, payload: &[u8], home: &Addr) -> Result<Record, RecFault>
    ensures numbers { IfOk result (λ rec. HasNumbers (record_of rec)) }
    ensures gives { Gives RecFault.NoMemory record_of result (record_at (address home.now) payload.now) }
    ensures spelled { IfOk result (λ r. Spells (record_of r) payload.now) }
{
    let (kind, bytes) = byte_at(payload, 0, 255)?;
    match kind {
        1 => Ok(Record::Queue(new_file_at(alloc, bytes, home)?)),
        2 => {
            let (number, session) = pair_at(bytes)?;
            Ok(Record::Done(number, session))
        }
        3 => Ok(Record::Received(received_at(alloc, bytes, home)?)),
        4 => Ok(Record::Refused(refused_at(alloc, bytes, home)?)),
        5 => Ok(Record::Mark(mark_at(alloc, bytes, home)?)),
        6 => Ok(Record::Taken(one_at(bytes)?)),
        7 => Ok(Record::Acted(one_at(bytes)?)),
        8 => Ok(Record::Answered(one_at(bytes)?)),
        _ => Err(RecFault::BadRecord),
    }
}

/// Reads the record of a payload. All of the payload is the record's: its kind in one byte, from 1 on in
/// the order of [`Record`], and the kind's fields in their order. An address stands in its canonical
/// text, so `home` fills nothing in.
///
/// [`RecFault::BadRecord`] comes exactly where the payload spells no record.
pub fn read_record(alloc: Global, payload: &[u8], home: &Addr) -> Result<Record, RecFault>
    ensures numbers { IfOk result (λ rec. HasNumbers (record_of rec)) }
    ensures read { IfOk result (λ rec. Spells (record_of rec) payload.now) }
    ensures again { (r : RecordText) → HasNumbers r → Spells r payload.now → Gives RecFault.NoMemory record_of result (Ok r) }
    ensures bad { IsErrOf result NoRecord → SpellsNone payload.now }
    ensures is { IfOk result (λ rec. record_in payload.now ≡ Ok (record_of rec)) }
    ensures none { IsErrOf result NoRecord → (r : RecordText) → record_in payload.now ≢ Ok r }
{
    record_at(alloc, payload, home)
}

//! The bytes of a record.
ghost use Rattle.std.specs.Prelude.{◌≡◌, ◌+◌, ◌≤◌, ◌++◌, length, OnOk, OnErr, IsOk};
ghost use Rattle.std.specs.Fmt.{decimal};
ghost use Rattle.ftn_addr.specs.Address.{address};
ghost use Rattle.ftn_addr.specs.Key.{key_of};
ghost use Rattle.ftn_addr.specs.Limits.{IsAddress, IsKey};
ghost use Rattle.ftn_addr.specs.Writing.{canonical, point_text};
ghost use Rattle.ledger_rec.specs.Limits.{Fits, HasNumbers, HasTime, IsNewFile, IsReceived, IsRefused, IsMark};
ghost use Rattle.ledger_rec.specs.Record.{record_of, new_file, received, refused, mark, Queue, Received, Refused, Mark};
ghost use Rattle.ledger_rec.specs.Spelling.{number_bytes, wide_bytes, address_bytes, key_bytes, path_bytes, field_bytes, spelling};

use crate::{MarkRec, NewFileRec, ReceivedRec, Record, RefusedRec};
use ftn_addr::{Addr, Bytes, FileKey, NoMemory};
use itoa::Buffer;

// Adds bytes that there is room for.
fn push(bytes: &[u8], out: &mut Bytes)
    requires { length bytes.now ≤ out.old.spare }
    ensures list { out.new.list ≡ out.old.list ++ bytes.now }
    ensures room { out.old.spare ≤ out.new.spare + length bytes.now }
    ensures kept { out.old.spare + length out.old.list ≤ out.new.spare + length out.new.list }
{
    match out.push_slice(bytes) {
        Ok(()) => (),
        Err(NoMemory) => unreachable!(),
    }
}

fn push_number(number: u32, out: &mut Bytes)
    requires { 4 ≤ out.old.spare }
    ensures list { out.new.list ≡ out.old.list ++ number_bytes number }
    ensures room { out.old.spare ≤ out.new.spare + 4 }
    ensures kept { out.old.spare + length out.old.list ≤ out.new.spare + length out.new.list }
{
    push(number.to_be_bytes().as_slice(), out)
}

fn push_wide(number: u64, out: &mut Bytes)
    requires { 8 ≤ out.old.spare }
    ensures list { out.new.list ≡ out.old.list ++ wide_bytes number }
    ensures room { out.old.spare ≤ out.new.spare + 8 }
    ensures kept { out.old.spare + length out.old.list ≤ out.new.spare + length out.new.list }
{
    push(number.to_be_bytes().as_slice(), out)
}

// How many decimal digits a number has.
fn decimal_len(number: u16) -> usize
    ensures len { result ≡ length (decimal number) }
    ensures few { result ≤ 5 }
{
    Buffer::new().format(number).len()
}

// Adds the decimal digits of a number.
fn push_decimal(number: u16, out: &mut Bytes)
    requires { 5 ≤ out.old.spare }
    ensures list { out.new.list ≡ out.old.list ++ decimal number }
    ensures room { out.old.spare ≤ out.new.spare + 5 }
    ensures kept { out.old.spare + length out.old.list ≤ out.new.spare + length out.new.list }
{
    let mut buffer = Buffer::new();
    push(buffer.format(number).as_bytes(), out)
}

fn point_len(point: u16) -> usize
    ensures len { result ≡ length (point_text point) }
    ensures few { result ≤ 6 }
{
    if point == 0 {
        0
    } else {
        decimal_len(point) + 1
    }
}

fn push_point(point: u16, out: &mut Bytes)
    requires { 6 ≤ out.old.spare }
    ensures list { out.new.list ≡ out.old.list ++ point_text point }
    ensures room { out.old.spare ≤ out.new.spare + 6 }
    ensures kept { out.old.spare + length out.old.list ≤ out.new.spare + length out.new.list }
{
    if point != 0 {
        push(b".", out);
        push_decimal(point, out);
    }
}

// The length of the canonical text.
fn text_len(addr: &Addr) -> u8
    requires { IsAddress (address addr.now) }
    ensures { result ≡ length (canonical (address addr.now)) }
{
    let numbers = decimal_len(addr.zone) + decimal_len(addr.net) + decimal_len(addr.node);
    (numbers + point_len(addr.point) + addr.domain.len() + 3) as u8
}

// Adds the canonical text.
fn push_text(addr: &Addr, out: &mut Bytes)
    requires addr { IsAddress (address addr.now) }
    requires room { 56 ≤ out.old.spare }
    ensures list { out.new.list ≡ out.old.list ++ canonical (address addr.now) }
    ensures room { out.old.spare ≤ out.new.spare + 56 }
    ensures kept { out.old.spare + length out.old.list ≤ out.new.spare + length out.new.list }
{
    push_decimal(addr.zone, out);
    push(b":", out);
    push_decimal(addr.net, out);
    push(b"/", out);
    push_decimal(addr.node, out);
    push_point(addr.point, out);
    push(b"@", out);
    push(addr.domain.as_slice(), out);
}

fn push_address(addr: &Addr, out: &mut Bytes)
    requires addr { IsAddress (address addr.now) }
    requires room { 57 ≤ out.old.spare }
    ensures list { out.new.list ≡ out.old.list ++ address_bytes (address addr.now) }
    ensures room { out.old.spare ≤ out.new.spare + 57 }
    ensures kept { out.old.spare + length out.old.list ≤ out.new.spare + length out.new.list }
{
    push(&[text_len(addr)], out);
    push_text(addr, out);
}

fn push_key(key: &FileKey, out: &mut Bytes)
    requires key { IsKey (key_of key.now) }
    requires room { 217 ≤ out.old.spare }
    ensures time { HasTime (key_of key.now) }
    ensures list { out.new.list ≡ out.old.list ++ key_bytes (key_of key.now) }
    ensures room { out.old.spare ≤ out.new.spare + 217 }
    ensures kept { out.old.spare + length out.old.list ≤ out.new.spare + length out.new.list }
{
    push(&[key.name.len() as u8], out);
    push(key.name.as_slice(), out);
    push_wide(key.size, out);
    push_wide(key.time, out);
}

fn push_path(path: &Bytes, out: &mut Bytes)
    requires short { length path.now.list ≤ 1024 }
    requires room { 1026 ≤ out.old.spare }
    ensures list { out.new.list ≡ out.old.list ++ path_bytes path.now.list }
    ensures room { out.old.spare ≤ out.new.spare + 1026 }
    ensures kept { out.old.spare + length out.old.list ≤ out.new.spare + length out.new.list }
{
    push((path.len() as u16).to_be_bytes().as_slice(), out);
    push(path.as_slice(), out);
}

fn push_new_file(rec: &NewFileRec, out: &mut Bytes)
    requires rec { IsNewFile (new_file rec.now) }
    requires room { 1399 ≤ out.old.spare }
    ensures numbers { HasNumbers (Queue (new_file rec.now)) }
    ensures list { out.new.list ≡ out.old.list ++ field_bytes (Queue (new_file rec.now)) }
    ensures kept { out.old.spare + length out.old.list ≤ out.new.spare + length out.new.list }
{
    push_number(rec.number, out);
    push_address(&rec.dest, out);
    push_key(&rec.key, out);
    push_path(&rec.source, out);
    push(&[rec.action, rec.flavour], out);
}

fn push_received(rec: &ReceivedRec, out: &mut Bytes)
    requires rec { IsReceived (received rec.now) }
    requires room { 1399 ≤ out.old.spare }
    ensures numbers { HasNumbers (Received (received rec.now)) }
    ensures list { out.new.list ≡ out.old.list ++ field_bytes (Received (received rec.now)) }
    ensures kept { out.old.spare + length out.old.list ≤ out.new.spare + length out.new.list }
{
    push_number(rec.receipt, out);
    push_address(&rec.from, out);
    push_key(&rec.key, out);
    push_number(rec.session, out);
    push(&[u8::from(rec.secure)], out);
}

fn push_refused(rec: &RefusedRec, out: &mut Bytes)
    requires rec { IsRefused (refused rec.now) }
    requires room { 1399 ≤ out.old.spare }
    ensures numbers { HasNumbers (Refused (refused rec.now)) }
    ensures list { out.new.list ≡ out.old.list ++ field_bytes (Refused (refused rec.now)) }
    ensures kept { out.old.spare + length out.old.list ≤ out.new.spare + length out.new.list }
{
    push_address(&rec.from, out);
    push_key(&rec.key, out);
    push_number(rec.session, out);
    push(&[rec.reason], out);
}

fn push_mark(rec: &MarkRec, out: &mut Bytes)
    requires rec { IsMark (mark rec.now) }
    requires room { 1399 ≤ out.old.spare }
    ensures numbers { HasNumbers (Mark (mark rec.now)) }
    ensures list { out.new.list ≡ out.old.list ++ field_bytes (Mark (mark rec.now)) }
    ensures kept { out.old.spare + length out.old.list ≤ out.new.spare + length out.new.list }
{
    push_number(rec.part, out);
    push_address(&rec.from, out);
    push_key(&rec.key, out);
    push_wide(rec.length, out);
}

// Adds the kind, and then the kind's fields.
fn push_record(rec: &Record, out: &mut Bytes)
    requires rec { Fits (record_of rec.now) }
    requires room { 1400 ≤ out.old.spare }
    ensures numbers { HasNumbers (record_of rec.now) }
    ensures list { out.new.list ≡ out.old.list ++ spelling (record_of rec.now) }
    ensures kept { out.old.spare + length out.old.list ≤ out.new.spare + length out.new.list }
{
    match rec {
        Record::Queue(rec) => {
            push(&[1], out);
            push_new_file(rec, out);
        }
        Record::Done(number, session) => {
            push(&[2], out);
            push_number(*number, out);
            push_number(*session, out);
        }
        Record::Received(rec) => {
            push(&[3], out);
            push_received(rec, out);
        }
        Record::Refused(rec) => {
            push(&[4], out);
            push_refused(rec, out);
        }
        Record::Mark(rec) => {
            push(&[5], out);
            push_mark(rec, out);
        }
        Record::Taken(take) => {
            push(&[6], out);
            push_number(*take, out);
        }
        Record::Acted(number) => {
            push(&[7], out);
            push_number(*number, out);
        }
        Record::Answered(receipt) => {
            push(&[8], out);
            push_number(*receipt, out);
        }
    }
}

/// Writes the bytes of a record at the end of `out`: its kind in one byte, from 1 on in the order of
/// [`Record`], and the kind's fields in their order. All numbers have their high byte first.
///
/// A record has at most 1,400 bytes. With room for these this takes no memory.
pub fn write_record(rec: &Record, out: &mut Bytes) -> Result<(), NoMemory>
    requires { Fits (record_of rec.now) }
    ensures numbers { OnOk result (HasNumbers (record_of rec.now)) }
    ensures ok { OnOk result (out.new.list ≡ out.old.list ++ spelling (record_of rec.now)) }
    ensures err { OnErr result (out.new.list ≡ out.old.list) }
    ensures within { 1400 ≤ out.old.spare → IsOk result }
    ensures room { out.old.spare + length out.old.list ≤ out.new.spare + length out.new.list }
{
    out.reserve(1400)?;
    push_record(rec, out);
    Ok(())
}

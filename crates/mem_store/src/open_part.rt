//! A file that is coming in.
ghost use Rattle.std.specs.Prelude.{◌≡◌, ◌+◌, ◌<◌, ◌≤◌, ◌==◌, [], ◌∷◌, ◌++◌, length, take, option_map, position, slice_index_or, vec_len, vec_capacity, IfOk, IsSome, IsTrue, ◌↔◌, OnOk};
ghost use Rattle.ftn_addr.specs.Address.{address};
ghost use Rattle.ftn_addr.specs.Files.{is_same};
ghost use Rattle.ftn_addr.specs.Key.{key_of};
ghost use Rattle.ftn_addr.specs.Limits.{IsAddress, IsKey};
ghost use Rattle.node_model.specs.Items.{Mark};
ghost use Rattle.node_model.specs.Node.{Mark_record, Received_record};
ghost use Rattle.std.specs.List.{position_or_len, remove};
ghost use Rattle.node_model.specs.Lists.{first_that, without};
ghost use Rattle.node_model.specs.Stocks.{receipt_from};
ghost use Rattle.mem_store.specs.Comings.{Coming, back_to_mark, mark_in, part_of};
ghost use Rattle.mem_store.specs.Views.{record_of};

use crate::Received;
use crate::lists::put;
use crate::log_record::LogRecord;
use crate::place::Place;
use ftn_addr::{Addr, Bytes, FileKey, NoMemory, is_same_address, is_same_key};
use node_model::PartAt;
use std::alloc::Global;
use std::marker::Model;

/// The front of a file that is coming in, with room for all that its size leaves.
///
/// Its mark is a length, since the bytes of a mark are always the first that the part has: a mark comes from an open
/// part, goes where the part goes, and a part that is opened again goes back to it.
#[derive(Debug, Drop)]
pub struct OpenPart {
    number: u32,
    from: Addr,
    key: FileKey,
    bytes: Bytes,
    // How many of the bytes the mark has; none where there is no mark.
    marked: usize,
}

impl Model for OpenPart {
    ghost use Rattle.std.specs.Prelude.{◌+◌, ◌≤◌, length};
    ghost use Rattle.ftn_addr.specs.Address.{address};
    ghost use Rattle.ftn_addr.specs.Key.{key_of};
    ghost use Rattle.mem_store.specs.Comings.{Coming};
    ghost use Rattle.mem_store.specs.Orders.{FitsRoom};

    ghost Value = { Coming };

    ghost view = { λ p. record { number = p.number; from = address p.from; key = key_of p.key; bytes = p.bytes.list; marked = p.marked } };

    ghost invariant = { λ p. FitsRoom (length p.bytes.list) p.bytes.spare p.key.size p.marked (length p.from.domain.list) (length p.key.name.list) };
}

impl OpenPart {
    /// Whether so many bytes more fit it.
    pub fn fits(&self, more: u64) -> bool
        ensures { IsTrue result ↔ (length self.now.bytes + more ≤ self.now.key.size) }
    {
        let len = self.bytes.len() as u64;
        len <= self.key.size && more <= self.key.size - len
    }

    /// Whether it has all its bytes.
    pub fn is_whole(&self) -> bool
        ensures { IsTrue result ↔ (length self.now.bytes ≡ self.now.key.size) }
    {
        self.bytes.len() as u64 == self.key.size
    }
}

impl OpenPart {
    /// A part without bytes, that takes the memory for all of them.
    pub fn new(alloc: Global, number: u32, from: &Addr, key: &FileKey) -> Result<OpenPart, NoMemory>
        requires address_limits { IsAddress (address from.now) }
        requires key_limits { IsKey (key_of key.now) }
        ensures { IfOk result (λ part. part ≡ record { number = number; from = address from.now; key = key_of key.now; bytes = []; marked = 0 }) }
    {
        let from = from.copy(alloc)?;
        let key = key.copy(alloc)?;
        let mut bytes = Bytes::new(alloc);
        bytes.reserve(key.size as usize)?;
        Ok(OpenPart {
            number,
            from,
            key,
            bytes,
            marked: 0,
        })
    }

    /// The number that was drawn for it.
    pub fn number(&self) -> u32
        ensures { result ≡ self.now.number }
    {
        self.number
    }

    /// Whether it is of that sender and key.
    pub fn is_of(&self, from: &Addr, key: &FileKey) -> bool
        ensures { result ≡ is_same (address from.now) (key_of key.now) self.now.from self.now.key }
    {
        is_same_address(from, &self.from) && is_same_key(key, &self.key)
    }

    /// How many of its bytes its mark has.
    pub fn marked(&self) -> u64
        ensures same { result ≡ self.now.marked }
        ensures within { self.now.marked ≤ length self.now.bytes }
    {
        self.marked as u64
    }

    /// Whether it has more than its mark.
    pub fn is_ahead(&self) -> bool
        ensures ahead { IsTrue result ↔ (self.now.marked < length self.now.bytes) }
        ensures within { self.now.marked ≤ length self.now.bytes }
    {
        self.marked < self.bytes.len()
    }

    /// Its mark.
    pub fn mark(&self) -> Option<PartAt>
        ensures { result ≡ option_map (λ (m : Mark). record { part = m.number; len = length m.bytes }) (mark_in self.now) }
    {
        if self.marked == 0 {
            return None;
        }
        Some(PartAt {
            part: self.number,
            len: self.marked as u64,
        })
    }

    /// Drops the bytes behind its mark and keeps their room.
    pub fn back_to_mark(&mut self)
        ensures after { self.new ≡ back_to_mark self.old }
        ensures within { self.old.marked ≤ length self.old.bytes }
    {
        self.bytes.truncate(self.marked);
    }

    /// Puts bytes behind the others. It takes no memory.
    pub fn put(&mut self, bytes: &[u8])
        requires { length self.old.bytes + length bytes.now ≤ self.old.key.size }
        ensures after { self.new ≡ record self.old { bytes = self.old.bytes ++ bytes.now } }
        ensures within { self.old.marked ≤ length self.old.bytes }
    {
        self.bytes.push_slice(bytes).unwrap();
    }

    /// All that it has is its mark now; gives the record of that. It takes no memory.
    pub fn put_mark(&mut self, place: Place) -> LogRecord
        ensures after { self.new ≡ record self.old { marked = length self.old.bytes } }
        ensures recorded { record_of result ≡ Mark_record self.old.number self.old.from self.old.key (length self.old.bytes) }
    {
        self.marked = self.bytes.len();
        let (from, key) = place.note(&self.from, &self.key);
        LogRecord::Marked {
            part: self.number,
            from,
            key,
            size: self.bytes.len() as u64,
        }
    }

    /// The record of its receipt. It takes no memory.
    pub fn receipt_record(&self, place: Place, session: u32, secure: bool) -> LogRecord
        ensures { record_of result ≡ Received_record self.now.number self.now.from self.now.key session secure }
    {
        let (from, key) = place.note(&self.from, &self.key);
        LogRecord::Received {
            receipt: self.number,
            from,
            key,
            session,
            secure,
        }
    }

    /// The part as a received file, with the bytes where they lie.
    pub fn receive(self, secure: bool) -> Received
        ensures { result ≡ receipt_from (part_of self) secure }
    {
        let OpenPart {
            number,
            from,
            key,
            bytes,
            marked: _,
        } = self;
        Received::new(number, from, key, bytes, secure)
    }
}

/// Where the first open part with that number stands, if there is one.
pub fn position_of_part(parts: &[OpenPart], number: u32) -> Option<usize>
    ensures { result ≡ position (λ (p : Coming). p.number == number) parts.now }
{
    parts.iter().position(|part| part.number() == number)
}

/// Where the first open part with that number stands.
pub fn place_of_part(parts: &[OpenPart], number: u32) -> usize
    requires { IsSome (first_that (λ (p : Coming). p.number == number) parts.now) }
    ensures within { result < length parts.now }
    ensures first { result ≡ position_or_len (λ (p : Coming). p.number == number) parts.now }
{
    position_of_part(parts, number).unwrap()
}

/// Where a part of that sender and key is open.
pub fn place_of_file(parts: &[OpenPart], from: &Addr, key: &FileKey) -> Option<usize>
    ensures { result ≡ position (λ (p : Coming). is_same (address from.now) (key_of key.now) p.from p.key) parts.now }
{
    parts.iter().position(|part| part.is_of(from, key))
}

/// Opens a part again, with what its mark has, behind the others. It takes no memory.
pub fn open_again(parts: &mut Vec<OpenPart>, place: usize) -> PartAt
    requires { place < vec_len parts.old }
    ensures items { (x : Coming) → x ≡ slice_index_or parts.old.items place x → parts.new.items ≡ remove parts.old.items place ++ back_to_mark x ∷ [] }
    ensures at { (x : Coming) → x ≡ slice_index_or parts.old.items place x → result ≡ record { part = x.number; len = x.marked } }
    ensures within { (x : Coming) → x ≡ slice_index_or parts.old.items place x → x.marked ≤ length x.bytes }
    ensures len { vec_len parts.new ≡ vec_len parts.old }
{
    let mut part = parts.remove(place);
    part.back_to_mark();
    let at = PartAt {
        part: part.number(),
        len: part.marked(),
    };
    put(part, parts);
    at
}

/// Closes the parts of a sender and key.
pub fn close_file(from: &Addr, key: &FileKey, parts: &mut Vec<OpenPart>)
    ensures items { parts.new.items ≡ without (λ (p : Coming). is_same (address from.now) (key_of key.now) p.from p.key) parts.old.items }
    ensures len { vec_len parts.new ≤ vec_len parts.old }
{
    parts.retain(|part| !part.is_of(from, key));
}

//! An own file in memory, with what it takes to undo the changes since its last sync.
ghost use Rattle.std.specs.Prelude.{◌≡◌, ◌+◌, ◌-◌, ◌≤◌, ◌++◌, min, length, take, drop, map, nat_le, nat_lt, ◌&&◌, if◌then◌else◌, OnOk, OnErr, IfOk};
ghost use Rattle.std.specs.List.{list_any};
ghost use Rattle.mem_disk.specs.Kept.{settled, unsynced, written_over, shortened, made_durable, is_changed, is_open, spoiled, spoilt_by, chosen, splice};
ghost use Rattle.mem_disk.specs.Undo.{all_taken_back, taken_back, range_of};

use crate::block::Block;
use ftn_addr::NoMemory;
use std::alloc::{AllocError, Global};
use std::marker::Model;

/// What a write or a cut replaced: at a place, so many bytes now stand where these stood.
#[derive(Drop)]
pub struct Change {
    at: usize,
    len: usize,
    old: Block,
}

#[derive(Drop)]
pub struct MemFile {
    bytes: Vec<u8>,
    changes: Vec<Change>,
}

impl Model for MemFile {
    ghost use Rattle.mem_disk.specs.Kept.{Kept};
    ghost use Rattle.mem_disk.specs.Undo.{kept_file};

    ghost Value = { Kept };

    ghost view = { λ f. kept_file f.bytes.items f.changes.items };
}

impl Clone for Change {
    ghost use Rattle.std.specs.Prelude.{◌≡◌};

    ghost is_clone = { λ a b. b ≡ a };

    fn clone(&self) -> Result<Change, AllocError> {
        Ok(Change {
            at: self.at,
            len: self.len,
            old: self.old.clone()?,
        })
    }
}

impl Clone for MemFile {
    ghost use Rattle.std.specs.Prelude.{◌≡◌};

    ghost is_clone = { λ a b. b ≡ a };

    fn clone(&self) -> Result<MemFile, AllocError> {
        Ok(MemFile {
            bytes: self.bytes.clone()?,
            changes: self.changes.clone()?,
        })
    }
}

impl MemFile {
    /// A file of which a stop leaves all.
    pub fn settled(alloc: Global, bytes: Vec<u8>) -> MemFile
        ensures { result ≡ settled bytes.items }
    {
        MemFile {
            bytes,
            changes: Vec::new(alloc),
        }
    }

    /// A file made anew, of which no byte is synced.
    pub fn unsynced(alloc: Global, bytes: &[u8]) -> Result<MemFile, NoMemory>
        ensures { IfOk result (λ file. file ≡ unsynced bytes.now) }
    {
        let mut changes = Vec::new(alloc);
        changes.push(Change {
            at: 0,
            len: bytes.len(),
            old: Block::empty(alloc),
        })?;
        Ok(MemFile {
            bytes: Vec::from_slice(alloc, bytes)?,
            changes,
        })
    }

    pub fn as_slice(&self) -> &[u8]
        ensures { result.now ≡ self.now.written }
    {
        self.bytes.as_slice()
    }

    /// Whether something changed since the last sync.
    pub fn is_changed(&self) -> bool
        ensures { result ≡ is_changed self.now }
    {
        0 < self.changes.len()
    }

    /// Writes over what is there, and past the end.
    pub fn write_at(&mut self, alloc: Global, at: usize, bytes: &[u8]) -> Result<(), NoMemory>
        ensures ok { OnOk result (self.new ≡ written_over at bytes.now self.old) }
        ensures err { OnErr result (self.new ≡ self.old) }
    {
        if at > self.bytes.len() {
            return Ok(());
        }
        let change = replaced(alloc, &self.bytes, at, bytes.len())?;
        let before = self.changes.len();
        self.changes.push(change)?;
        match write_in(&mut self.bytes, at, bytes) {
            Ok(()) => Ok(()),
            Err(e) => {
                self.changes.truncate(before);
                Err(e)
            }
        }
    }

    /// Cuts the file to its first bytes.
    pub fn cut(&mut self, alloc: Global, len: usize) -> Result<(), NoMemory>
        ensures ok { OnOk result (self.new ≡ shortened len self.old) }
        ensures err { OnErr result (self.new ≡ self.old) }
    {
        if len > self.bytes.len() {
            return Ok(());
        }
        let change = cut_off(alloc, &self.bytes, len)?;
        self.changes.push(change)?;
        self.bytes.truncate(len);
        Ok(())
    }

    /// What a stop leaves of the file, by the digit: what the last sync left, all as written, each unsynced
    /// byte as 255 minus it, each as 1.
    pub fn chosen(&self, alloc: Global, digit: u64) -> Result<Vec<u8>, NoMemory>
        ensures { IfOk result (λ bytes. bytes.items ≡ chosen digit self.now) }
    {
        if digit == 0 {
            let bytes = Vec::from_slice(alloc, &self.bytes)?;
            return all_taken_back(bytes, &self.changes);
        }
        if digit == 1 {
            return Ok(Vec::from_slice(alloc, &self.bytes)?);
        }
        spoiled(alloc, &self.bytes, &self.changes, digit)
    }

    /// Forgets what was there before. It costs what changed since the last sync.
    pub fn sync(&mut self)
        ensures { self.new ≡ made_durable self.old }
    {
        self.changes.clear();
    }
}

// What a write of so many bytes replaces.
fn replaced(alloc: Global, all: &[u8], at: usize, len: usize) -> Result<Change, NoMemory>
    requires { at ≤ length all.now }
    ensures { IfOk result (λ c. c ≡ record { at = at; len = len; old = take (min len (length all.now - at)) (drop at all.now) }) }
{
    let over = len.min(all.len() - at);
    let old = Block::from_slice(alloc, &all[at..at + over])?;
    Ok(Change { at, len, old })
}

// What a cut replaces.
fn cut_off(alloc: Global, all: &[u8], len: usize) -> Result<Change, NoMemory>
    requires { len ≤ length all.now }
    ensures { IfOk result (λ c. c ≡ record { at = len; len = 0; old = drop len all.now }) }
{
    let old = Block::from_slice(alloc, &all[len..])?;
    Ok(Change {
        at: len,
        len: 0,
        old,
    })
}

// Writes over what is there, and past the end.
fn write_in(all: &mut Vec<u8>, at: usize, bytes: &[u8]) -> Result<(), NoMemory>
    requires { at ≤ length all.old.items }
    ensures ok { OnOk result (all.new.items ≡ splice at bytes.now all.old.items) }
    ensures err { OnErr result (all.new.items ≡ all.old.items) }
{
    let over = bytes.len().min(all.len() - at);
    all.extend_from_slice(&bytes[over..])?;
    write_over(all, at, &bytes[..over]);
    Ok(())
}

fn write_over(all: &mut [u8], at: usize, bytes: &[u8])
    requires { at + length bytes.now ≤ length all.old }
    ensures { all.new ≡ splice at bytes.now all.old }
{
    all[at..at + bytes.len()].copy_from_slice(bytes);
}

// What was there before the changes, the newest of which is taken back first.
fn all_taken_back(mut bytes: Vec<u8>, changes: &[Change]) -> Result<Vec<u8>, NoMemory>
    ensures { IfOk result (λ back. back.items ≡ all_taken_back changes.now bytes.items) }
{
    let mut left = changes.len();
    while 0 < left {
        left -= 1;
        take_back(&mut bytes, &changes[left])?;
    }
    Ok(bytes)
}

fn take_back(bytes: &mut Vec<u8>, change: &Change) -> Result<(), NoMemory>
    ensures { OnOk result (bytes.new.items ≡ taken_back change.now bytes.old.items) }
{
    let behind = change.at.saturating_add(change.len).min(bytes.len());
    let tail = Vec::from_slice(*bytes.allocator(), &bytes[behind..])?;
    bytes.truncate(change.at);
    bytes.extend_from_slice(change.old.as_slice())?;
    bytes.extend_from_slice(&tail)?;
    Ok(())
}

// The bytes of a file with the unsynced ones changed.
fn spoiled(alloc: Global, file: &[u8], changes: &[Change], digit: u64) -> Result<Vec<u8>, NoMemory>
    ensures { IfOk result (λ bytes. bytes.items ≡ spoiled (spoilt_by digit) (map range_of changes.now) 0 file.now) }
{
    let mut bytes = Vec::new(alloc);
    for (place, byte) in file.iter().enumerate() {
        bytes.push(left_byte(changes, place, digit, *byte))?;
    }
    Ok(bytes)
}

fn left_byte(changes: &[Change], place: usize, digit: u64, byte: u8) -> u8
    ensures { result ≡ (if is_open (map range_of changes.now) place then spoilt_by digit byte else byte) }
{
    if is_open(changes, place) {
        spoilt_by(digit, byte)
    } else {
        byte
    }
}

fn spoilt_by(digit: u64, byte: u8) -> u8
    ensures { result ≡ spoilt_by digit byte }
{
    if digit == 2 { 255 - byte } else { 1 }
}

fn is_open(changes: &[Change], place: usize) -> bool
    ensures { result ≡ is_open (map range_of changes.now) place }
{
    covers(changes, place)
}

fn covers(changes: &[Change], place: usize) -> bool
    ensures { result ≡ list_any (λ c. nat_le c.at place && nat_lt place (c.at + c.len)) changes.now }
{
    changes.iter().any(|change| is_within(change, place))
}

fn is_within(change: &Change, place: usize) -> bool
    ensures { result ≡ (nat_le change.now.at place && nat_lt place (change.now.at + change.now.len)) }
{
    change.at <= place && place - change.at < change.len
}

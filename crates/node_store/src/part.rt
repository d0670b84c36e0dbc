//! Open parts, and files that are staged.
ghost use Rattle.std.specs.Prelude.{◌≡◌, ◌+◌, ◌<◌, ◌^◌, ◌==◌, [], ◌∷◌, ◌++◌, OnOk, find, map, position, vec_capacity, vec_len, IsSome, Some};
ghost use Rattle.std.specs.List.{AllByRecursion};
ghost use Rattle.node_store.specs.Stored.{Part, closed_in, grown, have_in, without_part};

use ftn_addr::{Addr, FileKey, NoMemory};
use ledger_rec::{MarkRec, ReceivedRec, Record};
use std::marker::Model;

/// An open part, with the records of its receipt and of its marks, so that these take no memory.
///
/// The record of a first mark is given away to the fold, and those of later ones are lent to it.
#[derive(Debug, Drop)]
pub(crate) struct OpenPart {
    pub(crate) number: u32,
    pub(crate) from: Addr,
    pub(crate) key: FileKey,
    pub(crate) have: u64,
    pub(crate) receipt: ReceivedRec,
    pub(crate) first_mark: Option<MarkRec>,
    pub(crate) next_mark: Record,
}

impl Model for OpenPart {
    ghost use Rattle.std.specs.Prelude.{option_map};
    ghost use Rattle.ftn_addr.specs.Address.{address};
    ghost use Rattle.ftn_addr.specs.Key.{key_of};
    ghost use Rattle.ledger_rec.specs.Record.{mark, received, record_of};
    ghost use Rattle.node_store.specs.Stored.{Part};

    ghost Value = { Part };

    ghost view = { λ p. record { number = p.number; from = address p.from; key = key_of p.key; have = p.have; receipt = received p.receipt; first_mark = option_map mark p.first_mark; next_mark = record_of p.next_mark } };
}

/// What is left of a part that is open no more: whose it was, and the record of its receipt.
#[derive(Debug, Drop)]
pub(crate) struct ClosedPart {
    pub(crate) from: Addr,
    pub(crate) key: FileKey,
    pub(crate) receipt: Record,
}

impl Model for ClosedPart {
    ghost use Rattle.ftn_addr.specs.Address.{address};
    ghost use Rattle.ftn_addr.specs.Key.{key_of};
    ghost use Rattle.ledger_rec.specs.Record.{record_of};
    ghost use Rattle.node_store.specs.Stored.{Closed};

    ghost Value = { Closed };

    ghost view = { λ p. record { from = address p.from; key = key_of p.key; receipt = record_of p.receipt } };
}

/// A file that was put under a queue number, and isn't queued yet.
#[derive(Debug, Drop)]
pub(crate) struct StagedFile {
    number: u32,
    size: u64,
}

impl Model for StagedFile {
    ghost use Rattle.node_store.specs.Stored.{Put};

    ghost Value = { Put };

    ghost view = { λ p. record { number = p.number; size = p.size } };
}

impl StagedFile {
    pub(crate) fn number(&self) -> u32
        ensures { result ≡ self.now.number }
    {
        self.number
    }
}

impl OpenPart {
    pub(crate) fn number(&self) -> u32
        ensures { result ≡ self.now.number }
    {
        self.number
    }

    fn have(&self) -> u64
        ensures { result ≡ self.now.have }
    {
        self.have
    }

    // It came whole in that session.
    fn closed(self, session: u32, secure: bool) -> ClosedPart
        ensures { result ≡ closed_in session secure self }
    {
        let mut receipt = self.receipt;
        receipt.session = session;
        receipt.secure = secure;
        ClosedPart {
            from: self.from,
            key: self.key,
            receipt: Record::Received(receipt),
        }
    }

    // So many bytes more came, where it is the part with that number.
    fn grow(&mut self, number: u32, more: usize)
        requires { self.old.number ≡ number → self.old.have + more < 2 ^ 64 }
        ensures { self.new ≡ grown number more self.old }
    {
        if self.number == number {
            self.have += more as u64;
        }
    }
}

/// How many bytes the open part with that number has.
pub(crate) fn have_of(number: u32, parts: &[OpenPart]) -> u64
    ensures { result ≡ have_in (find (λ (p : Part). p.number == number) parts.now) }
{
    for part in parts {
        if part.number() == number {
            return part.have();
        }
    }
    0
}

/// The open part with that number has so many bytes more.
pub(crate) fn grow(number: u32, more: usize, parts: &mut Vec<OpenPart>)
    requires { AllByRecursion (λ (p : Part). p.number ≡ number → p.have + more < 2 ^ 64) parts.old.items }
    ensures { parts.new.items ≡ map (grown number more) parts.old.items }
{
    grow_each(number, more, parts.as_mut_slice());
}

fn grow_each(number: u32, more: usize, parts: &mut [OpenPart])
    requires { AllByRecursion (λ (p : Part). p.number ≡ number → p.have + more < 2 ^ 64) parts.old }
    ensures { parts.new ≡ map (grown number more) parts.old }
{
    for part in parts.iter_mut() {
        part.grow(number, more);
    }
}

/// Makes room for one more staged file.
pub(crate) fn make_room(staged: &mut Vec<StagedFile>) -> Result<(), NoMemory>
    ensures same { staged.new.items ≡ staged.old.items }
    ensures room { OnOk result (vec_len staged.new < vec_capacity staged.new) }
{
    staged.reserve(1)?;
    Ok(())
}

/// A file of so many bytes more is staged, for which there is room.
pub(crate) fn note_staged(number: u32, size: u64, staged: &mut Vec<StagedFile>)
    requires { vec_len staged.old < vec_capacity staged.old }
    ensures { staged.new.items ≡ staged.old.items ++ record { number = number; size = size } ∷ [] }
{
    match staged.push(StagedFile { number, size }) {
        Ok(()) => (),
        Err(_) => unreachable!(),
    }
}

/// Where the open part with that number stands.
pub(crate) fn place_of(number: u32, parts: &[OpenPart]) -> Option<usize>
    ensures { result ≡ position (λ (p : Part). p.number == number) parts.now }
{
    parts.iter().position(|part| part.number() == number)
}

/// The open part with that number came whole in that session, and is open no more.
pub(crate) fn close(
    number: u32,
    session: u32,
    secure: bool,
    parts: &mut Vec<OpenPart>,
) -> ClosedPart
    requires { IsSome (find (λ (p : Part). p.number == number) parts.old.items) }
    ensures closed { (p : Part) → find (λ (q : Part). q.number == number) parts.old.items ≡ Some p → result ≡ closed_in session secure p }
    ensures others { parts.new.items ≡ without_part number parts.old.items }
{
    match place_of(number, parts.as_slice()) {
        Some(place) => parts.remove(place).closed(session, secure),
        None => unreachable!(),
    }
}

//! A part begins.
ghost use Rattle.std.specs.Prelude.{◌≡◌, ◌<◌, ◌++◌, [], ◌∷◌, find, option_map, position, vec_capacity, vec_len, IfOk, None, OnErr, OnOk, true};
ghost use Rattle.std.specs.List.{AllByRecursion, list_any};
ghost use Rattle.ftn_addr.specs.Address.{address};
ghost use Rattle.ftn_addr.specs.Files.{is_same};
ghost use Rattle.ftn_addr.specs.Key.{key_of as key_in};
ghost use Rattle.ftn_addr.specs.Limits.{IsAddress, IsKey};
ghost use Rattle.ledger_rec.specs.Fold.{is_held};
ghost use Rattle.ledger_rec.specs.Limits.{HasTime};
ghost use Rattle.ledger_rec.specs.Record.{mark as mark_in};
ghost use Rattle.node_model.specs.declared.words.Known.TheVariants as K;
ghost use Rattle.node_model.specs.Stocks.{known_in};
ghost use Rattle.node_model.specs.Stores.{Part_open, StoreKept, open_answer};
ghost use Rattle.node_store.specs.Beginnings.{begun, len_of, next_number, unless_marked, without_file};
ghost use Rattle.node_store.specs.Stored.{Part, stand_of};

use crate::books::Books;
use crate::lookups::{is_same, mark_of};
use crate::names::in_file;
use crate::part::OpenPart;
use crate::readying::make_ready;
use crate::store::NodeStore;
use disk_model::Disk;
use ftn_addr::{Addr, FileKey, MAX_NUMBER, NoMemory};
use ledger_rec::{MarkRec, ReceivedRec, Record};
use node_model::{PartAt, StoreFault};
use std::alloc::Global;

// A record of a mark, whose length isn't known yet.
fn new_mark(alloc: Global, number: u32, from: &Addr, key: &FileKey) -> Result<MarkRec, NoMemory>
    ensures { IfOk result (λ rec. mark_in rec ≡ record { part = number; from = address from.now; key = key_in key.now; len = 0 }) }
{
    Ok(MarkRec {
        part: number,
        from: from.copy(alloc)?,
        key: key.copy(alloc)?,
        length: 0,
    })
}

// The record of a first mark, where there is no mark yet.
fn first_mark(
    alloc: Global,
    number: u32,
    from: &Addr,
    key: &FileKey,
    mark: Option<PartAt>,
) -> Result<Option<MarkRec>, NoMemory>
    ensures { IfOk result (λ rec. option_map mark_in rec ≡ unless_marked mark (record { part = number; from = address from.now; key = key_in key.now; len = 0 })) }
{
    match mark {
        Some(_) => Ok(None),
        None => Ok(Some(new_mark(alloc, number, from, key)?)),
    }
}

// How much a mark has.
fn len_of(mark: Option<PartAt>) -> u64
    ensures { result ≡ len_of mark }
{
    match mark {
        Some(mark) => mark.len,
        None => 0,
    }
}

// A part that begins with what its mark has.
fn begin(
    alloc: Global,
    number: u32,
    from: &Addr,
    key: &FileKey,
    mark: Option<PartAt>,
) -> Result<OpenPart, NoMemory>
    ensures part { IfOk result (λ part. part ≡ begun number (address from.now) (key_in key.now) mark) }
    ensures time { HasTime (key_in key.now) }
{
    let (_size, _time) = (key.size, key.time);
    Ok(OpenPart {
        number,
        from: from.copy(alloc)?,
        key: key.copy(alloc)?,
        have: len_of(mark),
        receipt: ReceivedRec {
            receipt: number,
            from: from.copy(alloc)?,
            key: key.copy(alloc)?,
            session: 0,
            secure: false,
        },
        first_mark: first_mark(alloc, number, from, key, mark)?,
        next_mark: Record::Mark(new_mark(alloc, number, from, key)?),
    })
}

/// Where the open part of a sender and key stands.
pub(crate) fn file_of(from: &Addr, key: &FileKey, parts: &[OpenPart]) -> Option<usize>
    ensures { result ≡ position (λ (p : Part). is_same (address from.now) (key_in key.now) p.from p.key) parts.now }
{
    parts
        .iter()
        .position(|part| is_same(from, key, &part.from, &part.key))
}

// The number of a part that begins; `None` where none is left.
fn number_of(
    mark: Option<PartAt>,
    from: &Addr,
    key: &FileKey,
    drawn: u32,
    parts: &[OpenPart],
) -> Option<u32>
    ensures { result ≡ next_number mark (find (λ (p : Part). is_same (address from.now) (key_in key.now) p.from p.key) parts.now) drawn }
{
    if let Some(mark) = mark {
        return Some(mark.part);
    }
    match file_of(from, key, parts) {
        Some(place) => Some(parts[place].number()),
        None if drawn == MAX_NUMBER => None,
        None => Some(drawn + 1),
    }
}

// Makes room for one more open part, and holds its file, unless that is held already.
fn make_room(
    alloc: Global,
    from: &Addr,
    key: &FileKey,
    parts: &mut Vec<OpenPart>,
    books: &mut Books,
) -> Result<(), NoMemory>
    requires held { AllByRecursion (λ (p : Part). is_held p.from p.key books.old.folding.holds ≡ true) parts.old.items }
    ensures parts { parts.new.items ≡ parts.old.items }
    ensures room { OnOk result (vec_len parts.new < vec_capacity parts.new) }
    ensures same { books.new ≡ record books.old { folding = record books.old.folding { holds = books.new.folding.holds } } }
    ensures others { AllByRecursion (λ (p : Part). is_held p.from p.key books.new.folding.holds ≡ true) parts.old.items }
    ensures held { OnOk result (is_held (address from.now) (key_in key.now) books.new.folding.holds ≡ true) }
    ensures unheld { OnErr result (books.new ≡ books.old) }
{
    if parts.reserve(1).is_err() {
        return Err(NoMemory);
    }
    if file_of(from, key, parts.as_slice()).is_none() {
        books.hold(alloc, from, key)?;
    }
    Ok(())
}

// A part is open, in place of an open one of its sender and key.
fn put_in_place(part: OpenPart, parts: &mut Vec<OpenPart>)
    requires { vec_len parts.old < vec_capacity parts.old }
    ensures { parts.new.items ≡ without_file part.from part.key parts.old.items ++ part ∷ [] }
{
    if let Some(place) = file_of(&part.from, &part.key, parts.as_slice()) {
        drop(parts.remove(place));
    }
    match parts.push(part) {
        Ok(()) => (),
        Err(_) => unreachable!(),
    }
}

impl<D: Disk> NodeStore<D> {
    /// Opens a part of a sender's file with what its mark has, and makes room for all its bytes, its marks and its receipt.
    pub fn part_open(
        &mut self,
        alloc: Global,
        from: &Addr,
        key: &FileKey,
    ) -> Result<PartAt, StoreFault>
        requires whole { self.old.memory.broken ≡ None }
        requires address_limits { IsAddress (address from.now) }
        requires key_limits { IsKey (key_in key.now) }
        requires unknown { known_in (address from.now) (key_in key.now) (stand_of D.tells D.content D.fault_count D.moment D.images self.old).state.stock.state ≡ K.New }
        ensures { StoreKept (stand_of D.tells D.content D.fault_count D.moment D.images self.old) (Part_open (address from.now) (key_in key.now)) (open_answer result) (stand_of D.tells D.content D.fault_count D.moment D.images self.new) }
    {
        let mark = mark_of(from, key, self.books.folded());
        let Some(number) = number_of(mark, from, key, self.drawn, self.parts.as_slice()) else {
            self.fulls = self.fulls.saturating_add(1);
            return Err(StoreFault::Full);
        };
        let Ok(part) = begin(alloc, number, from, key, mark) else {
            return Err(StoreFault::NoMemory);
        };
        if make_room(alloc, from, key, &mut self.parts, &mut self.books).is_err() {
            drop(part);
            return Err(StoreFault::NoMemory);
        }
        let name = in_file(number);
        match make_ready(&mut self.disk, &name, mark) {
            Ok(()) => {
                self.drawn = self.drawn.max(number);
                put_in_place(part, &mut self.parts);
                Ok(PartAt {
                    part: number,
                    len: len_of(mark),
                })
            }
            Err(_) => {
                drop(part);
                self.broken = Some(self.disk.faults());
                Err(StoreFault::Disk)
            }
        }
    }
}

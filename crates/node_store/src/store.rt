//! The store on a disk, with what it has in memory.
ghost use Rattle.std.specs.Prelude.{◌≡◌, ◌≤◌, length, option_map, None, Option, true};
ghost use Rattle.ftn_addr.specs.Address.{address};
ghost use Rattle.ftn_addr.specs.Key.{key_of as key_in};
ghost use Rattle.node_model.specs.Durable.{mark_of as mark_in};
ghost use Rattle.node_model.specs.Node.{Settings};
ghost use Rattle.node_model.specs.StoreWords.{part_at};
ghost use Rattle.node_model.specs.Stocks.{known_in};
ghost use Rattle.node_model.specs.Lists.{Each};
ghost use Rattle.node_model.specs.Stores.{By_seat, IsOpen, IsShelf, OpensShelf, Part_put, Release, Reserve, StoreKept, Well, well_answer};
ghost use Rattle.disk_model.specs.Changes.{Every};
ghost use Rattle.disk_model.specs.Moments.{Now};
ghost use Rattle.node_model.specs.StoreStates.{Shelf, shelf_of};
ghost use Rattle.node_store.specs.Finding.{IsNewMemory};
ghost use Rattle.node_store.specs.Sounds.{KeepsSound};
ghost use Rattle.node_store.specs.Stored.{stand_of, stored_in};
ghost use Rattle.node_store.specs.Takes.{AreTakesOf};
ghost use Rattle.node_store.specs.Worlds.{OpensAs};

use crate::books::Books;
use crate::lookups::{known, mark_of};
use crate::names::in_file;
use crate::part::{OpenPart, StagedFile, grow, have_of};
use crate::takes::{StandingTakes, TakeName};
use disk_model::Disk;
use file_index::NumberSet;
use ftn_addr::{Addr, Bytes, FileKey, MAX_NUMBER};
use ledger_file::AppendFault;
use ledger_rec::Folded;
use node_model::{Known, PartAt, StoreFault};
use std::marker::Model;

/// A store on a disk: a ledger, and the own files beside it.
///
/// Its calls reserve places, give them back, look files up, read them, stage and queue them, settle what was sent, act on the
/// sources of queued files, open a part, put bytes into it, mark, commit and refuse it, and give received files to other programs.
///
/// What a stop may leave of the disk opens to what the store keeps, unless the disk failed. So the disk is never lent for
/// writing.
#[derive(Drop)]
pub struct NodeStore<D: Disk> {
    pub(crate) disk: D,
    pub(crate) books: Books,
    pub(crate) given: Vec<u32>,
    pub(crate) kept: NumberSet,
    pub(crate) takes: StandingTakes,
    pub(crate) parts: Vec<OpenPart>,
    pub(crate) staged: Vec<StagedFile>,
    pub(crate) drawn: u32,
    pub(crate) last_staged: u32,
    pub(crate) seat: u32,
    pub(crate) last_given: u32,
    pub(crate) text: Bytes,
    pub(crate) fulls: u64,
    pub(crate) broken: Option<u64>,
}

impl<D: Disk> Model for NodeStore<D> {
    ghost use Rattle.std.specs.Prelude.{◌≡◌, ◌+◌, ◌≤◌, None, length};
    ghost use Rattle.file_index.specs.Sets.{Kept};
    ghost use Rattle.node_store.specs.Giving.{is_kept};
    ghost use Rattle.node_store.specs.Stored.{Holding, Memory, IsSound, state_of};
    ghost use Rattle.node_store.specs.Takes.{AreTakesOf};

    ghost Value = { Holding D };

    ghost view = { λ s. record { disk = s.disk; takes = s.takes; memory = record { books = s.books; given = s.given.items; parts = s.parts.items; staged = s.staged.items; drawn = s.drawn; last_staged = s.last_staged; seat = s.seat; last_given = s.last_given; fulls = s.fulls; broken = s.broken } } };

    // There is room for the text of a record; the set keeps the receipts whose files weren't given; and the takes are those of
    // the store, unless the disk failed.
    ghost invariant = { λ s. IsSound D.tells D.content D.moment D.images s.disk (record { books = s.books; given = s.given.items; parts = s.parts.items; staged = s.staged.items; drawn = s.drawn; last_staged = s.last_staged; seat = s.seat; last_given = s.last_given; fulls = s.fulls; broken = s.broken }) × (1400 ≤ s.text.spare + length s.text.list) × Kept s.kept (is_kept s.given.items s.books.folding.state.inbox) × (s.broken ≡ None → AreTakesOf s.takes (state_of D.tells (D.content s.disk) (D.fault_count s.disk) (record { books = s.books; given = s.given.items; parts = s.parts.items; staged = s.staged.items; drawn = s.drawn; last_staged = s.last_staged; seat = s.seat; last_given = s.last_given; fulls = s.fulls; broken = s.broken }))) };
}

// A number in four bytes is at most the greatest.
fn fits_four(number: u32)
    ensures { number ≤ MAX_NUMBER }
{
    let _number = number;
}

impl<D: Disk> NodeStore<D> {
    /// The disk, for reading.
    pub fn disk(&self) -> &D
        ensures { result.now ≡ self.now.disk }
    {
        &self.disk
    }

    /// The disk. It takes no memory.
    pub fn into_disk(self) -> D
        ensures { result ≡ self.disk }
    {
        self.disk
    }

    /// The queue, the inbox, the refusals and the marks, as the ledger's records leave them. It takes no memory.
    pub fn state(&self) -> &Folded
        ensures { result.now ≡ self.now.memory.books.folding }
    {
        self.books.folded()
    }

    /// What a whole store tells, over a disk that tells, is what an opening of that disk finds, as it reads and as each stop now
    /// may leave it. It does nothing.
    pub fn opens_as_told(&self)
        requires { self.now.memory.broken ≡ None }
        ensures read { D.tells ≡ true → OpensAs (D.content self.now.disk) (shelf_of (stored_in (D.content self.now.disk) self.now.memory)) }
        ensures stopped { D.tells ≡ true → Every (Now D.moment D.images self.now.disk) (λ w. OpensAs w (shelf_of (stored_in (D.content self.now.disk) self.now.memory))) }
    {
        let _seat = self.seat;
    }

    /// What a stop now may leave of a whole store opens to what it tells. It does nothing.
    pub fn now_is_told(&self)
        requires { self.now.memory.broken ≡ None }
        ensures { (d : Option Shelf) → (stand_of D.tells D.content D.fault_count D.moment D.images self.now).images (stand_of D.tells D.content D.fault_count D.moment D.images self.now).moment d → OpensShelf (IsShelf (stand_of D.tells D.content D.fault_count D.moment D.images self.now).state.content) d }
    {
        let _seat = self.seat;
    }

    /// No number of a queued or a staged file is above the last that was drawn for staging, and that is at most the greatest. It does
    /// nothing.
    pub fn numbers_are_drawn(&self)
        ensures queued { Each (λ entry. entry.number ≤ (stand_of D.tells D.content D.fault_count D.moment D.images self.now).state.staged) (stand_of D.tells D.content D.fault_count D.moment D.images self.now).state.stock.state.queue }
        ensures staged { Each (λ file. file.number ≤ (stand_of D.tells D.content D.fault_count D.moment D.images self.now).state.staged) (stand_of D.tells D.content D.fault_count D.moment D.images self.now).state.stock.staged }
        ensures few { (stand_of D.tells D.content D.fault_count D.moment D.images self.now).state.staged ≤ MAX_NUMBER }
    {
        fits_four(self.last_staged);
    }

    /// What a store that was just opened keeps is what a sound node without seats keeps; of a store that tells nothing, so is
    /// something that it may keep. It does nothing.
    pub fn opens_soundly(&self)
        requires { IsNewMemory self.now.memory }
        ensures { (settings : Settings) → KeepsSound settings (stand_of D.tells D.content D.fault_count D.moment D.images self.now).state }
    {
        self.books.holds_few();
        fits_four(self.drawn);
    }

    /// The takes that stand in the own folder, and aren't finished. Where the store tells what it keeps, these are all. It takes no
    /// memory.
    pub fn takes_left(&self) -> &[TakeName]
        ensures left { result.now ≡ self.now.takes.left }
        ensures all { self.now.memory.broken ≡ None → AreTakesOf self.now.takes (stand_of D.tells D.content D.fault_count D.moment D.images self.now).state }
    {
        self.takes.left()
    }

    /// How often a call of the disk failed.
    pub fn faults(&self) -> u64
        ensures { result ≡ (stand_of D.tells D.content D.fault_count D.moment D.images self.now).state.counts.faults }
    {
        self.disk.faults()
    }

    /// How often a call answered [`StoreFault::Full`].
    pub fn fulls(&self) -> u64
        ensures { result ≡ (stand_of D.tells D.content D.fault_count D.moment D.images self.now).state.counts.fulls }
    {
        self.fulls
    }

    /// The count of faults after the call that answered [`StoreFault::Disk`]; `None` for a store that is whole.
    pub fn broken(&self) -> Option<u64>
        ensures { result ≡ (stand_of D.tells D.content D.fault_count D.moment D.images self.now).state.counts.broken }
    {
        self.broken
    }

    /// How many records were appended since the store was opened.
    pub fn appended(&self) -> u64
        ensures { result ≡ (stand_of D.tells D.content D.fault_count D.moment D.images self.now).state.appended }
    {
        self.books.appended()
    }

    /// Where a sender and key stand. It takes no memory.
    pub fn known(&self, from: &Addr, key: &FileKey) -> Known
        ensures { result ≡ known_in (address from.now) (key_in key.now) (stand_of D.tells D.content D.fault_count D.moment D.images self.now).state.stock.state }
    {
        known(from, key, self.books.folded())
    }

    /// The mark of a sender and key. It takes no memory.
    pub fn mark_of(&self, from: &Addr, key: &FileKey) -> Option<PartAt>
        ensures { result ≡ option_map part_at (mark_in (address from.now) (key_in key.now) (stand_of D.tells D.content D.fault_count D.moment D.images self.now).state.stock.state) }
    {
        mark_of(from, key, self.books.folded())
    }

    /// The records appended from now on are this seat's. It takes no memory.
    pub fn by(&mut self, seat: u32)
        ensures { StoreKept (stand_of D.tells D.content D.fault_count D.moment D.images self.old) (By_seat seat) Well (stand_of D.tells D.content D.fault_count D.moment D.images self.new) }
    {
        self.seat = seat;
    }

    /// Gives reserved places back. It takes no memory.
    pub fn release(&mut self, places: u32)
        requires whole { self.old.memory.broken ≡ None }
        requires reserved { places ≤ self.old.memory.books.reserved }
        ensures { StoreKept (stand_of D.tells D.content D.fault_count D.moment D.images self.old) (Release places) Well (stand_of D.tells D.content D.fault_count D.moment D.images self.new) }
    {
        self.books.release(places);
    }

    /// Reserves places for the next `places` records.
    pub fn reserve(&mut self, places: u32) -> Result<(), StoreFault>
        requires { self.old.memory.broken ≡ None }
        ensures { StoreKept (stand_of D.tells D.content D.fault_count D.moment D.images self.old) (Reserve places) (well_answer result) (stand_of D.tells D.content D.fault_count D.moment D.images self.new) }
    {
        match self.books.reserve(places) {
            Ok(()) => Ok(()),
            Err(AppendFault::NoMemory) => Err(StoreFault::NoMemory),
            Err(AppendFault::Full) => {
                self.fulls = self.fulls.saturating_add(1);
                Err(StoreFault::Full)
            }
            Err(AppendFault::Disk) => unreachable!(),
        }
    }

    /// Puts bytes behind those of an open part. It takes no memory.
    pub fn part_put(&mut self, part: u32, bytes: &[u8]) -> Result<(), StoreFault>
        requires whole { self.old.memory.broken ≡ None }
        requires fits { IsOpen part (length bytes.now) (stand_of D.tells D.content D.fault_count D.moment D.images self.old).state }
        ensures { StoreKept (stand_of D.tells D.content D.fault_count D.moment D.images self.old) (Part_put part bytes.now) (well_answer result) (stand_of D.tells D.content D.fault_count D.moment D.images self.new) }
    {
        let at = have_of(part, self.parts.as_slice());
        match self.disk.write_at(&in_file(part), at, bytes) {
            Ok(()) => {
                grow(part, bytes.len(), &mut self.parts);
                Ok(())
            }
            Err(_) => {
                self.broken = Some(self.disk.faults());
                Err(StoreFault::Disk)
            }
        }
    }
}

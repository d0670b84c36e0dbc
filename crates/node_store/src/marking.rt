//! What came of a part becomes its mark.
ghost use Rattle.std.specs.Prelude.{◌≡◌, ◌+◌, ◌<◌, ◌≤◌, ℕ, Bool, List, [], ◌∷◌, length, nat_lt, IsSome, None, Ok, OnErr, OnOk, Some, true};
ghost use Rattle.disk_model.specs.Causes.{HasCause};
ghost use Rattle.disk_model.specs.Changes.{Every, Follows, Only, Stands};
ghost use Rattle.disk_model.specs.Moments.{Leaves, Now};
ghost use Rattle.disk_model.specs.World.{World};
ghost use Rattle.ledger_file.specs.Ledger.{LedgerIs, ledger_name};
ghost use Rattle.ledger_rec.specs.Fold.{fold_step, is_part_of};
ghost use Rattle.ledger_rec.specs.Payloads.{record_in};
ghost use Rattle.ledger_rec.specs.Record.{Mark, mark, record_of};
ghost use Rattle.node_model.specs.Durable.{mark_of as mark_in};
ghost use Rattle.node_model.specs.Stocks.{begins_with};
ghost use Rattle.node_model.specs.Stores.{IsOpen, Part_mark, StoreKept, well_answer};
ghost use Rattle.node_store.specs.Books.{IsBooks};
ghost use Rattle.node_store.specs.Contents.{durable_by};
ghost use Rattle.node_store.specs.Names.{in_name};
ghost use Rattle.node_store.specs.Recording.{IsRecorded, IsSynced, Records};
ghost use Rattle.node_store.specs.Stored.{IsMarking, all_marked, mark_text, marks_all, sizes_in, stand_of};

use crate::books::{Books, fold_in};
use crate::lookups::mark_of;
use crate::part::{OpenPart, place_of};
use crate::spelling::spell;
use crate::store::NodeStore;
use disk_model::Disk;
use ftn_addr::{Bytes, Failed};
use ledger_rec::{Folded, Lengthened, MarkRec, Record};
use node_model::StoreFault;

// Folds a longer mark in, where that part is marked.
fn lengthen(rec: &MarkRec, folded: &mut Folded)
    requires stands { is_part_of rec.now.part (mark rec.now).from (mark rec.now).key folded.old.state.marks ≡ true }
    requires follows { IsSome (fold_step folded.old.state (Mark (mark rec.now))) }
    ensures folded { fold_step folded.old.state (Mark (mark rec.now)) ≡ Some folded.new.state }
    ensures holds { folded.new.holds ≡ folded.old.holds }
    ensures room { folded.new.room ≡ folded.old.room }
{
    match folded.lengthen(rec) {
        Lengthened::Longer => (),
        Lengthened::NoMark | Lengthened::BadFold => unreachable!(),
    }
}

impl OpenPart {
    // The record of its next mark.
    fn next_mark(&self) -> &MarkRec
        requires { (len : ℕ) × (self.now.next_mark ≡ Mark (mark_text self.now len)) }
        ensures { self.now.next_mark ≡ Mark (mark result.now) }
    {
        match &self.next_mark {
            Record::Mark(rec) => rec,
            _ => unreachable!(),
        }
    }

    // All that it has is marked next.
    fn mark_all(&mut self)
        requires { (len : ℕ) × (self.old.next_mark ≡ Mark (mark_text self.old len)) }
        ensures { self.new ≡ marks_all self.old }
    {
        match &mut self.next_mark {
            Record::Mark(rec) => rec.length = self.have,
            _ => unreachable!(),
        }
    }

    /// Folds its next mark in, which is all that it has: a first one is given away, and a later one lent.
    pub(crate) fn fold_mark(&mut self, folded: &mut Folded)
        requires next { self.old.next_mark ≡ Mark (mark_text self.old self.old.have) }
        requires marking { IsMarking folded.old.state self.old }
        requires room { 1 ≤ folded.old.room }
        ensures folded { fold_step folded.old.state self.old.next_mark ≡ Some folded.new.state }
        ensures holds { folded.new.holds ≡ folded.old.holds }
        ensures room { folded.old.room ≤ folded.new.room + 1 }
        ensures part { self.new ≡ all_marked self.old }
    {
        match self.first_mark.take() {
            Some(mut first) => {
                first.length = self.have;
                fold_in(Record::Mark(first), folded);
            }
            None => lengthen(self.next_mark(), folded),
        }
    }

    // Whether it has more than its mark.
    fn is_ahead(&self, folded: &Folded) -> bool
        ensures { (tells : Bool) (w : World) (given : List ℕ) → result ≡ nat_lt (begins_with 0 (mark_in self.now.from self.now.key (durable_by (sizes_in tells w given) folded.now.state))) self.now.have }
    {
        match mark_of(&self.from, &self.key, folded) {
            Some(mark) => mark.len < self.have,
            None => 0 < self.have,
        }
    }
}

// Makes the file of a part durable, and then a mark of all that it has.
fn mark_part<D: Disk>(
    part: &mut OpenPart,
    text: &mut Bytes,
    books: &mut Books,
    disk: &mut D,
    seat: u32,
) -> Result<(), Failed>
    requires marking { IsMarking books.old.folding.state part.old }
    requires room { 1400 ≤ text.old.spare + length text.old.list }
    requires place { 1 ≤ books.old.reserved }
    requires stands { Every (D.files disk.old) (Stands (in_name part.old.number) 0) }
    requires ready { Every (Now D.moment D.images disk.old) (LedgerIs books.old.payloads) }
    ensures spells { record_in text.new.list ≡ Ok (Mark (mark_text part.old part.old.have)) }
    ensures text { 1400 ≤ text.new.spare + length text.new.list }
    ensures recorded { OnOk result (IsRecorded text.new.list (Mark (mark_text part.old part.old.have)) seat books.old books.new) }
    ensures books { IsBooks books.new }
    ensures same { OnErr result (books.new ≡ books.old) }
    ensures marked { OnOk result (part.new ≡ all_marked part.old) }
    ensures unmarked { OnErr result (part.new ≡ marks_all part.old) }
    ensures durable { OnOk result (Every (Now D.moment D.images disk.new) (LedgerIs books.new.payloads)) }
    ensures synced { OnOk result (Every (Now D.moment D.images disk.new) (IsSynced (D.files disk.old) (in_name part.old.number))) }
    ensures stop { Leaves D.moment D.images (Records (D.files disk.old) (in_name part.old.number) books.old.payloads (text.new.list ∷ [])) disk.old disk.new }
    ensures read { Follows (Only ledger_name) (D.files disk.old) (D.files disk.new) }
    ensures cause { HasCause (D.fault_count disk.old) (D.fault_count disk.new) result }
{
    part.mark_all();
    spell(&part.next_mark, text);
    books.record_mark(disk, text.as_slice(), part, seat)
}

impl<D: Disk> NodeStore<D> {
    /// What an open part has becomes its mark, where that is more. It uses a reserved place and takes no memory.
    pub fn part_mark(&mut self, part: u32) -> Result<(), StoreFault>
        requires whole { self.old.memory.broken ≡ None }
        requires is_open { IsOpen part 0 (stand_of D.tells D.content D.fault_count D.moment D.images self.old).state }
        requires place { 0 < self.old.memory.books.reserved }
        ensures { StoreKept (stand_of D.tells D.content D.fault_count D.moment D.images self.old) (Part_mark part) (well_answer result) (stand_of D.tells D.content D.fault_count D.moment D.images self.new) }
    {
        let Some(place) = place_of(part, self.parts.as_slice()) else {
            unreachable!()
        };
        if !self.parts[place].is_ahead(self.books.folded()) {
            return Ok(());
        }
        match mark_part(
            &mut self.parts[place],
            &mut self.text,
            &mut self.books,
            &mut self.disk,
            self.seat,
        ) {
            Ok(()) => Ok(()),
            Err(_) => {
                self.broken = Some(self.disk.faults());
                Err(StoreFault::Disk)
            }
        }
    }
}

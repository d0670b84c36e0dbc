//! A ledger in memory with its fold.
ghost use Rattle.std.specs.Prelude.{◌≡◌, ◌≢◌, ◌+◌, ◌-◌, ◌<◌, ◌≤◌, ◌↔◌, [], ◌∷◌, ◌++◌, length, IsErrOf, IsSome, Ok, OnErr, OnOk, Some, vec_capacity, vec_len};
ghost use Rattle.ftn_addr.specs.Address.{address};
ghost use Rattle.ftn_addr.specs.Key.{key_of};
ghost use Rattle.disk_model.specs.Causes.{HasCause};
ghost use Rattle.disk_model.specs.Changes.{Every, Follows, Only, Stands};
ghost use Rattle.disk_model.specs.Moments.{Leaves, Now};
ghost use Rattle.ledger_file.specs.Ledger.{Appends, LedgerIs, ledger_name};
ghost use Rattle.ledger_file.specs.Text.{IsPayload};
ghost use Rattle.ledger_rec.specs.Fold.{fold_step, without_hold};
ghost use Rattle.ledger_rec.specs.Payloads.{fold_of, record_in};
ghost use Rattle.ledger_rec.specs.Record.{Mark, record_of};
ghost use Rattle.node_store.specs.Books.{AreSame, IsBooks};
ghost use Rattle.node_store.specs.Names.{in_name};
ghost use Rattle.node_store.specs.Recording.{IsRecorded, IsSynced, Records};
ghost use Rattle.node_store.specs.Stored.{IsMarking, all_marked, mark_text};

use crate::names::in_file;
use crate::part::OpenPart;
use crate::recording::{append, record_file};
use disk_model::{Disk, Name};
use ftn_addr::{Addr, Failed, FileKey, NoMemory};
use ledger_file::{AppendFault, Ledger};
use ledger_rec::{Folded, Record};
use std::alloc::Global;
use std::marker::Model;

/// The records of a ledger in memory: its payloads, the state that they leave, and the seat of each one since the opening.
///
/// A place reserved has room for its record, for what the record folds to, and for its seat.
#[derive(Drop)]
pub(crate) struct Books {
    pub(crate) ledger: Ledger,
    pub(crate) folded: Folded,
    opened: u32,
    pub(crate) seats: Vec<u32>,
}

impl Model for Books {
    ghost use Rattle.std.specs.Prelude.{◌+◌, ◌≤◌, vec_len, vec_capacity};
    ghost use Rattle.node_store.specs.Books.{Books as Held, IsBooks};

    ghost Value = { Held };

    ghost view = { λ b. record { payloads = b.ledger.payloads; reserved = b.ledger.reserved; opened = b.opened; seats = b.seats.items; folding = b.folded } };

    ghost invariant = { λ b. IsBooks (record { payloads = b.ledger.payloads; reserved = b.ledger.reserved; opened = b.opened; seats = b.seats.items; folding = b.folded }) × (vec_len b.seats + b.ledger.reserved ≤ vec_capacity b.seats) };
}

/// Folds a record in that keeps the rules, where there is room for it.
pub(crate) fn fold_in(rec: Record, folded: &mut Folded)
    requires room { 1 ≤ folded.old.room }
    requires follows { IsSome (fold_step folded.old.state (record_of rec)) }
    ensures folded { fold_step folded.old.state (record_of rec) ≡ Some folded.new.state }
    ensures holds { folded.new.holds ≡ folded.old.holds }
    ensures room { folded.old.room ≤ folded.new.room + 1 }
{
    match folded.add_owned(rec) {
        Ok(()) => (),
        Err(_) => unreachable!(),
    }
}

// Puts a seat behind the others, where there is room for it.
fn note(seat: u32, seats: &mut Vec<u32>)
    requires { vec_len seats.old < vec_capacity seats.old }
    ensures items { seats.new.items ≡ seats.old.items ++ seat ∷ [] }
    ensures len { vec_len seats.new ≡ vec_len seats.old + 1 }
    ensures capacity { vec_capacity seats.old ≤ vec_capacity seats.new }
{
    match seats.push(seat) {
        Ok(()) => (),
        Err(_) => unreachable!(),
    }
}

impl Books {
    /// The books of a ledger that is opened.
    pub(crate) fn new(alloc: Global, ledger: Ledger, folded: Folded) -> Books
        requires folds { fold_of ledger.payloads ≡ Some folded.state }
        requires places { ledger.reserved ≡ 0 }
        ensures { result ≡ record { payloads = ledger.payloads; reserved = 0; opened = length ledger.payloads; seats = []; folding = folded } }
    {
        let opened = ledger.count();
        Books {
            ledger,
            folded,
            opened,
            seats: Vec::new(alloc),
        }
    }

    /// How many records were appended since the opening.
    pub(crate) fn appended(&self) -> u64
        ensures { result ≡ length self.now.seats }
    {
        self.seats.len() as u64
    }

    /// The state that the records leave.
    pub(crate) fn folded(&self) -> &Folded
        ensures { result.now ≡ self.now.folding }
    {
        &self.folded
    }

    /// Reserves places for `places` records, with memory for each. Where it is refused nothing that is told changed.
    pub(crate) fn reserve(&mut self, places: u32) -> Result<(), AppendFault>
        ensures same { AreSame self.old self.new }
        ensures reserved { OnOk result (self.new.reserved ≡ self.old.reserved + places) }
        ensures unreserved { OnErr result (self.new.reserved ≡ self.old.reserved) }
        ensures books { IsBooks self.new }
        ensures room { OnOk result (length self.old.payloads + self.old.reserved + places ≤ 262144) }
        ensures full { IsErrOf result AppendFault.Full ↔ (262144 < length self.old.payloads + self.old.reserved + places) }
        ensures no_disk { IsErrOf result AppendFault.Disk → ⊥ }
    {
        self.ledger.reserve(places)?;
        let reserved = self.ledger.reserved();
        if self.seats.reserve(reserved as usize).is_err()
            || self.folded.reserve(reserved).is_err()
        {
            self.ledger.release(places);
            return Err(AppendFault::NoMemory);
        }
        Ok(())
    }

    /// A ledger has at most so many records, the places reserved among them. It does nothing.
    pub(crate) fn holds_few(&self)
        ensures { length self.now.payloads + self.now.reserved ≤ 262144 }
    {
        self.ledger.holds_few();
    }

    /// Gives reserved places back. It takes no memory.
    pub(crate) fn release(&mut self, places: u32)
        requires { places ≤ self.old.reserved }
        ensures same { AreSame self.old self.new }
        ensures reserved { self.new.reserved + places ≡ self.old.reserved }
        ensures books { IsBooks self.new }
    {
        self.ledger.release(places);
    }

    /// Begins a hold of a sender and key.
    pub(crate) fn hold(&mut self, alloc: Global, from: &Addr, key: &FileKey) -> Result<(), NoMemory>
        ensures held { OnOk result (self.new ≡ record self.old { folding = record self.old.folding { holds = self.old.folding.holds ++ record { from = address from.now; key = key_of key.now } ∷ [] } }) }
        ensures unheld { OnErr result (self.new ≡ self.old) }
        ensures books { IsBooks self.new }
    {
        self.folded.hold(alloc, from, key)
    }

    /// Ends a hold of a sender and key, where there is one. It takes no memory.
    pub(crate) fn unhold(&mut self, from: &Addr, key: &FileKey)
        ensures unheld { self.new ≡ record self.old { folding = record self.old.folding { holds = without_hold (address from.now) (key_of key.now) self.old.folding.holds } } }
        ensures books { IsBooks self.new }
    {
        self.folded.unhold(from, key);
    }

    /// Makes an own file durable, and then the record of it, which uses a reserved place and takes no memory. The payload spells
    /// the record, which keeps the rules of the fold.
    pub(crate) fn record_file<D: Disk>(
        &mut self,
        disk: &mut D,
        name: &Name,
        payload: &[u8],
        rec: Record,
        seat: u32,
    ) -> Result<(), Failed>
        requires size { IsPayload payload.now }
        requires spells { record_in payload.now ≡ Ok (record_of rec) }
        requires follows { IsSome (fold_step self.old.folding.state (record_of rec)) }
        requires place { 1 ≤ self.old.reserved }
        requires own { name.now ≢ ledger_name }
        requires stands { Every (D.files disk.old) (Stands name.now 0) }
        requires ready { Every (Now D.moment D.images disk.old) (LedgerIs self.old.payloads) }
        ensures recorded { OnOk result (IsRecorded payload.now (record_of rec) seat self.old self.new) }
        ensures books { IsBooks self.new }
        ensures same { OnErr result (self.new ≡ self.old) }
        ensures durable { OnOk result (Every (Now D.moment D.images disk.new) (LedgerIs self.new.payloads)) }
        ensures synced { OnOk result (Every (Now D.moment D.images disk.new) (IsSynced (D.files disk.old) name.now)) }
        ensures stop { Leaves D.moment D.images (Records (D.files disk.old) name.now self.old.payloads (payload.now ∷ [])) disk.old disk.new }
        ensures read { Follows (Only ledger_name) (D.files disk.old) (D.files disk.new) }
        ensures cause { HasCause (D.fault_count disk.old) (D.fault_count disk.new) result }
    {
        record_file(disk, &mut self.ledger, name, payload)?;
        fold_in(rec, &mut self.folded);
        note(seat, &mut self.seats);
        Ok(())
    }

    /// Makes a record durable, which uses a reserved place and takes no memory. The payload spells the record, which keeps the
    /// rules of the fold.
    pub(crate) fn append_record<D: Disk>(
        &mut self,
        disk: &mut D,
        payload: &[u8],
        rec: Record,
        seat: u32,
    ) -> Result<(), Failed>
        requires size { IsPayload payload.now }
        requires spells { record_in payload.now ≡ Ok (record_of rec) }
        requires follows { IsSome (fold_step self.old.folding.state (record_of rec)) }
        requires place { 1 ≤ self.old.reserved }
        requires ready { Every (Now D.moment D.images disk.old) (LedgerIs self.old.payloads) }
        ensures recorded { OnOk result (IsRecorded payload.now (record_of rec) seat self.old self.new) }
        ensures books { IsBooks self.new }
        ensures same { OnErr result (self.new ≡ self.old) }
        ensures durable { OnOk result (Every (Now D.moment D.images disk.new) (LedgerIs self.new.payloads)) }
        ensures stop { Leaves D.moment D.images (Appends self.old.payloads (payload.now ∷ [])) disk.old disk.new }
        ensures read { Follows (Only ledger_name) (D.files disk.old) (D.files disk.new) }
        ensures cause { HasCause (D.fault_count disk.old) (D.fault_count disk.new) result }
    {
        append(disk, &mut self.ledger, payload)?;
        fold_in(rec, &mut self.folded);
        note(seat, &mut self.seats);
        Ok(())
    }

    /// Makes the file of an open part durable, and then its next mark, which is all that it has. It uses a reserved place and
    /// takes no memory. The payload spells the mark.
    pub(crate) fn record_mark<D: Disk>(
        &mut self,
        disk: &mut D,
        payload: &[u8],
        part: &mut OpenPart,
        seat: u32,
    ) -> Result<(), Failed>
        requires size { IsPayload payload.now }
        requires spells { record_in payload.now ≡ Ok part.old.next_mark }
        requires next { part.old.next_mark ≡ Mark (mark_text part.old part.old.have) }
        requires marking { IsMarking self.old.folding.state part.old }
        requires place { 1 ≤ self.old.reserved }
        requires stands { Every (D.files disk.old) (Stands (in_name part.old.number) 0) }
        requires ready { Every (Now D.moment D.images disk.old) (LedgerIs self.old.payloads) }
        ensures recorded { OnOk result (IsRecorded payload.now part.old.next_mark seat self.old self.new) }
        ensures books { IsBooks self.new }
        ensures same { OnErr result (self.new ≡ self.old) }
        ensures marked { OnOk result (part.new ≡ all_marked part.old) }
        ensures unmarked { OnErr result (part.new ≡ part.old) }
        ensures durable { OnOk result (Every (Now D.moment D.images disk.new) (LedgerIs self.new.payloads)) }
        ensures synced { OnOk result (Every (Now D.moment D.images disk.new) (IsSynced (D.files disk.old) (in_name part.old.number))) }
        ensures stop { Leaves D.moment D.images (Records (D.files disk.old) (in_name part.old.number) self.old.payloads (payload.now ∷ [])) disk.old disk.new }
        ensures read { Follows (Only ledger_name) (D.files disk.old) (D.files disk.new) }
        ensures cause { HasCause (D.fault_count disk.old) (D.fault_count disk.new) result }
    {
        let name = in_file(part.number());
        record_file(disk, &mut self.ledger, &name, payload)?;
        part.fold_mark(&mut self.folded);
        note(seat, &mut self.seats);
        Ok(())
    }
}

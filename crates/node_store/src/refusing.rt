//! A file is refused.
ghost use Rattle.std.specs.Prelude.{◌≡◌, ◌≢◌, ◌<◌, IfOk, None, true};
ghost use Rattle.std.specs.List.{AllByRecursion};
ghost use Rattle.ftn_addr.specs.Address.{address};
ghost use Rattle.ftn_addr.specs.Key.{key_of as key_in};
ghost use Rattle.ftn_addr.specs.Limits.{IsAddress, IsKey};
ghost use Rattle.ledger_rec.specs.Fold.{is_held};
ghost use Rattle.ledger_rec.specs.Record.{Refused, record_of};
ghost use Rattle.node_model.specs.declared.words.Known.TheVariants as K;
ghost use Rattle.node_model.specs.Stocks.{known_in};
ghost use Rattle.node_model.specs.StoreWords.{IsReason};
ghost use Rattle.node_model.specs.Stores.{Refuse_file, StoreKept, well_answer};
ghost use Rattle.node_store.specs.Beginnings.{without_file};
ghost use Rattle.node_store.specs.Stored.{Part, stand_of};
ghost use Rattle.node_store.specs.Tied.{AllApart};

use crate::beginning::file_of;
use crate::books::Books;
use crate::part::OpenPart;
use crate::spelling::spell;
use crate::store::NodeStore;
use disk_model::Disk;
use ftn_addr::{Addr, FileKey, NoMemory};
use ledger_rec::{Record, RefusedRec};
use node_model::StoreFault;
use std::alloc::Global;

// The record of a refusal.
fn refusal(
    alloc: Global,
    from: &Addr,
    key: &FileKey,
    session: u32,
    reason: u8,
) -> Result<Record, NoMemory>
    ensures { IfOk result (λ rec. record_of rec ≡ Refused (record { from = address from.now; key = key_in key.now; session = session; reason = reason })) }
{
    Ok(Record::Refused(RefusedRec {
        from: from.copy(alloc)?,
        key: key.copy(alloc)?,
        session,
        reason,
    }))
}

// The open part of a sender and key is open no more, where there is one, nor held.
fn close_file(from: &Addr, key: &FileKey, parts: &mut Vec<OpenPart>, books: &mut Books)
    requires apart { AllApart parts.old.items }
    requires held { AllByRecursion (λ (p : Part). is_held p.from p.key books.old.folding.holds ≡ true) parts.old.items }
    ensures parts { parts.new.items ≡ without_file (address from.now) (key_in key.now) parts.old.items }
    ensures same { books.new ≡ record books.old { folding = record books.old.folding { holds = books.new.folding.holds } } }
    ensures held { AllByRecursion (λ (p : Part). is_held p.from p.key books.new.folding.holds ≡ true) parts.new.items }
{
    if let Some(place) = file_of(from, key, parts.as_slice()) {
        drop(parts.remove(place));
        books.unhold(from, key);
    }
}

impl<D: Disk> NodeStore<D> {
    /// Notes that a sender's file is refused, for its name (1) or its size (2). Its mark goes, and its part is open no more. It
    /// uses a reserved place.
    pub fn refuse(
        &mut self,
        alloc: Global,
        from: &Addr,
        key: &FileKey,
        session: u32,
        reason: u8,
    ) -> Result<(), StoreFault>
        requires whole { self.old.memory.broken ≡ None }
        requires address_limits { IsAddress (address from.now) }
        requires key_limits { IsKey (key_in key.now) }
        requires unknown { known_in (address from.now) (key_in key.now) (stand_of D.tells D.content D.fault_count D.moment D.images self.old).state.stock.state ≡ K.New }
        requires place { 0 < self.old.memory.books.reserved }
        requires session { session ≢ 0 }
        requires reason { IsReason reason }
        ensures { StoreKept (stand_of D.tells D.content D.fault_count D.moment D.images self.old) (Refuse_file (address from.now) (key_in key.now) session reason) (well_answer result) (stand_of D.tells D.content D.fault_count D.moment D.images self.new) }
    {
        let seat = self.seat;
        let Ok(rec) = refusal(alloc, from, key, session, reason) else {
            return Err(StoreFault::NoMemory);
        };
        spell(&rec, &mut self.text);
        match self
            .books
            .append_record(&mut self.disk, self.text.as_slice(), rec, seat)
        {
            Ok(()) => {
                close_file(from, key, &mut self.parts, &mut self.books);
                Ok(())
            }
            Err(_) => {
                self.broken = Some(self.disk.faults());
                Err(StoreFault::Disk)
            }
        }
    }
}

//! The calls of queued files.
ghost use Rattle.std.specs.Prelude.{◌≡◌, ◌≢◌, ◌<◌, None};
ghost use Rattle.ftn_addr.specs.Address.{address};
ghost use Rattle.ftn_addr.specs.Key.{key_of as key_in};
ghost use Rattle.ftn_addr.specs.Limits.{IsKey};
ghost use Rattle.node_model.specs.Stocks.{NextLive};
ghost use Rattle.node_model.specs.StoreWords.{HasEntry, KeyOf};
ghost use Rattle.node_model.specs.Stores.{IsLive, Settle, StoreKept, well_answer};
ghost use Rattle.node_store.specs.Stored.{stand_of};

use crate::NodeStore;
use crate::lookups::entry_of;
use crate::offers::next_of;
use crate::spelling::spell;
use disk_model::Disk;
use ftn_addr::{Addr, FileKey};
use ledger_rec::Record;
use node_model::{LivePlace, StoreFault};

impl<D: Disk> NodeStore<D> {
    /// The first live entry for an address, by flavour and then by number, behind that one; or the first of all. It takes no
    /// memory.
    pub fn next_live(&self, dest: &Addr, after: Option<LivePlace>) -> Option<LivePlace>
        ensures { NextLive (address dest.now) after (stand_of D.tells D.content D.fault_count D.moment D.images self.now).state.stock.state.queue result }
    {
        next_of(self.books.folded(), dest, after)
    }

    /// The key of the entry with that number. It takes no memory.
    pub fn key_of(&self, number: u32) -> &FileKey
        requires { HasEntry number (stand_of D.tells D.content D.fault_count D.moment D.images self.now).state.stock.state.queue }
        ensures entry { KeyOf number (key_in result.now) (stand_of D.tells D.content D.fault_count D.moment D.images self.now).state.stock.state.queue }
        ensures limits { IsKey (key_in result.now) }
    {
        let folded = self.books.folded();
        &entry_of(number, folded.queue_start(number), folded.queue()).key
    }

    /// Settles a live entry, which loses its bytes. It uses a reserved place and takes no memory.
    ///
    /// Its own file stays until the next opening, which removes what no record speaks of: a removal that failed here would have to
    /// break the store over a file that nobody asks for.
    pub fn done(&mut self, number: u32, session: u32) -> Result<(), StoreFault>
        requires whole { self.old.memory.broken ≡ None }
        requires live { IsLive number (stand_of D.tells D.content D.fault_count D.moment D.images self.old).state }
        requires place { 0 < self.old.memory.books.reserved }
        requires session { session ≢ 0 }
        ensures { StoreKept (stand_of D.tells D.content D.fault_count D.moment D.images self.old) (Settle number session) (well_answer result) (stand_of D.tells D.content D.fault_count D.moment D.images self.new) }
    {
        let rec = Record::Done(number, session);
        spell(&rec, &mut self.text);
        match self
            .books
            .append_record(&mut self.disk, self.text.as_slice(), rec, self.seat)
        {
            Ok(()) => Ok(()),
            Err(_) => {
                self.broken = Some(self.disk.faults());
                Err(StoreFault::Disk)
            }
        }
    }
}

//! A part that came whole becomes a receipt.
ghost use Rattle.std.specs.Prelude.{◌≡◌, ◌≢◌, ◌<◌, None};
ghost use Rattle.node_model.specs.Stores.{Commit, IsWhole, StoreKept, well_answer};
ghost use Rattle.node_store.specs.Stored.{stand_of};

use crate::names::in_file;
use crate::part::{ClosedPart, close};
use crate::spelling::spell;
use crate::store::NodeStore;
use disk_model::Disk;
use node_model::StoreFault;

impl<D: Disk> NodeStore<D> {
    /// Makes a part that has all its bytes a receipt, in one durable change. It uses a reserved place and takes no memory. Where
    /// the disk fails the part may be lost, so that the file comes again.
    pub fn commit(&mut self, part: u32, session: u32, secure: bool) -> Result<(), StoreFault>
        requires whole { self.old.memory.broken ≡ None }
        requires all { IsWhole part (stand_of D.tells D.content D.fault_count D.moment D.images self.old).state }
        requires place { 0 < self.old.memory.books.reserved }
        requires session { session ≢ 0 }
        ensures { StoreKept (stand_of D.tells D.content D.fault_count D.moment D.images self.old) (Commit part session secure) (well_answer result) (stand_of D.tells D.content D.fault_count D.moment D.images self.new) }
    {
        let ClosedPart { from, key, receipt } = close(part, session, secure, &mut self.parts);
        spell(&receipt, &mut self.text);
        let name = in_file(part);
        match self.books.record_file(
            &mut self.disk,
            &name,
            self.text.as_slice(),
            receipt,
            self.seat,
        ) {
            Ok(()) => {
                self.books.unhold(&from, &key);
                self.kept.note(part);
                Ok(())
            }
            Err(_) => {
                self.broken = Some(self.disk.faults());
                Err(StoreFault::Disk)
            }
        }
    }
}

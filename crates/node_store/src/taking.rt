//! The calls on takes: outside files are taken into the own folder, and are removed there once they are taken in.
ghost use Rattle.std.specs.Prelude.{◌≡◌, IfOk, None, Option};
ghost use Rattle.node_model.specs.StoreStates.{IfTold, Shelf};
ghost use Rattle.node_model.specs.Stores.{IsShelf, OpensShelf};
ghost use Rattle.node_store.specs.Stored.{stand_of};
ghost use Rattle.node_store.specs.Takes.{IsNext, MovedSo, RemovedSo};
ghost use Rattle.node_store.specs.Taking.{DrawsTake, HasMoved, IsFreshTake, IsRecordedTake, Takes, take_gone, taken_so};

use crate::NodeStore;
use disk_model::{Disk, Moved, Name, Yard};
use ftn_addr::{Bytes, MAX_NUMBER};
use node_model::StoreFault;

impl<D: Yard> NodeStore<D> {
    /// Moves an outside file into the own folder, under the name of a take with the number that was drawn. A read and a stop agree
    /// on whether it was moved, also where the disk failed. It takes no memory.
    ///
    /// After [`Moved::Done`] the take is among [`NodeStore::takes_left`]; after [`Moved::Absent`] its number is still drawn.
    pub fn take_file(&mut self, path: &Bytes, own: &Name) -> Result<Moved, StoreFault>
        requires whole { self.old.memory.broken ≡ None }
        requires next { IsNext own.now self.old.takes }
        ensures told { IfOk result (λ moved. IfTold (stand_of D.tells D.content D.fault_count D.moment D.images self.old).state.content (λ s. HasMoved moved (s.outside path.now.list))) }
        ensures takes { Takes (taken_so path.now.list own.now) result (stand_of D.tells D.content D.fault_count D.moment D.images self.old) (stand_of D.tells D.content D.fault_count D.moment D.images self.new) }
        ensures moved { MovedSo own.now result self.old.takes self.new.takes }
        ensures together { (d : Option Shelf) → (stand_of D.tells D.content D.fault_count D.moment D.images self.new).images (stand_of D.tells D.content D.fault_count D.moment D.images self.new).moment d → OpensShelf (IsShelf (stand_of D.tells D.content D.fault_count D.moment D.images self.new).state.content) d }
    {
        match self.disk.take(path, own) {
            Ok(Moved::Done) => {
                self.takes.moved(own);
                Ok(Moved::Done)
            }
            Ok(Moved::Absent) => Ok(Moved::Absent),
            Err(_) => {
                self.broken = Some(self.disk.faults());
                Err(StoreFault::Disk)
            }
        }
    }
}

impl<D: Disk> NodeStore<D> {
    /// Draws the number of the next take: one above those that are recorded and those that stand. Until a file was taken under it,
    /// it is drawn again. [`StoreFault::Full`] comes where the greatest number is used, and nowhere else.
    pub fn next_take(&mut self) -> Result<u32, StoreFault>
        requires whole { self.old.memory.broken ≡ None }
        ensures draws { DrawsTake result self.old self.new }
        ensures fresh { IfOk result (λ take. IsFreshTake take (stand_of D.tells D.content D.fault_count D.moment D.images self.old).state) }
    {
        if self.takes.last() == MAX_NUMBER {
            self.fulls = self.fulls.saturating_add(1);
            return Err(StoreFault::Full);
        }
        match self.takes.draw() {
            Ok(()) => Ok(self.takes.last() + 1),
            Err(_) => Err(StoreFault::NoMemory),
        }
    }

    /// Removes a take whose number is recorded, wholly or not at all. It is among [`NodeStore::takes_left`] no more. It takes no
    /// memory.
    pub fn finish_take(&mut self, own: &Name) -> Result<(), StoreFault>
        requires whole { self.old.memory.broken ≡ None }
        requires recorded { IsRecordedTake own.now (stand_of D.tells D.content D.fault_count D.moment D.images self.old).state }
        ensures takes { Takes (take_gone own.now) result (stand_of D.tells D.content D.fault_count D.moment D.images self.old) (stand_of D.tells D.content D.fault_count D.moment D.images self.new) }
        ensures removed { RemovedSo own.now result self.old.takes self.new.takes }
    {
        match self.disk.remove(own) {
            Ok(()) => {
                self.takes.removed(own);
                Ok(())
            }
            Err(_) => {
                self.broken = Some(self.disk.faults());
                Err(StoreFault::Disk)
            }
        }
    }
}

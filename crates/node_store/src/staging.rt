//! The calls that stage files.
ghost use Rattle.std.specs.Prelude.{◌≡◌, ◌≢◌, None, IfOk};
ghost use Rattle.disk_model.specs.Causes.{HasCause};
ghost use Rattle.disk_model.specs.Changes.{Every, Follows, Only, Stands};
ghost use Rattle.disk_model.specs.Moments.{Leaves};
ghost use Rattle.node_model.specs.Stores.{Stage, Stage_copy, StoreKept, copy_answer, staged_answer};
ghost use Rattle.node_store.specs.Copying.{IsCopyOf};
ghost use Rattle.node_store.specs.Stored.{stand_of};
ghost use Rattle.node_store.specs.Taking.{IsStandingTake, StagesOwn};

use crate::NodeStore;
use crate::copying::copy_own;
use crate::names::out_file;
use crate::part::{make_room, note_staged};
use disk_model::{Copied, Disk, Name, Yard};
use ftn_addr::{Bytes, Failed, MAX_NUMBER, MAX_SIZE};
use ledger_file::put_file;
use node_model::{OutStat, Staged, StoreFault};

// Copies a file that was taken to another own file, and says how long it is.
fn copy_take<D: Disk>(disk: &mut D, own: &Name, to: &Name) -> Result<u64, Failed>
    requires apart { own.now ≢ to.now }
    requires stands { Every (D.files disk.old) (Stands own.now 0) }
    ensures copied { IfOk result (λ size. Follows (IsCopyOf own.now to.now size) (D.files disk.old) (D.files disk.new)) }
    ensures read { Follows (Only to.now) (D.files disk.old) (D.files disk.new) }
    ensures stop { Leaves D.moment D.images (Only to.now) disk.old disk.new }
    ensures cause { HasCause (D.fault_count disk.old) (D.fault_count disk.new) result }
{
    let size = match disk.stat(own)? {
        Some(size) => size,
        None => 0,
    };
    copy_own(disk, own, to, size)?;
    Ok(size)
}

impl<D: Disk> NodeStore<D> {
    /// Copies a file that was taken under the next queue number. It answers that number and the file's length. It isn't queued yet,
    /// and a stop loses it.
    pub fn stage_own(&mut self, own: &Name) -> Result<(u32, u64), StoreFault>
        requires whole { self.old.memory.broken ≡ None }
        requires stands { IsStandingTake own.now (stand_of D.tells D.content D.fault_count D.moment D.images self.old).state }
        ensures stages { StagesOwn own.now result (stand_of D.tells D.content D.fault_count D.moment D.images self.old) (stand_of D.tells D.content D.fault_count D.moment D.images self.new) }
        ensures takes { self.new.takes ≡ self.old.takes }
    {
        if self.last_staged == MAX_NUMBER {
            self.fulls = self.fulls.saturating_add(1);
            return Err(StoreFault::Full);
        }
        if make_room(&mut self.staged).is_err() {
            return Err(StoreFault::NoMemory);
        }
        let number = self.last_staged + 1;
        match copy_take(&mut self.disk, own, &out_file(number)) {
            Ok(size) => {
                note_staged(number, size, &mut self.staged);
                self.last_staged = number;
                Ok((number, size))
            }
            Err(_) => {
                self.broken = Some(self.disk.faults());
                Err(StoreFault::Disk)
            }
        }
    }

    /// Puts a file under the next queue number, which it answers. It isn't queued yet, and a stop loses it.
    ///
    /// A file that stood under that number, of a batch that a stop cut off, is written over.
    pub fn stage(&mut self, bytes: &[u8]) -> Result<u32, StoreFault>
        requires { self.old.memory.broken ≡ None }
        ensures { StoreKept (stand_of D.tells D.content D.fault_count D.moment D.images self.old) (Stage bytes.now) (staged_answer result) (stand_of D.tells D.content D.fault_count D.moment D.images self.new) }
    {
        if self.last_staged == MAX_NUMBER {
            self.fulls = self.fulls.saturating_add(1);
            return Err(StoreFault::Full);
        }
        if make_room(&mut self.staged).is_err() {
            return Err(StoreFault::NoMemory);
        }
        let number = self.last_staged + 1;
        match put_file(&mut self.disk, &out_file(number), bytes) {
            Ok(()) => {
                note_staged(number, bytes.len() as u64, &mut self.staged);
                self.last_staged = number;
                Ok(number)
            }
            Err(_) => {
                self.broken = Some(self.disk.faults());
                Err(StoreFault::Disk)
            }
        }
    }
}

impl<D: Yard> NodeStore<D> {
    /// Copies an outside file of at most 2,147,483,647 bytes under the next queue number. It isn't queued yet, and a stop loses it.
    /// At `Absent` and `Over` nothing changes.
    pub fn stage_copy(&mut self, path: &Bytes) -> Result<Staged, StoreFault>
        requires { self.old.memory.broken ≡ None }
        ensures kept { StoreKept (stand_of D.tells D.content D.fault_count D.moment D.images self.old) (Stage_copy path.now.list) (copy_answer result) (stand_of D.tells D.content D.fault_count D.moment D.images self.new) }
        ensures takes { self.new.takes ≡ self.old.takes }
    {
        if self.last_staged == MAX_NUMBER {
            self.fulls = self.fulls.saturating_add(1);
            return Err(StoreFault::Full);
        }
        if make_room(&mut self.staged).is_err() {
            return Err(StoreFault::NoMemory);
        }
        let number = self.last_staged + 1;
        match self.disk.copy(path, &out_file(number), MAX_SIZE) {
            Ok(Copied::Copied(stat)) => {
                // A disk that tells its content has copied no more.
                if stat.size > MAX_SIZE {
                    return Ok(Staged::Over);
                }
                note_staged(number, stat.size, &mut self.staged);
                self.last_staged = number;
                let disk_model::OutStat { size, time } = stat;
                Ok(Staged::Copied(number, OutStat { size, time }))
            }
            Ok(Copied::Absent) => Ok(Staged::Absent),
            Ok(Copied::Over) => Ok(Staged::Over),
            Err(_) => {
                self.broken = Some(self.disk.faults());
                Err(StoreFault::Disk)
            }
        }
    }
}

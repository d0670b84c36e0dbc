//! The call that acts on the sources of queued files.
ghost use Rattle.std.specs.Prelude.{◌≡◌, ◌⊎◌, ◌<◌, ℕ, IfErr, None};
ghost use Rattle.ftn_addr.specs.Address.{address};
ghost use Rattle.disk_model.specs.Causes.{HasCause};
ghost use Rattle.disk_model.specs.Moments.{Together};
ghost use Rattle.ledger_rec.specs.Items.{entry};
ghost use Rattle.node_model.specs.declared.store.StoreFault.TheVariants.{Disk as DiskFailed};
ghost use Rattle.node_model.specs.Stores.{Act_next, StoreKept, act_answer};
ghost use Rattle.node_store.specs.Acting.{ActsOn, SameOutside};
ghost use Rattle.node_store.specs.Keeping.{Beside};
ghost use Rattle.node_store.specs.Stored.{stand_of};

use crate::NodeStore;
use crate::lookups::entry_of;
use crate::spelling::spell;
use disk_model::{OutStat, Yard};
use ftn_addr::{Addr, Failed};
use ledger_file::AppendFault;
use ledger_rec::{QueueItem, Record};
use node_model::StoreFault;

// Removes the source of a queued file or cuts it to length 0, where it still has the size and time of the file's key.
fn act_on<D: Yard>(disk: &mut D, item: &QueueItem) -> Result<(), Failed>
    requires action { 0 < item.now.action }
    requires beside { Beside D.files D.moment D.images SameOutside disk.old }
    ensures both { (time : ℕ) × Together D.files D.moment D.images result (λ _. ActsOn D.tells (entry item.now) time) disk.old disk.new }
    ensures cause { HasCause (D.fault_count disk.old) (D.fault_count disk.new) result }
{
    let was = OutStat {
        size: item.key.size,
        time: item.key.time,
    };
    match item.action {
        1 => match disk.remove_if(&item.source, &was) {
            Ok(_) => Ok(()),
            Err(e) => Err(e),
        },
        _ => match disk.cut_if(&item.source, &was) {
            Ok(_) => Ok(()),
            Err(e) => Err(e),
        },
    }
}

impl<D: Yard> NodeStore<D> {
    /// Does what is first to be done for an address: the source of a queued file is removed or cut to length 0, where it still has
    /// the size and time of the file's key, and that is recorded. It answers the file's number, or `None` where nothing is to be
    /// done. Where it is refused for want of memory or places, the disk wasn't touched.
    pub fn act_next(&mut self, dest: &Addr) -> Result<Option<u32>, StoreFault>
        requires { self.old.memory.broken ≡ None }
        ensures kept { StoreKept (stand_of D.tells D.content D.fault_count D.moment D.images self.old) (Act_next (address dest.now)) (act_answer result) (stand_of D.tells D.content D.fault_count D.moment D.images self.new) }
        ensures takes { self.new.takes ≡ self.old.takes }
        ensures untouched { IfErr result (λ fault. (fault ≡ DiskFailed) ⊎ (self.new.disk ≡ self.old.disk)) }
    {
        let Some(number) = self.books.folded().next_acting(dest) else {
            return Ok(None);
        };
        match self.books.reserve(1) {
            Ok(()) => {}
            Err(AppendFault::NoMemory) => return Err(StoreFault::NoMemory),
            Err(AppendFault::Full) => {
                self.fulls = self.fulls.saturating_add(1);
                return Err(StoreFault::Full);
            }
            Err(AppendFault::Disk) => unreachable!(),
        }
        let folded = self.books.folded();
        let item = entry_of(number, folded.queue_start(number), folded.queue());
        match act_on(&mut self.disk, item) {
            Ok(()) => {}
            Err(_) => {
                self.books.release(1);
                self.broken = Some(self.disk.faults());
                return Err(StoreFault::Disk);
            }
        }
        let rec = Record::Acted(number);
        spell(&rec, &mut self.text);
        match self
            .books
            .append_record(&mut self.disk, self.text.as_slice(), rec, self.seat)
        {
            Ok(()) => Ok(Some(number)),
            Err(_) => {
                self.books.release(1);
                self.broken = Some(self.disk.faults());
                Err(StoreFault::Disk)
            }
        }
    }
}

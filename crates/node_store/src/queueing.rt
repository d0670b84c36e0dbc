//! The call that queues staged files.
ghost use Rattle.std.specs.Prelude.{◌≡◌, ◌⊎◌, ◌==◌, IfErr, MatchResult, None, map};
ghost use Rattle.std.specs.List.{list_any};
ghost use Rattle.node_model.specs.declared.store.NewFile.{NewFile};
ghost use Rattle.node_model.specs.declared.store.StoreFault.TheVariants.{Disk as DiskFailed};
ghost use Rattle.node_model.specs.Lists.{some_passes, without};
ghost use Rattle.node_model.specs.Stocks.{NewEntry};
ghost use Rattle.node_model.specs.StoreWords.{IsNewBatch, entry_of, slot_of};
ghost use Rattle.node_model.specs.Stores.{Queue_all, Refuses, Slots, StoreKept};
ghost use Rattle.node_store.specs.Stored.{Put, stand_of};
ghost use Rattle.node_store.specs.Takes.{NotedSo};

use crate::NodeStore;
use crate::part::StagedFile;
use crate::planning::{Plan, plan_batch};
use disk_model::Disk;
use ledger_file::AppendFault;
use ledger_rec::{Batch, more_records_fold_on};
use node_model::{NewFile, Slot, StoreFault};
use std::alloc::Global;

// Whether one of these files was staged under that number.
fn has_number(files: &[NewFile], number: u32) -> bool
    ensures { result ≡ list_any (λ (f : NewFile). f.number == number) files.now }
{
    files.iter().any(|file| file.number == number)
}

// Whether the staged file is one of these.
fn is_among(files: &[NewFile], file: &StagedFile) -> bool
    ensures { result ≡ some_passes (λ (f : NewEntry). f.number == file.now.number) (map entry_of files.now) }
{
    has_number(files, file.number())
}

// These files are staged no more.
fn unstage(files: &[NewFile], staged: &mut Vec<StagedFile>)
    ensures { staged.new.items ≡ without (λ (p : Put). some_passes (λ (f : NewEntry). f.number == p.number) (map entry_of files.now)) staged.old.items }
{
    staged.retain(|file| !is_among(files, file));
}

impl<D: Disk> NodeStore<D> {
    /// Queues staged files, notes the take that brought them, and that they answer a received request, in one durable change.
    /// Numbers rise. A file whose address has its key already is [`Slot::Again`], and isn't kept: its own file stays until the next
    /// opening. Where it is refused for want of memory or places, the disk wasn't touched.
    pub fn queue_all(
        &mut self,
        alloc: Global,
        take: Option<u32>,
        answered: Option<u32>,
        files: &[NewFile],
    ) -> Result<Vec<Slot>, StoreFault>
        requires whole { self.old.memory.broken ≡ None }
        requires batch { IsNewBatch take answered (map entry_of files.now) (stand_of D.tells D.content D.fault_count D.moment D.images self.old).state }
        ensures noted { NotedSo take result self.old.takes self.new.takes }
        ensures untouched { IfErr result (λ fault. (fault ≡ DiskFailed) ⊎ (self.new.disk ≡ self.old.disk)) }
        ensures kept { MatchResult result (λ slots. StoreKept (stand_of D.tells D.content D.fault_count D.moment D.images self.old) (Queue_all take answered (map entry_of files.now)) (Slots (map slot_of slots.items)) (stand_of D.tells D.content D.fault_count D.moment D.images self.new)) (λ fault. StoreKept (stand_of D.tells D.content D.fault_count D.moment D.images self.old) (Queue_all take answered (map entry_of files.now)) (Refuses fault) (stand_of D.tells D.content D.fault_count D.moment D.images self.new)) }
    {
        // With the records of a batch the fold goes on, one step after another.
        more_records_fold_on();
        let Ok(plan) = plan_batch(alloc, take, answered, files, self.books.folded()) else {
            return Err(StoreFault::NoMemory);
        };
        let Plan {
            slots,
            fresh,
            payloads,
        } = plan;
        let batch = Batch {
            files: fresh,
            take,
            answered,
        };
        match self
            .books
            .append_batch(&mut self.disk, payloads.as_slice(), batch, self.seat)
        {
            Ok(()) => {
                unstage(files, &mut self.staged);
                self.takes.note(take);
                Ok(slots)
            }
            Err(AppendFault::NoMemory) => Err(StoreFault::NoMemory),
            Err(AppendFault::Full) => {
                self.fulls = self.fulls.saturating_add(1);
                Err(StoreFault::Full)
            }
            Err(AppendFault::Disk) => {
                self.broken = Some(self.disk.faults());
                Err(StoreFault::Disk)
            }
        }
    }
}

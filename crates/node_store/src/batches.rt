//! Records that are appended together.
ghost use Rattle.std.specs.Prelude.{◌≡◌, ◌+◌, ◌<◌, ◌≤◌, ◌⊎◌, ◌↔◌, ◌++◌, length, map, replicate, IfErr, IsErrOf, IsSome, OnErr, OnOk, vec_capacity, vec_len};
ghost use Rattle.disk_model.specs.Causes.{HasCause};
ghost use Rattle.disk_model.specs.Changes.{Every, Follows, Only};
ghost use Rattle.disk_model.specs.Moments.{Leaves, Now};
ghost use Rattle.ftn_addr.specs.Counts.{Increased};
ghost use Rattle.ledger_file.specs.declared.fault.AppendFault.TheVariants.{Disk};
ghost use Rattle.ledger_file.specs.Ledger.{LedgerIs, ledger_name};
ghost use Rattle.ledger_file.specs.Text.{ArePayloads, lists};
ghost use Rattle.ledger_rec.specs.Batch.{batch_records};
ghost use Rattle.ledger_rec.specs.Fold.{fold_all};
ghost use Rattle.ledger_rec.specs.Record.{new_file};
ghost use Rattle.ledger_rec.specs.Spelling.{AreRecords, spelling};
ghost use Rattle.node_store.specs.Books.{AreSame, IsBooks};
ghost use Rattle.node_store.specs.Planned.{Adds, AllStand, AllSynced, IsBatched};

use crate::books::Books;
use crate::recording::record_files;
use disk_model::Disk;
use ftn_addr::Bytes;
use ledger_file::AppendFault;
use ledger_rec::{Batch, fits_a_payload, more_records_fold_on};

// Puts a seat behind the others for each of so many records, where there is room.
fn note_all(seat: u32, count: usize, seats: &mut Vec<u32>)
    requires { vec_len seats.old + count ≤ vec_capacity seats.old }
    ensures items { seats.new.items ≡ seats.old.items ++ replicate count seat }
    ensures len { vec_len seats.new ≡ vec_len seats.old + count }
    ensures capacity { vec_capacity seats.old ≤ vec_capacity seats.new }
{
    for _ in 0..count {
        match seats.push(seat) {
            Ok(()) => (),
            Err(_) => unreachable!(),
        }
    }
}

impl Books {
    /// Makes the own files of a batch durable, and then its records in one change, for which it reserves places itself. The
    /// payloads spell the records, which keep the rules of the fold.
    ///
    /// Where it is refused nothing that is told changed.
    pub(crate) fn append_batch<D: Disk>(
        &mut self,
        disk: &mut D,
        payloads: &[Bytes],
        batch: Batch,
        seat: u32,
    ) -> Result<(), AppendFault>
        requires spells { lists payloads.now ≡ map spelling (batch_records batch) }
        requires records { AreRecords (batch_records batch) }
        requires follows { IsSome (fold_all self.old.folding.state (batch_records batch)) }
        requires stand { Every (D.files disk.old) (AllStand (map new_file batch.files.items)) }
        requires ready { Every (Now D.moment D.images disk.old) (LedgerIs self.old.payloads) }
        ensures batched { OnOk result (IsBatched (lists payloads.now) (batch_records batch) seat self.old self.new) }
        ensures books { IsBooks self.new }
        ensures same { OnErr result (AreSame self.old self.new) }
        ensures unreserved { OnErr result (self.new.reserved ≡ self.old.reserved) }
        ensures durable { OnOk result (Every (Now D.moment D.images disk.new) (LedgerIs self.new.payloads)) }
        ensures synced { OnOk result (Every (Now D.moment D.images disk.new) (AllSynced (D.files disk.old) (map new_file batch.files.items))) }
        ensures room { OnOk result (length self.old.payloads + self.old.reserved + length payloads.now ≤ 262144) }
        ensures full { IsErrOf result AppendFault.Full ↔ (262144 < length self.old.payloads + self.old.reserved + length payloads.now) }
        ensures stop { Leaves D.moment D.images (Adds (AllSynced (D.files disk.old) (map new_file batch.files.items)) self.old.payloads (lists payloads.now)) disk.old disk.new }
        ensures read { Follows (Only ledger_name) (D.files disk.old) (D.files disk.new) }
        ensures calm { OnOk result (D.fault_count disk.new ≡ D.fault_count disk.old) }
        ensures failed { IsErrOf result AppendFault.Disk → Increased (D.fault_count disk.old) (D.fault_count disk.new) }
        ensures untouched { IfErr result (λ fault. (fault ≡ Disk) ⊎ (disk.new ≡ disk.old)) }
    {
        // Each record is a payload, and the fold goes on with them as they stand.
        fits_a_payload();
        more_records_fold_on();
        let wanted = payloads.len().min(u32::MAX as usize) as u32;
        self.reserve(wanted)?;
        match record_files(disk, &mut self.ledger, batch.files.as_slice(), payloads) {
            Ok(()) => {
                self.folded.add_batch(batch);
                note_all(seat, payloads.len(), &mut self.seats);
                Ok(())
            }
            Err(_) => {
                self.release(wanted);
                Err(AppendFault::Disk)
            }
        }
    }
}

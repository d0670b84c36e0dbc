//! Appending to a ledger.
ghost use Rattle.std.specs.Prelude.{◌≡◌, ◌⊎◌, ◌+◌, ◌-◌, ◌<◌, ◌≤◌, ◌↔◌, max, [], ◌∷◌, ◌++◌, length, take, drop, OnOk, OnErr, IfErr, IsErrOf};
ghost use Rattle.disk_model.specs.Causes.{HasCause};
ghost use Rattle.disk_model.specs.Changes.{Every, Follows, Only};
ghost use Rattle.disk_model.specs.Moments.{Now, Leaves};
ghost use Rattle.ftn_addr.specs.Counts.{Increased};
ghost use Rattle.ledger_file.specs.Ledger.{ledger_name, LedgerIs, Appends};
ghost use Rattle.ledger_file.specs.Text.{IsPayload, ArePayloads, lists, records};
ghost use Rattle.ledger_file.specs.declared.fault.AppendFault.TheVariants.{Disk};

use crate::fault::AppendFault;
use crate::file_name::ledger_file_name;
use crate::ledger::Ledger;
use crate::publish::publish;
use crate::records::{Records, bytes_of};
use disk_model::Disk;
use ftn_addr::Bytes;

impl Ledger {
    /// Appends a payload of 1 to 1,400 bytes. It uses a reserved place where there is one.
    pub fn append<D: Disk>(&mut self, disk: &mut D, payload: &[u8]) -> Result<(), AppendFault>
        requires size { IsPayload payload.now }
        requires ready { Every (Now D.moment D.images disk.old) (LedgerIs self.old.payloads) }

        ensures appended { OnOk result (self.new.payloads ≡ self.old.payloads ++ payload.now ∷ []) }
        ensures places { OnOk result (self.new.reserved ≡ self.old.reserved - 1) }
        ensures same { OnErr result (self.new ≡ self.old) }

        ensures durable { OnOk result (Every (Now D.moment D.images disk.new) (LedgerIs self.new.payloads)) }
        ensures stop { Leaves D.moment D.images (Appends self.old.payloads (payload.now ∷ [])) disk.old disk.new }
        ensures read { Follows (Only ledger_name) (D.files disk.old) (D.files disk.new) }

        ensures disk { IsErrOf result AppendFault.Disk → Increased (D.fault_count disk.old) (D.fault_count disk.new) }
        ensures full { IsErrOf result AppendFault.Full ↔ (262144 < length self.old.payloads + max self.old.reserved 1) }
        ensures reserved { IfErr result (λ fault. 1 ≤ self.old.reserved → fault ≡ Disk) }
        ensures unchanged { IfErr result (λ fault. (fault ≡ Disk) ⊎ (disk.new ≡ disk.old)) }
        ensures faults { D.fault_count disk.old ≤ D.fault_count disk.new }
        ensures calm { OnOk result (D.fault_count disk.new ≡ D.fault_count disk.old) }
    {
        if self.is_full_for(1) {
            return Err(AppendFault::Full);
        }
        let count = self.records.count();
        self.records.make_room(payload.len() + 3, 1)?;
        self.records.push(payload);
        keep_behind(&mut self.records, &mut self.reserved, disk, count)?;
        Ok(())
    }

    /// Appends payloads of 1 to 1,400 bytes in one durable change. Each uses a reserved place where there
    /// is one.
    pub fn append_all<D: Disk>(
        &mut self,
        disk: &mut D,
        payloads: &[Bytes],
    ) -> Result<(), AppendFault>
        requires some { 0 < length payloads.now }
        requires sizes { ArePayloads (lists payloads.now) }
        requires ready { Every (Now D.moment D.images disk.old) (LedgerIs self.old.payloads) }

        // At Ok the ledger has them, and so has what a stop leaves. Where it is refused the ledger in memory
        // is as before.
        ensures appended { OnOk result (self.new.payloads ≡ self.old.payloads ++ lists payloads.now) }
        ensures places { OnOk result (self.new.reserved ≡ self.old.reserved - length payloads.now) }
        ensures same { OnErr result (self.new ≡ self.old) }
        ensures durable { OnOk result (Every (Now D.moment D.images disk.new) (LedgerIs self.new.payloads)) }

        // A stop at any moment of the call leaves all of them or none, and the other files as they were.
        ensures stop { Leaves D.moment D.images (Appends self.old.payloads (lists payloads.now)) disk.old disk.new }
        ensures read { Follows (Only ledger_name) (D.files disk.old) (D.files disk.new) }

        ensures disk { IsErrOf result AppendFault.Disk → Increased (D.fault_count disk.old) (D.fault_count disk.new) }
        ensures full { IsErrOf result AppendFault.Full ↔ (262144 < length self.old.payloads + max self.old.reserved (length payloads.now)) }
        ensures reserved { IfErr result (λ fault. length payloads.now ≤ self.old.reserved → fault ≡ Disk) }
        ensures unchanged { IfErr result (λ fault. (fault ≡ Disk) ⊎ (disk.new ≡ disk.old)) }
        ensures faults { D.fault_count disk.old ≤ D.fault_count disk.new }
        ensures calm { OnOk result (D.fault_count disk.new ≡ D.fault_count disk.old) }
    {
        if self.is_full_for(payloads.len()) {
            return Err(AppendFault::Full);
        }
        let count = self.records.count();
        self.records.make_room(bytes_of(payloads), payloads.len())?;
        self.records.push_all(payloads);
        keep_behind(&mut self.records, &mut self.reserved, disk, count)?;
        Ok(())
    }
}

// Makes the records behind the first `count` durable in one change. Each uses a reserved place where there
// is one. Where the disk fails they are dropped.
fn keep_behind<D: Disk>(
    held: &mut Records,
    reserved: &mut u32,
    disk: &mut D,
    count: usize,
) -> Result<(), AppendFault>
    requires some { count < length held.old.payloads }
    requires few { length held.old.payloads ≤ 262144 }
    requires ready { Every (Now D.moment D.images disk.old) (LedgerIs (take count held.old.payloads)) }
    ensures kept { OnOk result (held.new ≡ held.old) }
    ensures places { OnOk result (reserved.new ≡ reserved.old - (length held.old.payloads - count)) }
    ensures left { OnErr result (reserved.new ≡ reserved.old) }
    ensures dropped { OnErr result (held.new.payloads ≡ take count held.old.payloads) }
    ensures spare { OnErr result (held.old.spare + length (records (drop count held.old.payloads)) ≤ held.new.spare) }
    ensures slots { OnErr result (held.old.slots + (length held.old.payloads - count) ≤ held.new.slots) }
    ensures durable { OnOk result (Every (Now D.moment D.images disk.new) (LedgerIs held.old.payloads)) }
    ensures stop { Leaves D.moment D.images (Appends (take count held.old.payloads) (drop count held.old.payloads)) disk.old disk.new }
    ensures read { Follows (Only ledger_name) (D.files disk.old) (D.files disk.new) }
    ensures fault { IfErr result (λ fault. fault ≡ Disk) }
    ensures cause { HasCause (D.fault_count disk.old) (D.fault_count disk.new) result }
{
    let gate = held.place(count);
    let block = &held.file_bytes()[gate as usize + 1..];
    match publish(disk, &ledger_file_name(), gate, block) {
        Ok(()) => {
            *reserved = reserved.saturating_sub((held.count() - count) as u32);
            Ok(())
        }
        Err(_) => {
            held.truncate(count);
            Err(AppendFault::Disk)
        }
    }
}

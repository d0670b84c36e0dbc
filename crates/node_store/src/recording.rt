//! Records that use reserved places, alone or behind the file that they are of.
ghost use Rattle.std.specs.Prelude.{◌≡◌, ◌≢◌, ◌-◌, ◌≤◌, [], ◌∷◌, ◌++◌, length, map, OnOk, OnErr};
ghost use Rattle.disk_model.specs.Causes.{HasCause};
ghost use Rattle.disk_model.specs.Changes.{Every, Follows, Only, Same, Stands};
ghost use Rattle.disk_model.specs.Moments.{Leaves, Now};
ghost use Rattle.ledger_file.specs.Ledger.{Appends, LedgerIs, ledger_name};
ghost use Rattle.ledger_file.specs.Text.{ArePayloads, IsPayload, lists};
ghost use Rattle.ledger_rec.specs.Record.{new_file};
ghost use Rattle.node_store.specs.Planned.{Adds, AllStand, AllSynced};
ghost use Rattle.node_store.specs.Recording.{IsSynced, Records};

use crate::names::out_file;
use disk_model::{Disk, Name};
use ftn_addr::{Bytes, Failed};
use ledger_file::Ledger;
use ledger_rec::NewFileRec;

/// Makes an own file durable, and then the record of it, which uses a reserved place. A stop within it leaves no record of a
/// file that isn't durable.
pub(crate) fn record_file<D: Disk>(
    disk: &mut D,
    ledger: &mut Ledger,
    name: &Name,
    payload: &[u8],
) -> Result<(), Failed>
    requires size { IsPayload payload.now }
    requires place { 1 ≤ ledger.old.reserved }
    requires own { name.now ≢ ledger_name }
    requires stands { Every (D.files disk.old) (Stands name.now 0) }
    requires ready { Every (Now D.moment D.images disk.old) (LedgerIs ledger.old.payloads) }
    ensures appended { OnOk result (ledger.new.payloads ≡ ledger.old.payloads ++ payload.now ∷ []) }
    ensures places { OnOk result (ledger.new.reserved ≡ ledger.old.reserved - 1) }
    ensures same { OnErr result (ledger.new ≡ ledger.old) }
    ensures durable { OnOk result (Every (Now D.moment D.images disk.new) (LedgerIs ledger.new.payloads)) }
    ensures synced { OnOk result (Every (Now D.moment D.images disk.new) (IsSynced (D.files disk.old) name.now)) }
    ensures stop { Leaves D.moment D.images (Records (D.files disk.old) name.now ledger.old.payloads (payload.now ∷ [])) disk.old disk.new }
    ensures read { Follows (Only ledger_name) (D.files disk.old) (D.files disk.new) }
    ensures cause { HasCause (D.fault_count disk.old) (D.fault_count disk.new) result }
{
    disk.sync(name)?;
    match ledger.append(disk, payload) {
        Ok(()) => Ok(()),
        Err(_) => Err(Failed),
    }
}

/// Appends a record, which uses a reserved place and takes no memory.
pub(crate) fn append<D: Disk>(
    disk: &mut D,
    ledger: &mut Ledger,
    payload: &[u8],
) -> Result<(), Failed>
    requires size { IsPayload payload.now }
    requires place { 1 ≤ ledger.old.reserved }
    requires ready { Every (Now D.moment D.images disk.old) (LedgerIs ledger.old.payloads) }
    ensures appended { OnOk result (ledger.new.payloads ≡ ledger.old.payloads ++ payload.now ∷ []) }
    ensures places { OnOk result (ledger.new.reserved ≡ ledger.old.reserved - 1) }
    ensures same { OnErr result (ledger.new ≡ ledger.old) }
    ensures durable { OnOk result (Every (Now D.moment D.images disk.new) (LedgerIs ledger.new.payloads)) }
    ensures stop { Leaves D.moment D.images (Appends ledger.old.payloads (payload.now ∷ [])) disk.old disk.new }
    ensures read { Follows (Only ledger_name) (D.files disk.old) (D.files disk.new) }
    ensures cause { HasCause (D.fault_count disk.old) (D.fault_count disk.new) result }
{
    match ledger.append(disk, payload) {
        Ok(()) => Ok(()),
        Err(_) => Err(Failed),
    }
}

/// Makes files that are to be queued durable.
pub(crate) fn sync_all<D: Disk>(disk: &mut D, files: &[NewFileRec]) -> Result<(), Failed>
    requires stand { Every (D.files disk.old) (AllStand (map new_file files.now)) }
    ensures synced { OnOk result (Every (Now D.moment D.images disk.new) (AllSynced (D.files disk.old) (map new_file files.now))) }
    ensures stop { Leaves D.moment D.images Same disk.old disk.new }
    ensures read { Every (D.files disk.new) (D.files disk.old) }
    ensures cause { HasCause (D.fault_count disk.old) (D.fault_count disk.new) result }
{
    for file in files {
        disk.sync(&out_file(file.number))?;
    }
    Ok(())
}

/// Appends some records, which use reserved places, in one durable change.
pub(crate) fn append_all<D: Disk>(
    disk: &mut D,
    ledger: &mut Ledger,
    payloads: &[Bytes],
) -> Result<(), Failed>
    requires sizes { ArePayloads (lists payloads.now) }
    requires places { length payloads.now ≤ ledger.old.reserved }
    requires ready { Every (Now D.moment D.images disk.old) (LedgerIs ledger.old.payloads) }
    ensures appended { OnOk result (ledger.new.payloads ≡ ledger.old.payloads ++ lists payloads.now) }
    ensures places { OnOk result (ledger.new.reserved ≡ ledger.old.reserved - length payloads.now) }
    ensures same { OnErr result (ledger.new ≡ ledger.old) }
    ensures durable { OnOk result (Every (Now D.moment D.images disk.new) (LedgerIs ledger.new.payloads)) }
    ensures stop { Leaves D.moment D.images (Appends ledger.old.payloads (lists payloads.now)) disk.old disk.new }
    ensures read { Follows (Only ledger_name) (D.files disk.old) (D.files disk.new) }
    ensures cause { HasCause (D.fault_count disk.old) (D.fault_count disk.new) result }
{
    if payloads.is_empty() {
        return Ok(());
    }
    match ledger.append_all(disk, payloads) {
        Ok(()) => Ok(()),
        Err(_) => Err(Failed),
    }
}

/// Makes files durable, and then their records in one change, which use reserved places. A stop within it leaves no record of
/// a file that isn't durable.
pub(crate) fn record_files<D: Disk>(
    disk: &mut D,
    ledger: &mut Ledger,
    files: &[NewFileRec],
    payloads: &[Bytes],
) -> Result<(), Failed>
    requires sizes { ArePayloads (lists payloads.now) }
    requires places { length payloads.now ≤ ledger.old.reserved }
    requires stand { Every (D.files disk.old) (AllStand (map new_file files.now)) }
    requires ready { Every (Now D.moment D.images disk.old) (LedgerIs ledger.old.payloads) }
    ensures appended { OnOk result (ledger.new.payloads ≡ ledger.old.payloads ++ lists payloads.now) }
    ensures places { OnOk result (ledger.new.reserved ≡ ledger.old.reserved - length payloads.now) }
    ensures same { OnErr result (ledger.new ≡ ledger.old) }
    ensures durable { OnOk result (Every (Now D.moment D.images disk.new) (LedgerIs ledger.new.payloads)) }
    ensures synced { OnOk result (Every (Now D.moment D.images disk.new) (AllSynced (D.files disk.old) (map new_file files.now))) }
    ensures stop { Leaves D.moment D.images (Adds (AllSynced (D.files disk.old) (map new_file files.now)) ledger.old.payloads (lists payloads.now)) disk.old disk.new }
    ensures read { Follows (Only ledger_name) (D.files disk.old) (D.files disk.new) }
    ensures cause { HasCause (D.fault_count disk.old) (D.fault_count disk.new) result }
{
    sync_all(disk, files)?;
    append_all(disk, ledger, payloads)
}

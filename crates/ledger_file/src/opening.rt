//! Opening a ledger.
ghost use Rattle.std.specs.Prelude.{◌≡◌, ◌⊎◌, ◌≤◌, List, ℕ, [], length, option_map, Some, Err, IfOk, IfErr, OnOk, IsErrOf};
ghost use Rattle.disk_model.specs.Changes.{Every, Follows, Same, Stands, IsFree};
ghost use Rattle.disk_model.specs.Moments.{Now, Leaves};
ghost use Rattle.disk_model.specs.World.{World};
ghost use Rattle.ftn_addr.specs.Counts.{Increased};
ghost use Rattle.ledger_file.specs.Ledger.{ledger_name, LedgerIs, Makes};
ghost use Rattle.ledger_file.specs.Reading.{Reads, Refuses};
ghost use Rattle.ledger_file.specs.declared.fault.OpenFault.TheVariants.{Disk, NoMemory};

use crate::fault::OpenFault;
use crate::file_name::{ledger_file_name, new_file_name};
use crate::ledger::Ledger;
use crate::read::read_ledger;
use crate::records::Records;
use crate::whole_file::put_file;
use disk_model::Disk;
use std::alloc::Global;

impl Ledger {
    /// Opens the ledger of a disk. Where there is none a new one is made, without payloads. One that stands
    /// is read, and made durable as it was read.
    pub fn open<D: Disk>(alloc: Global, disk: &mut D) -> Result<Ledger, OpenFault>
        // It has the payloads that the file spells, and no place reserved, and a stop leaves them.
        ensures found { IfOk result (λ ledger. Every (D.files disk.new) (LedgerIs ledger.payloads)) }
        ensures none { IfOk result (λ ledger. Every (D.files disk.old) (λ w. IsFree ledger_name w → ledger.payloads ≡ [])) }
        ensures places { IfOk result (λ ledger. ledger.reserved ≡ 0) }
        ensures durable { IfOk result (λ ledger. Every (Now D.moment D.images disk.new) (LedgerIs ledger.payloads)) }

        // A fault is that of the bytes of a file that stands.
        ensures fault { IfErr result (λ fault. (fault ≡ Disk) ⊎ ((fault ≡ NoMemory) ⊎ Every (D.files disk.new) (Refuses fault))) }
        ensures stood { IfErr result (λ fault. (fault ≡ Disk) ⊎ ((fault ≡ NoMemory) ⊎ Every (D.files disk.old) (Stands ledger_name 0))) }
        ensures disk { IsErrOf result OpenFault.Disk → Increased (D.fault_count disk.old) (D.fault_count disk.new) }
        ensures faults { D.fault_count disk.old ≤ D.fault_count disk.new }
        ensures calm { OnOk result (D.fault_count disk.new ≡ D.fault_count disk.old) }

        // A stop leaves all as it was, but that a new ledger may have been made, wholly or not at all. Where
        // a ledger stands nothing changes.
        ensures stop { Leaves D.moment D.images Makes disk.old disk.new }
        ensures read { Follows Makes (D.files disk.old) (D.files disk.new) }
        ensures stands { (w : World) → D.files disk.old w → Stands ledger_name 0 w → Leaves D.moment D.images Same disk.old disk.new × Every (D.files disk.new) (D.files disk.old) }
    {
        let stood = match disk.stat(&ledger_file_name()) {
            Ok(stood) => stood,
            Err(_) => return Err(OpenFault::Disk),
        };
        match stood {
            None => match make_new(alloc, disk) {
                Ok(records) => Ok(with_no_place(records)),
                Err(fault) => Err(fault),
            },
            Some(len) => match read_standing(alloc, disk, len) {
                Ok(records) => Ok(with_no_place(records)),
                Err(fault) => Err(fault),
            },
        }
    }
}

fn with_no_place(records: Records) -> Ledger
    requires { length records.payloads ≤ 262144 }
    ensures payloads { result.payloads ≡ records.payloads }
    ensures places { result.reserved ≡ 0 }
{
    Ledger {
        records,
        reserved: 0,
    }
}

// A new ledger, which replaces what stands under its name.
fn make_new<D: Disk>(alloc: Global, disk: &mut D) -> Result<Records, OpenFault>
    ensures none { IfOk result (λ held. held.payloads ≡ []) }
    ensures durable { IfOk result (λ held. Every (Now D.moment D.images disk.new) (LedgerIs held.payloads)) }
    ensures fault { IfErr result (λ fault. (fault ≡ Disk) ⊎ (fault ≡ NoMemory)) }
    ensures disk { IsErrOf result OpenFault.Disk → Increased (D.fault_count disk.old) (D.fault_count disk.new) }
    ensures faults { D.fault_count disk.old ≤ D.fault_count disk.new }
    ensures calm { OnOk result (D.fault_count disk.new ≡ D.fault_count disk.old) }
    ensures stop { Leaves D.moment D.images Makes disk.old disk.new }
    ensures read { Follows Makes (D.files disk.old) (D.files disk.new) }
{
    let held = Records::new(alloc)?;
    let new = new_file_name();
    put_file(disk, &new, held.file_bytes())?;
    disk.rename(&new, &ledger_file_name())?;
    Ok(held)
}

// The ledger that stands, in a file of so many bytes.
fn read_standing<D: Disk>(alloc: Global, disk: &mut D, len: u64) -> Result<Records, OpenFault>
    requires { Every (D.files disk.old) (λ w. Some len ≡ option_map length (w.own ledger_name)) }
    ensures list { IfOk result (λ held. Every (D.files disk.old) (LedgerIs held.payloads)) }
    ensures few { IfOk result (λ held. length held.payloads ≤ 262144) }
    ensures durable { IfOk result (λ held. Every (Now D.moment D.images disk.new) (LedgerIs held.payloads)) }
    ensures fault { IfErr result (λ fault. (fault ≡ Disk) ⊎ ((fault ≡ NoMemory) ⊎ Every (D.files disk.old) (Refuses fault))) }
    ensures disk { IsErrOf result OpenFault.Disk → Increased (D.fault_count disk.old) (D.fault_count disk.new) }
    ensures faults { D.fault_count disk.old ≤ D.fault_count disk.new }
    ensures calm { OnOk result (D.fault_count disk.new ≡ D.fault_count disk.old) }
    ensures stop { Leaves D.moment D.images Same disk.old disk.new }
    ensures read { Every (D.files disk.new) (D.files disk.old) }
{
    let name = ledger_file_name();
    let mut bytes = vec![in alloc; 0; len as usize]?;
    disk.read_at(&name, 0, &mut bytes)?;
    // What was read may not be on the disk yet.
    disk.sync(&name)?;
    match read_ledger(alloc, &bytes) {
        Ok(held) => Ok(held),
        Err(fault) => Err(fault),
    }
}

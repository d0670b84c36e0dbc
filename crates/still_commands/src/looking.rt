//! `lookup ADDR`.
ghost use Rattle.std.specs.Prelude.{◌≡◌, List, Ok, true, ℕ};
ghost use Rattle.disk_model.specs.Changes.{Every};
ghost use Rattle.disk_model.specs.Moments.{Now};
ghost use Rattle.ftn_addr.specs.Address.{address};
ghost use Rattle.ftn_addr.specs.Reading.{reading};
ghost use Rattle.mail_conf.specs.ConfView.{conf_text};
ghost use Rattle.mail_conf.specs.Limits.{KeepsLimits};
ghost use Rattle.node_store.specs.Opening.{IsReady};
ghost use Rattle.nodelist_files.specs.Files.{index_name};
ghost use Rattle.nodelist_files.specs.IndexFile.{index_at};
ghost use Rattle.session_core.specs.Stages.{home_of};
ghost use Rattle.command_base.specs.Causes.{IsBadIndex};
ghost use Rattle.command_base.specs.Settings.{HasSettings};
ghost use Rattle.command_words.specs.Forms.{Lookup};
ghost use Rattle.still_commands.specs.Came.{IsTold, looked, told_of};
ghost use Rattle.still_commands.specs.Still.{Over_still};

use crate::came::{Came, only, unopened, unset};
use command_base::{Status, read_settings, status_unindexed};
use disk_model::{Disk, Yard};
use ftn_addr::{Addr, AddrFault, Bytes, NoMemory, read_addr};
use mail_conf::{Conf, what_is_read_keeps_limits};
use node_store::NodeStore;
use nodelist_files::{IndexFileFault, read_index};
use nodelist_find::Index;
use session_core::home_of;
use std::alloc::Global;
use still_lines::lookup_line;

// What an index says of an address.
fn look(alloc: Global, index: Option<Index>, addr: &Addr) -> Came
    ensures { IsTold (looked index (address addr.now)) (told_of result) }
{
    let Some(index) = index else {
        return only(alloc, Status::NoFile);
    };
    match lookup_line(alloc, &index, addr) {
        Ok(Some(lines)) => Came {
            lines,
            status: Status::Done,
        },
        Ok(None) => only(alloc, Status::NotFound),
        Err(NoMemory) => only(alloc, Status::NoMemory),
    }
}

// Opens the store of a disk whose index was read, and looks the address up.
fn look_opened<D: Yard>(
    alloc: Global,
    conf: &Conf,
    index: Option<Index>,
    addr: &Addr,
    disk: D,
) -> (Came, D)
    requires settings { HasSettings D.tells D.content D.fault_count D.moment D.images disk (conf_text conf.now) }
    requires keeps { KeepsLimits (conf_text conf.now) }
    requires ready { D.tells ≡ true → Every (Now D.moment D.images disk) (IsReady (D.content disk)) }
    requires index { D.tells ≡ true → index_at ((D.content disk).own index_name) ≡ Ok index }
    ensures { (text : List ℕ) → reading text (home_of (conf_text conf.now).addresses) ≡ Ok (address addr.now) → Over_still D.files D.tells D.content D.fault_count D.moment D.images (Lookup text) disk (told_of result.0) result.1 }
{
    match NodeStore::open(alloc, disk, home_of(conf)) {
        Ok((store, _recovery)) => (look(alloc, index, addr), store.into_disk()),
        Err((disk, fault)) => unopened(alloc, fault, disk),
    }
}

// Opens the store of a disk whose index is bad. That is told where the store is opened.
fn refuse_opened<D: Yard>(alloc: Global, conf: &Conf, addr: &Addr, disk: D) -> (Came, D)
    requires settings { HasSettings D.tells D.content D.fault_count D.moment D.images disk (conf_text conf.now) }
    requires keeps { KeepsLimits (conf_text conf.now) }
    requires ready { D.tells ≡ true → Every (Now D.moment D.images disk) (IsReady (D.content disk)) }
    requires bad { D.tells ≡ true → IsBadIndex (D.content disk) }
    ensures { (text : List ℕ) → reading text (home_of (conf_text conf.now).addresses) ≡ Ok (address addr.now) → Over_still D.files D.tells D.content D.fault_count D.moment D.images (Lookup text) disk (told_of result.0) result.1 }
{
    match NodeStore::open(alloc, disk, home_of(conf)) {
        Ok((store, _recovery)) => (
            only(alloc, status_unindexed(IndexFileFault::Bad, 0)),
            store.into_disk(),
        ),
        Err((disk, fault)) => unopened(alloc, fault, disk),
    }
}

// Reads the index, and looks the address up by it once the store is opened.
fn look_in_index<D: Yard>(alloc: Global, conf: &Conf, addr: &Addr, disk: D) -> (Came, D)
    requires settings { HasSettings D.tells D.content D.fault_count D.moment D.images disk (conf_text conf.now) }
    requires keeps { KeepsLimits (conf_text conf.now) }
    requires ready { D.tells ≡ true → Every (Now D.moment D.images disk) (IsReady (D.content disk)) }
    ensures { (text : List ℕ) → reading text (home_of (conf_text conf.now).addresses) ≡ Ok (address addr.now) → Over_still D.files D.tells D.content D.fault_count D.moment D.images (Lookup text) disk (told_of result.0) result.1 }
{
    let mut disk = disk;
    match read_index(alloc, &mut disk) {
        Ok(index) => look_opened(alloc, conf, index, addr, disk),
        Err(IndexFileFault::Bad) => refuse_opened(alloc, conf, addr, disk),
        Err(IndexFileFault::Disk) => {
            let faults = disk.faults();
            (only(alloc, Status::DiskFault(faults)), disk)
        }
        Err(IndexFileFault::NoMemory) => (only(alloc, Status::NoMemory), disk),
    }
}

// The same of what the settings make of a text.
fn look_by<D: Yard>(alloc: Global, text: &Bytes, conf: &Conf, disk: D) -> (Came, D)
    requires settings { HasSettings D.tells D.content D.fault_count D.moment D.images disk (conf_text conf.now) }
    requires keeps { KeepsLimits (conf_text conf.now) }
    requires ready { D.tells ≡ true → Every (Now D.moment D.images disk) (IsReady (D.content disk)) }
    ensures { Over_still D.files D.tells D.content D.fault_count D.moment D.images (Lookup text.now.list) disk (told_of result.0) result.1 }
{
    match read_addr(alloc, text.as_slice(), home_of(conf)) {
        Ok(addr) => look_in_index(alloc, conf, &addr, disk),
        Err(AddrFault::NoMemory) => (only(alloc, Status::NoMemory), disk),
        Err(_) => (only(alloc, Status::Usage), disk),
    }
}

/// Looks the node of an address up in the index of the disk.
pub(crate) fn look_up<D: Yard>(alloc: Global, text: &Bytes, disk: D) -> (Came, D)
    requires ready { D.tells ≡ true → Every (Now D.moment D.images disk) (IsReady (D.content disk)) }
    ensures { Over_still D.files D.tells D.content D.fault_count D.moment D.images (Lookup text.now.list) disk (told_of result.0) result.1 }
{
    let mut disk = disk;
    match read_settings(alloc, &mut disk) {
        Ok(conf) => {
            what_is_read_keeps_limits();
            look_by(alloc, text, &conf, disk)
        }
        Err(fault) => unset(alloc, fault, disk),
    }
}

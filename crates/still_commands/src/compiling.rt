//! `compile FILE`.
ghost use Rattle.std.specs.Prelude.{◌≡◌, Ok, Result, true, ℕ};
ghost use Rattle.disk_model.specs.Changes.{Every};
ghost use Rattle.disk_model.specs.Moments.{Now};
ghost use Rattle.mail_conf.specs.ConfView.{conf_text};
ghost use Rattle.mail_conf.specs.Limits.{KeepsLimits};
ghost use Rattle.node_store.specs.Opening.{IsReady};
ghost use Rattle.command_base.specs.Settings.{HasSettings};
ghost use Rattle.command_words.specs.Forms.{Compile};
ghost use Rattle.still_commands.specs.Came.{IsTold, told_compiled, told_of};
ghost use Rattle.still_commands.specs.Still.{CompilesFile, Over_still};
ghost use Rattle.nodelist_files.specs.declared.fault.CompileFault.{CompileFault};

use crate::came::{Came, only, unopened, unset};
use command_base::{Status, read_settings, status_uncompiled};
use disk_model::{Disk, Yard};
use ftn_addr::{Bytes, NoMemory};
use mail_conf::{Conf, what_is_read_keeps_limits};
use node_store::NodeStore;
use nodelist_files::compile_list;
use session_core::home_of;
use std::alloc::Global;
use still_lines::nodes_line;

// So many nodes were compiled.
fn compiled(alloc: Global, count: u32) -> Came
    ensures { IsTold (told_compiled (Ok count) 0) (told_of result) }
{
    match nodes_line(alloc, count) {
        Ok(lines) => Came {
            lines,
            status: Status::Done,
        },
        Err(NoMemory) => only(alloc, Status::NoMemory),
    }
}

// Compiles the file over the disk of a store that was opened.
fn compile_opened<D: Yard>(alloc: Global, path: &Bytes, disk: D) -> (Came, D)
    ensures { (found : Result ℕ CompileFault) × CompilesFile D.files D.fault_count D.moment D.images path.now.list found disk result.1 × IsTold (told_compiled found (D.fault_count result.1)) (told_of result.0) }
{
    let mut disk = disk;
    match compile_list(alloc, &mut disk, path) {
        Ok(count) => (compiled(alloc, count), disk),
        Err(fault) => {
            let faults = disk.faults();
            (only(alloc, status_uncompiled(fault, faults)), disk)
        }
    }
}

// The same by the settings of the disk.
fn compile_by<D: Yard>(alloc: Global, path: &Bytes, conf: &Conf, disk: D) -> (Came, D)
    requires settings { HasSettings D.tells D.content D.fault_count D.moment D.images disk (conf_text conf.now) }
    requires keeps { KeepsLimits (conf_text conf.now) }
    requires ready { D.tells ≡ true → Every (Now D.moment D.images disk) (IsReady (D.content disk)) }
    ensures { Over_still D.files D.tells D.content D.fault_count D.moment D.images (Compile path.now.list) disk (told_of result.0) result.1 }
{
    match NodeStore::open(alloc, disk, home_of(conf)) {
        Ok((store, _recovery)) => compile_opened(alloc, path, store.into_disk()),
        Err((disk, fault)) => unopened(alloc, fault, disk),
    }
}

/// Compiles the file of that path into the own folder of the disk.
pub(crate) fn compile_file<D: Yard>(alloc: Global, path: &Bytes, disk: D) -> (Came, D)
    requires ready { D.tells ≡ true → Every (Now D.moment D.images disk) (IsReady (D.content disk)) }
    ensures { Over_still D.files D.tells D.content D.fault_count D.moment D.images (Compile path.now.list) disk (told_of result.0) result.1 }
{
    let mut disk = disk;
    match read_settings(alloc, &mut disk) {
        Ok(conf) => {
            what_is_read_keeps_limits();
            compile_by(alloc, path, &conf, disk)
        }
        Err(fault) => unset(alloc, fault, disk),
    }
}

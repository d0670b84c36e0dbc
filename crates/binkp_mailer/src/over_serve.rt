//! `serve` over a disk.
ghost use Rattle.std.specs.Prelude.{◌≡◌, None, true};
ghost use Rattle.ftn_addr.specs.Address.{address};
ghost use Rattle.disk_model.specs.Changes.{Every};
ghost use Rattle.disk_model.specs.Moments.{Now};
ghost use Rattle.binkp_link.specs.Lines.{SinkState};
ghost use Rattle.binkp_link.specs.LineSources.{LinesState};
ghost use Rattle.binkp_serve.specs.Rests.{IsAtRest, rest_of};
ghost use Rattle.binkp_serve.specs.Serving.{AreBack};
ghost use Rattle.mail_conf.specs.ConfView.{conf_text};
ghost use Rattle.mail_conf.specs.Limits.{KeepsLimits};
ghost use Rattle.node_store.specs.Opening.{IsReady};
ghost use Rattle.command_base.specs.Causes.{DiskCause, IsBadIndex};
ghost use Rattle.command_base.specs.Settings.{HasSettings};
ghost use Rattle.command_base.specs.Statuses.{status_text};
ghost use Rattle.binkp_mailer.specs.DiskCall.{KeepsReceipts, ReadsIndex};
ghost use Rattle.binkp_mailer.specs.ServeCall.{Over_serve, ServeCall, ServesAt, status_served, status_told};

use crate::with_outbound::desk_over;
use binkp_link::{Clock, Dice, Lines, Sink};
use binkp_serve::{ServeEnd, Served, serve};
use command_base::{
    Status, print_lines, read_settings, status_unindexed, status_unopened, status_unset,
};
use disk_model::{Disk, Yard};
use ftn_addr::{Bytes, Failed};
use mail_conf::{Conf, what_is_read_keeps_limits};
use node_store::NodeStore;
use nodelist_files::{IndexFileFault, read_index};
use nodelist_find::Index;
use outbound_desk::LineDesk;
use outbound_store::TakingStore;
use session_core::home_of;
use std::alloc::Global;
use std::sync::Wait;

// The status of a node that served, by its end.
fn status_of(served: Served) -> Status
    ensures { status_text result ≡ status_served served.end served.short }
{
    match served.end {
        ServeEnd::Disk(count) => Status::DiskFault(count),
        ServeEnd::Lines => Status::LineFault,
        ServeEnd::Stop | ServeEnd::Count => {
            if served.short {
                Status::NoMemory
            } else {
                Status::Done
            }
        }
    }
}

// The same, where the sink counted so many faults before it and behind it.
fn status_behind(before: u64, behind: u64, status: Status) -> Status
    ensures { status_text result ≡ status_told before behind (status_text status) }
{
    if before == behind {
        status
    } else {
        Status::OutFault
    }
}

// The disk of a desk.
fn disk_of<D: Yard>(desk: LineDesk<TakingStore<D>>) -> D
    ensures { result ≡ desk.desk.hub.store.store.disk }
{
    desk.desk.hub.into_store().into_store().into_disk()
}

// Listens on the port of the settings, and serves.
fn serve_at<W: Wait, D: Yard, N: Lines, C: Clock, R: Dice, O: Sink>(
    rt: &W,
    alloc: Global,
    conf: &Conf,
    index: &Option<Index>,
    desk: &mut LineDesk<TakingStore<D>>,
    lines: &mut N,
    clock: &mut C,
    dice: &mut R,
    out: &mut O,
) -> Status
    requires keeps { KeepsLimits (conf_text conf.now) }
    requires at_rest { IsAtRest D.tells D.content D.fault_count D.moment D.images (address desk.old.outbound.home) (rest_of desk.old.desk.hub.store.store desk.old.desk.hub.seats desk.old.desk.seat) }
    requires whole { desk.old.desk.hub.store.store.memory.broken ≡ None }
    requires fresh { AreBack 0 (N.state lines.old) }
    ensures { ServesAt D.tells D.content D.fault_count D.moment D.images (conf_text conf.now) index.now (rest_of desk.old.desk.hub.store.store desk.old.desk.hub.seats desk.old.desk.seat) (N.state lines.old) (O.state out.old) (status_text result) (rest_of desk.new.desk.hub.store.store desk.new.desk.hub.seats desk.new.desk.seat) (N.state lines.new) (O.state out.new) }
{
    match lines.listen(conf.port) {
        Ok(()) => {
            let before = out.faults();
            let served = serve(rt, alloc, conf, index, desk, lines, clock, dice, out);
            status_behind(before, out.faults(), status_of(served))
        }
        Err(Failed) => Status::LineFault,
    }
}

// Opens the store of the disk, and serves over it by this index.
fn serve_by<W: Wait, D: Yard, N: Lines, C: Clock, R: Dice, O: Sink>(
    rt: &W,
    alloc: Global,
    conf: &Conf,
    index: &Option<Index>,
    disk: D,
    lines: &mut N,
    clock: &mut C,
    dice: &mut R,
    out: &mut O,
) -> (Status, D)
    requires settings { HasSettings D.tells D.content D.fault_count D.moment D.images disk (conf_text conf.now) }
    requires keeps { KeepsLimits (conf_text conf.now) }
    requires index { ReadsIndex D.tells D.content D.fault_count D.moment D.images disk index.now }
    requires ready { D.tells ≡ true → Every (Now D.moment D.images disk) (IsReady (D.content disk)) }
    requires fresh { AreBack 0 (N.state lines.old) }
    ensures { Over_serve D.tells D.content D.fault_count D.moment D.images (N.state lines.old) disk (O.state out.old) (status_text result.0) (N.state lines.new) result.1 (O.state out.new) }
{
    let store = match NodeStore::open(alloc, disk, home_of(conf)) {
        Ok((store, _recovery)) => store,
        Err((disk, fault)) => {
            let faults = disk.faults();
            return (status_unopened(fault, faults), disk);
        }
    };
    store.opens_as_told();
    store.opens_soundly();
    match desk_over(alloc, conf, store) {
        Ok(desk) => {
            let mut desk = desk;
            let status = serve_at(rt, alloc, conf, index, &mut desk, lines, clock, dice, out);
            (status, disk_of(desk))
        }
        Err(store) => (Status::NoMemory, store.into_disk()),
    }
}

// Opens the store of a disk whose index is bad. That is told where the store is opened.
fn refuse_index<D: Yard>(alloc: Global, conf: &Conf, disk: D) -> (Status, D)
    requires settings { HasSettings D.tells D.content D.fault_count D.moment D.images disk (conf_text conf.now) }
    requires keeps { KeepsLimits (conf_text conf.now) }
    requires bad { D.tells ≡ true → IsBadIndex (D.content disk) }
    requires ready { D.tells ≡ true → Every (Now D.moment D.images disk) (IsReady (D.content disk)) }
    ensures { (lines : LinesState) (out : SinkState) → Over_serve D.tells D.content D.fault_count D.moment D.images lines disk out (status_text result.0) lines result.1 out }
{
    match NodeStore::open(alloc, disk, home_of(conf)) {
        Ok((store, _recovery)) => (status_unindexed(IndexFileFault::Bad, 0), store.into_disk()),
        Err((disk, fault)) => {
            let faults = disk.faults();
            (status_unopened(fault, faults), disk)
        }
    }
}

// Reads the index of the disk, and serves.
fn serve_set<W: Wait, D: Yard, N: Lines, C: Clock, R: Dice, O: Sink>(
    rt: &W,
    alloc: Global,
    conf: &Conf,
    disk: D,
    lines: &mut N,
    clock: &mut C,
    dice: &mut R,
    out: &mut O,
) -> (Status, D)
    requires settings { HasSettings D.tells D.content D.fault_count D.moment D.images disk (conf_text conf.now) }
    requires keeps { KeepsLimits (conf_text conf.now) }
    requires ready { D.tells ≡ true → Every (Now D.moment D.images disk) (IsReady (D.content disk)) }
    requires fresh { AreBack 0 (N.state lines.old) }
    ensures { Over_serve D.tells D.content D.fault_count D.moment D.images (N.state lines.old) disk (O.state out.old) (status_text result.0) (N.state lines.new) result.1 (O.state out.new) }
{
    let mut disk = disk;
    match read_index(alloc, &mut disk) {
        Ok(index) => serve_by(rt, alloc, conf, &index, disk, lines, clock, dice, out),
        Err(IndexFileFault::Bad) => refuse_index(alloc, conf, disk),
        Err(IndexFileFault::Disk) => {
            let faults = disk.faults();
            (Status::DiskFault(faults), disk)
        }
        Err(IndexFileFault::NoMemory) => (Status::NoMemory, disk),
    }
}

// Serves, before anything is printed of the status.
fn serve_disk<W: Wait, D: Yard, N: Lines, C: Clock, R: Dice, O: Sink>(
    rt: &W,
    alloc: Global,
    disk: D,
    lines: &mut N,
    clock: &mut C,
    dice: &mut R,
    out: &mut O,
) -> (Status, D)
    requires ready { D.tells ≡ true → Every (Now D.moment D.images disk) (IsReady (D.content disk)) }
    requires fresh { AreBack 0 (N.state lines.old) }
    ensures { Over_serve D.tells D.content D.fault_count D.moment D.images (N.state lines.old) disk (O.state out.old) (status_text result.0) (N.state lines.new) result.1 (O.state out.new) }
{
    let mut disk = disk;
    match read_settings(alloc, &mut disk) {
        Ok(conf) => {
            what_is_read_keeps_limits();
            serve_set(rt, alloc, &conf, disk, lines, clock, dice, out)
        }
        Err(fault) => {
            let faults = disk.faults();
            (status_unset(fault, faults), disk)
        }
    }
}

/// Reads the settings of a disk and its index, opens its store, listens on the port of the settings and serves until it is told to stop,
/// prints what came of it, and gives the disk back. What is received stays received, at each moment.
pub fn run_serve<W: Wait, D: Yard, N: Lines, C: Clock, R: Dice, O: Sink>(
    rt: &W,
    alloc: Global,
    disk: D,
    lines: &mut N,
    clock: &mut C,
    dice: &mut R,
    out: &mut O,
) -> (Status, D)
    requires ready { D.tells ≡ true → Every (Now D.moment D.images disk) (IsReady (D.content disk)) }
    requires fresh { AreBack 0 (N.state lines.old) }
    ensures call { ServeCall D.tells D.content D.fault_count D.moment D.images (N.state lines.old) disk (O.state out.old) (status_text result.0) (N.state lines.new) result.1 (O.state out.new) }
    ensures cause { DiskCause D.tells D.content D.fault_count (status_text result.0) disk result.1 }
    ensures stays { D.tells ≡ true → KeepsReceipts D.content D.moment D.images disk result.1 }
{
    let (status, disk) = serve_disk(rt, alloc, disk, lines, clock, dice, out);
    (print_lines(alloc, Ok(Bytes::new(alloc)), status, out), disk)
}

//! A node that is called: where it is reached, and the call over the disk.
ghost use Rattle.std.specs.Prelude.{◌≡◌, List, None, true, ℕ};
ghost use Rattle.ftn_addr.specs.Address.{address};
ghost use Rattle.disk_model.specs.Changes.{Every};
ghost use Rattle.disk_model.specs.Moments.{Now};
ghost use Rattle.binkp_link.specs.LineSources.{LinesState};
ghost use Rattle.mail_conf.specs.ConfView.{conf_text};
ghost use Rattle.mail_conf.specs.Limits.{KeepsLimits};
ghost use Rattle.node_store.specs.Opening.{IsReady};
ghost use Rattle.session_auth.specs.Sides.{Calls};
ghost use Rattle.session_core.specs.Stages.{home_of};
ghost use Rattle.call_hosts.specs.Hosts.{host_text, listed_host, set_host};
ghost use Rattle.command_base.specs.Causes.{IsBadIndex};
ghost use Rattle.command_base.specs.Settings.{HasSettings};
ghost use Rattle.command_words.specs.Forms.{Command};
ghost use Rattle.binkp_mailer.specs.DiskCall.{HasHost, Over_disk, ReadsIndex};
ghost use Rattle.binkp_mailer.specs.OverLines.{IsFresh};
ghost use Rattle.binkp_mailer.specs.Reports.{had_of, told_of};
ghost use Rattle.binkp_mailer.specs.Words.{AsksFor};

use crate::{Outcome, call_node, give_behind};
use binkp_link::Lines;
use call_hosts::{Host, listed_host, set_host};
use disk_model::{Disk, Yard};
use ftn_addr::{Addr, NoMemory};
use mail_conf::Conf;
use node_store::NodeStore;
use nodelist_files::{IndexFileFault, read_index};
use nodelist_find::Index;
use session_core::home_of;
use std::alloc::Global;

/// The call of a node, by the settings of the disk.
pub(crate) fn call_peer<D: Yard, N: Lines>(
    alloc: Global,
    peer: Addr,
    conf: &Conf,
    disk: D,
    lines: &mut N,
    now: u64,
    random: [u8; 16],
) -> (Outcome, D)
    requires settings { HasSettings D.tells D.content D.fault_count D.moment D.images disk (conf_text conf.now) }
    requires keeps { KeepsLimits (conf_text conf.now) }
    requires ready { D.tells ≡ true → Every (Now D.moment D.images disk) (IsReady (D.content disk)) }
    requires fresh { IsFresh (N.state lines.old) }
    ensures { (command : Command) → AsksFor command (home_of (conf_text conf.now).addresses) (Calls (address peer)) → Over_disk D.tells D.content D.fault_count D.moment D.images command random now (N.state lines.old) disk (told_of result.0) (had_of result.0) (N.state lines.new) result.1 }
{
    match set_host(alloc, conf, &peer) {
        Ok(Some(host)) => call_host(alloc, peer, host, conf, disk, lines, now, random),
        Ok(None) => call_by_index(alloc, peer, conf, disk, lines, now, random),
        Err(NoMemory) => (Outcome::NoMemory, disk),
    }
}

// The call of a node that has no host in the settings: the index is read for one.
fn call_by_index<D: Yard, N: Lines>(
    alloc: Global,
    peer: Addr,
    conf: &Conf,
    disk: D,
    lines: &mut N,
    now: u64,
    random: [u8; 16],
) -> (Outcome, D)
    requires settings { HasSettings D.tells D.content D.fault_count D.moment D.images disk (conf_text conf.now) }
    requires keeps { KeepsLimits (conf_text conf.now) }
    requires unset { set_host (conf_text conf.now) (address peer) ≡ None }
    requires ready { D.tells ≡ true → Every (Now D.moment D.images disk) (IsReady (D.content disk)) }
    requires fresh { IsFresh (N.state lines.old) }
    ensures { (command : Command) → AsksFor command (home_of (conf_text conf.now).addresses) (Calls (address peer)) → Over_disk D.tells D.content D.fault_count D.moment D.images command random now (N.state lines.old) disk (told_of result.0) (had_of result.0) (N.state lines.new) result.1 }
{
    let mut disk = disk;
    match read_index(alloc, &mut disk) {
        Ok(index) => call_listed(alloc, peer, &index, conf, disk, lines, now, random),
        Err(IndexFileFault::Bad) => refuse_index(alloc, peer, conf, disk),
        Err(IndexFileFault::Disk) => {
            let faults = disk.faults();
            (Outcome::Unindexed(IndexFileFault::Disk, faults), disk)
        }
        Err(IndexFileFault::NoMemory) => (Outcome::NoMemory, disk),
    }
}

// The call of such a node by the index.
fn call_listed<D: Yard, N: Lines>(
    alloc: Global,
    peer: Addr,
    index: &Option<Index>,
    conf: &Conf,
    disk: D,
    lines: &mut N,
    now: u64,
    random: [u8; 16],
) -> (Outcome, D)
    requires settings { HasSettings D.tells D.content D.fault_count D.moment D.images disk (conf_text conf.now) }
    requires keeps { KeepsLimits (conf_text conf.now) }
    requires unset { set_host (conf_text conf.now) (address peer) ≡ None }
    requires index { ReadsIndex D.tells D.content D.fault_count D.moment D.images disk index.now }
    requires ready { D.tells ≡ true → Every (Now D.moment D.images disk) (IsReady (D.content disk)) }
    requires fresh { IsFresh (N.state lines.old) }
    ensures { (command : Command) → AsksFor command (home_of (conf_text conf.now).addresses) (Calls (address peer)) → Over_disk D.tells D.content D.fault_count D.moment D.images command random now (N.state lines.old) disk (told_of result.0) (had_of result.0) (N.state lines.new) result.1 }
{
    match listed_host(alloc, index, &peer) {
        Ok(Some(host)) => call_host(alloc, peer, host, conf, disk, lines, now, random),
        Ok(None) => refuse_node(alloc, peer, index, conf, disk),
        Err(NoMemory) => (Outcome::NoMemory, disk),
    }
}

// Opens the store of a disk whose index is bad. That is told where the store is opened.
fn refuse_index<D: Yard>(alloc: Global, peer: Addr, conf: &Conf, disk: D) -> (Outcome, D)
    requires settings { HasSettings D.tells D.content D.fault_count D.moment D.images disk (conf_text conf.now) }
    requires keeps { KeepsLimits (conf_text conf.now) }
    requires unset { set_host (conf_text conf.now) (address peer) ≡ None }
    requires ready { D.tells ≡ true → Every (Now D.moment D.images disk) (IsReady (D.content disk)) }
    requires bad { D.tells ≡ true → IsBadIndex (D.content disk) }
    ensures { (command : Command) (challenge : List ℕ) (now : ℕ) (lines : LinesState) → AsksFor command (home_of (conf_text conf.now).addresses) (Calls (address peer)) → Over_disk D.tells D.content D.fault_count D.moment D.images command challenge now lines disk (told_of result.0) (had_of result.0) lines result.1 }
{
    match NodeStore::open(alloc, disk, home_of(conf)) {
        Ok((store, _recovery)) => (
            Outcome::Unindexed(IndexFileFault::Bad, 0),
            store.into_disk(),
        ),
        Err((disk, fault)) => {
            let faults = disk.faults();
            (Outcome::Unopened(fault, faults), disk)
        }
    }
}

// Opens the store of a disk whose index has no host for the node either. That is told where the store is opened.
fn refuse_node<D: Yard>(
    alloc: Global,
    peer: Addr,
    index: &Option<Index>,
    conf: &Conf,
    disk: D,
) -> (Outcome, D)
    requires settings { HasSettings D.tells D.content D.fault_count D.moment D.images disk (conf_text conf.now) }
    requires keeps { KeepsLimits (conf_text conf.now) }
    requires unset { set_host (conf_text conf.now) (address peer) ≡ None }
    requires index { ReadsIndex D.tells D.content D.fault_count D.moment D.images disk index.now }
    requires unlisted { listed_host index.now (address peer) ≡ None }
    requires ready { D.tells ≡ true → Every (Now D.moment D.images disk) (IsReady (D.content disk)) }
    ensures { (command : Command) (challenge : List ℕ) (now : ℕ) (lines : LinesState) → AsksFor command (home_of (conf_text conf.now).addresses) (Calls (address peer)) → Over_disk D.tells D.content D.fault_count D.moment D.images command challenge now lines disk (told_of result.0) (had_of result.0) lines result.1 }
{
    match NodeStore::open(alloc, disk, home_of(conf)) {
        Ok((store, _recovery)) => (Outcome::NotFound, store.into_disk()),
        Err((disk, fault)) => {
            let faults = disk.faults();
            (Outcome::Unopened(fault, faults), disk)
        }
    }
}

// Opens the store of the disk and calls the node at that host.
fn call_host<D: Yard, N: Lines>(
    alloc: Global,
    peer: Addr,
    host: Host,
    conf: &Conf,
    disk: D,
    lines: &mut N,
    now: u64,
    random: [u8; 16],
) -> (Outcome, D)
    requires settings { HasSettings D.tells D.content D.fault_count D.moment D.images disk (conf_text conf.now) }
    requires keeps { KeepsLimits (conf_text conf.now) }
    requires host { HasHost D.tells D.content D.fault_count D.moment D.images disk (conf_text conf.now) (address peer) (host_text host) }
    requires ready { D.tells ≡ true → Every (Now D.moment D.images disk) (IsReady (D.content disk)) }
    requires fresh { IsFresh (N.state lines.old) }
    ensures { (command : Command) → AsksFor command (home_of (conf_text conf.now).addresses) (Calls (address peer)) → Over_disk D.tells D.content D.fault_count D.moment D.images command random now (N.state lines.old) disk (told_of result.0) (had_of result.0) (N.state lines.new) result.1 }
{
    let store = match NodeStore::open(alloc, disk, home_of(conf)) {
        Ok((store, _recovery)) => store,
        Err((disk, fault)) => {
            let faults = disk.faults();
            return (Outcome::Unopened(fault, faults), disk);
        }
    };
    store.opens_as_told();
    store.opens_soundly();
    let (outcome, store) = call_node(alloc, peer, &host, conf, random, store, lines, now);
    let (outcome, store) = give_behind(alloc, conf, outcome, store);
    (outcome, store.into_disk())
}

//! The program's call over an opened store and the lines: a caller is answered, or a node is called under its mark.
ghost use Rattle.std.specs.Prelude.{◌≡◌, None, true};
ghost use Rattle.ftn_addr.specs.Address.{address};
ghost use Rattle.binkp_link.specs.LineSources.{IsOut, IsUnused};
ghost use Rattle.bso_outbound.specs.Paths.{last_part};
ghost use Rattle.mail_conf.specs.ConfView.{conf_text};
ghost use Rattle.mail_conf.specs.Limits.{KeepsLimits};
ghost use Rattle.node_model.specs.Node.{Settings};
ghost use Rattle.hub_core.specs.Opening.{IsWhole, no_seats};
ghost use Rattle.node_store.specs.Names.{is_note, mark_name};
ghost use Rattle.node_store.specs.declared.names.MarkKind.TheVariants.{Call};
ghost use Rattle.node_store.specs.Stored.{stand_of};
ghost use Rattle.session_auth.specs.Sides.{side_of};
ghost use Rattle.call_hosts.specs.Hosts.{host_text};
ghost use Rattle.binkp_mailer.specs.OverLines.{Answers_next, Calls_node, Dials, HandsBack, IsFresh, call_mark, call_text};
ghost use Rattle.binkp_mailer.specs.Reports.{FailedIsBroken, had_of, told_of};

use crate::call_mark::{CallMark, free};
use crate::{Outcome, hold_with_outbound};
use binkp_link::{Dialled, Lines, NextLine};
use call_hosts::Host;
use disk_model::{Marking, Yard};
use ftn_addr::{Addr, NoMemory};
use mail_conf::Conf;
use node_store::NodeStore;
use session_core::Side;
use std::alloc::Global;

// Holds a session over a line that was just given, the first of its source, and hands it back.
fn hold_over<D: Yard, N: Lines>(
    alloc: Global,
    side: Side,
    conf: &Conf,
    challenge: [u8; 16],
    store: NodeStore<D>,
    lines: &mut N,
    line: N::One,
    now: u64,
) -> (Outcome, NodeStore<D>)
    requires keeps { KeepsLimits (conf_text conf.now) }
    requires whole { store.memory.broken ≡ None }
    requires fits { (settings : Settings) → IsWhole (stand_of D.tells D.content D.fault_count D.moment D.images store) (no_seats settings) }
    requires unused { IsUnused (N.One.state line) }
    requires out { IsOut 0 (N.state lines.old) }
    ensures holds { HandsBack (side_of side) (record { conf = conf_text conf.now; challenge = challenge; moment = now }) (N.One.state line) (N.state lines.old) (stand_of D.tells D.content D.fault_count D.moment D.images store) (told_of result.0) (had_of result.0) (N.state lines.new) (stand_of D.tells D.content D.fault_count D.moment D.images result.1) }
    ensures failed { FailedIsBroken result.0 result.1.memory.broken }
{
    let mut line = line;
    let (outcome, store) = hold_with_outbound(alloc, side, conf, challenge, store, &mut line, now);
    lines.back(0, line);
    (outcome, store)
}

/// Answers who calls next over the store, and hands the line back.
pub fn answer_next<D: Yard, N: Lines>(
    alloc: Global,
    conf: &Conf,
    challenge: [u8; 16],
    store: NodeStore<D>,
    lines: &mut N,
    now: u64,
) -> (Outcome, NodeStore<D>)
    requires keeps { KeepsLimits (conf_text conf.now) }
    requires whole { store.memory.broken ≡ None }
    requires fits { (settings : Settings) → IsWhole (stand_of D.tells D.content D.fault_count D.moment D.images store) (no_seats settings) }
    requires fresh { IsFresh (N.state lines.old) }
    ensures answers { Answers_next D.tells D.content D.fault_count D.moment D.images (record { conf = conf_text conf.now; challenge = challenge; moment = now }) (N.state lines.old) store (told_of result.0) (had_of result.0) (N.state lines.new) result.1 }
    ensures failed { FailedIsBroken result.0 result.1.memory.broken }
{
    match lines.next() {
        NextLine::Came(line) => {
            hold_over(
                alloc,
                Side::Answers,
                conf,
                challenge,
                store,
                lines,
                line,
                now,
            )
        }
        NextLine::Nothing => (Outcome::NoCaller, store),
        NextLine::Stop => (Outcome::NoCaller, store),
        NextLine::Failed => (Outcome::NoLine, store),
    }
}

// Dials the host of a node, and holds a session over its line.
fn dial<D: Yard, N: Lines>(
    alloc: Global,
    peer: Addr,
    host: &Host,
    conf: &Conf,
    challenge: [u8; 16],
    store: NodeStore<D>,
    lines: &mut N,
    now: u64,
) -> (Outcome, NodeStore<D>)
    requires keeps { KeepsLimits (conf_text conf.now) }
    requires whole { store.memory.broken ≡ None }
    requires fits { (settings : Settings) → IsWhole (stand_of D.tells D.content D.fault_count D.moment D.images store) (no_seats settings) }
    requires fresh { IsFresh (N.state lines.old) }
    ensures dials { Dials D.tells D.content D.fault_count D.moment D.images (address peer) (record { conf = conf_text conf.now; challenge = challenge; moment = now }) (host_text host.now) (N.state lines.old) store (told_of result.0) (had_of result.0) (N.state lines.new) result.1 }
    ensures failed { FailedIsBroken result.0 result.1.memory.broken }
{
    match lines.dial(&host.name, host.port) {
        Dialled::Line(line) => hold_over(
            alloc,
            Side::Calls(peer),
            conf,
            challenge,
            store,
            lines,
            line,
            now,
        ),
        Dialled::Failed => (Outcome::NoLine, store),
    }
}

// Dials the host of a node under its mark.
fn dial_marked<D: Yard, N: Lines>(
    alloc: Global,
    peer: Addr,
    host: &Host,
    mark: CallMark,
    conf: &Conf,
    challenge: [u8; 16],
    store: NodeStore<D>,
    lines: &mut N,
    now: u64,
) -> (Outcome, NodeStore<D>)
    requires keeps { KeepsLimits (conf_text conf.now) }
    requires whole { store.memory.broken ≡ None }
    requires fits { (settings : Settings) → IsWhole (stand_of D.tells D.content D.fault_count D.moment D.images store) (no_seats settings) }
    requires fresh { IsFresh (N.state lines.old) }
    requires path { mark.path.list ≡ call_mark (conf_text conf.now) (address peer) }
    requires note { is_note mark.note ≡ true }
    requires own { mark.note ≡ mark_name (address peer) Call }
    requires text { mark.text.list ≡ call_text (conf_text conf.now) }
    requires name { mark.name.list ≡ last_part (call_mark (conf_text conf.now) (address peer)) }
    ensures calls { Calls_node D.tells D.content D.fault_count D.moment D.images (address peer) (record { conf = conf_text conf.now; challenge = challenge; moment = now }) (host_text host.now) (N.state lines.old) store (told_of result.0) (had_of result.0) (N.state lines.new) result.1 }
    ensures failed { FailedIsBroken result.0 result.1.memory.broken }
{
    let mut store = store;
    match store.mark(&mark.path, &mark.note, &mark.text) {
        Ok(Marking::Made) => {
            let (outcome, store) = dial(alloc, peer, host, conf, challenge, store, lines, now);
            free(&mark, outcome, store)
        }
        Ok(Marking::Exists) => (Outcome::Marked(mark.name), store),
        Err(_) => {
            let faults = store.faults();
            (Outcome::Unmarked(faults), store)
        }
    }
}

/// Calls a node at its host over the store: makes its call mark, dials, holds a session, hands the line back, and takes the mark
/// away. Where another program has the node's outbound, by its mark, nobody is dialled.
pub fn call_node<D: Yard, N: Lines>(
    alloc: Global,
    peer: Addr,
    host: &Host,
    conf: &Conf,
    challenge: [u8; 16],
    store: NodeStore<D>,
    lines: &mut N,
    now: u64,
) -> (Outcome, NodeStore<D>)
    requires keeps { KeepsLimits (conf_text conf.now) }
    requires whole { store.memory.broken ≡ None }
    requires fits { (settings : Settings) → IsWhole (stand_of D.tells D.content D.fault_count D.moment D.images store) (no_seats settings) }
    requires fresh { IsFresh (N.state lines.old) }
    ensures calls { Calls_node D.tells D.content D.fault_count D.moment D.images (address peer) (record { conf = conf_text conf.now; challenge = challenge; moment = now }) (host_text host.now) (N.state lines.old) store (told_of result.0) (had_of result.0) (N.state lines.new) result.1 }
    ensures failed { FailedIsBroken result.0 result.1.memory.broken }
{
    match CallMark::of(alloc, conf, &peer) {
        Ok(mark) => dial_marked(alloc, peer, host, mark, conf, challenge, store, lines, now),
        Err(NoMemory) => (Outcome::NoMemory, store),
    }
}

//! What a node does at one turn of its serving.
ghost use Rattle.std.specs.Prelude.{◌≡◌, ◌<◌, List, None, Option, Some, false, is_some, map, true};
ghost use Rattle.ftn_addr.specs.Address.{address};
ghost use Rattle.binkp_link.specs.Lines.{SinkState};
ghost use Rattle.binkp_link.specs.LineSources.{Gave, IsNext, IsUnused, LinesState};
ghost use Rattle.binkp_link.specs.declared.line_source.NextLine.TheVariants as NextOf;
ghost use Rattle.call_hosts.specs.Hosts.{host_at, host_text};
ghost use Rattle.mail_conf.specs.ConfView.{conf_text};
ghost use Rattle.mail_conf.specs.Limits.{KeepsLimits};
ghost use Rattle.nodelist_comp.specs.Node.{ListedNode};
ghost use Rattle.session_auth.specs.Sides.{side_of};
ghost use Rattle.binkp_serve.specs.Calling.{items_of, queue_of, waits};
ghost use Rattle.binkp_serve.specs.Rests.{IsAtRest, StaysAtRest, rest_of, standing};
ghost use Rattle.binkp_serve.specs.Serving.{AreBack, Calls_next, Calls_one, Dials, Giving, Holds_line, IsDue, Looks, Looks_again, Turn, self as own_state, server};
ghost use Rattle.binkp_serve.specs.declared.watch.Watch.{Watch as WatchIn};
ghost use Rattle.binkp_serve.specs.declared.words.TheConstants.{MOST_LINES};

use crate::calling::{items_of, note_try};
use crate::resting::{give_received, hold, take_outbound};
use crate::telling::{tell_news, tell_session};
use crate::watch::Watch;
use crate::words::PAUSE;
use binkp_link::{Clock, Dialled, Dice, Lines, Sink};
use call_hosts::{Host, host_of};
use call_sched::{Next, Wanted, next_call};
use disk_model::Yard;
use ftn_addr::{Addr, NoMemory};
use mail_conf::Conf;
use nodelist_find::Index;
use outbound_desk::LineDesk;
use outbound_store::TakingStore;
use session_core::Side;
use std::alloc::Global;

/// Takes the outbound in, and tells what there is to tell of that.
pub(crate) fn look<D: Yard, O: Sink>(
    alloc: Global,
    conf: &Conf,
    desk: &mut LineDesk<TakingStore<D>>,
    now: u64,
    out: &mut O,
    watch: &mut Watch,
)
    requires keeps { KeepsLimits (conf_text conf.now) }
    requires at_rest { IsAtRest D.tells D.content D.fault_count D.moment D.images (address desk.old.outbound.home) (rest_of desk.old.desk.hub.store.store desk.old.desk.hub.seats desk.old.desk.seat) }
    requires whole { desk.old.desk.hub.store.store.memory.broken ≡ None }
    ensures looks { (lines : LinesState) → Looks D.tells D.content D.fault_count D.moment D.images (conf_text conf.now) now (server desk.old.desk.hub.store.store desk.old.desk.hub.seats desk.old.desk.seat lines (O.state out.old) watch.old) (server desk.new.desk.hub.store.store desk.new.desk.hub.seats desk.new.desk.seat lines (O.state out.new) watch.new) }
    ensures rests { StaysAtRest D.tells D.content D.fault_count D.moment D.images (address desk.new.outbound.home) (rest_of desk.old.desk.hub.store.store desk.old.desk.hub.seats desk.old.desk.seat) (rest_of desk.new.desk.hub.store.store desk.new.desk.hub.seats desk.new.desk.seat) }
    ensures lines { watch.new.lines ≡ watch.old.lines }
{
    let round = take_outbound(alloc, conf, desk, now);
    watch.looked = now;
    tell_news(round, &mut watch.said, out, &mut watch.short);
}

fn is_due(looked: u64, now: u64) -> bool
    ensures yes { result ≡ true → IsDue looked now }
    ensures no { result ≡ false → IsDue looked now → ⊥ }
{
    if now < looked {
        return true;
    }
    now - looked >= PAUSE
}

// Takes it in where that is due.
fn look_again<D: Yard, O: Sink>(
    alloc: Global,
    conf: &Conf,
    desk: &mut LineDesk<TakingStore<D>>,
    now: u64,
    out: &mut O,
    watch: &mut Watch,
)
    requires keeps { KeepsLimits (conf_text conf.now) }
    requires at_rest { IsAtRest D.tells D.content D.fault_count D.moment D.images (address desk.old.outbound.home) (rest_of desk.old.desk.hub.store.store desk.old.desk.hub.seats desk.old.desk.seat) }
    requires whole { desk.old.desk.hub.store.store.memory.broken ≡ None }
    ensures looks { (lines : LinesState) → Looks_again D.tells D.content D.fault_count D.moment D.images (conf_text conf.now) now (server desk.old.desk.hub.store.store desk.old.desk.hub.seats desk.old.desk.seat lines (O.state out.old) watch.old) (server desk.new.desk.hub.store.store desk.new.desk.hub.seats desk.new.desk.seat lines (O.state out.new) watch.new) }
    ensures rests { StaysAtRest D.tells D.content D.fault_count D.moment D.images (address desk.new.outbound.home) (rest_of desk.old.desk.hub.store.store desk.old.desk.hub.seats desk.old.desk.seat) (rest_of desk.new.desk.hub.store.store desk.new.desk.hub.seats desk.new.desk.seat) }
    ensures lines { watch.new.lines ≡ watch.old.lines }
{
    if !is_due(watch.looked, now) {
        return;
    }
    look(alloc, conf, desk, now, out, watch);
}

/// Gives received files, where the store isn't broken.
pub(crate) fn give<D: Yard>(alloc: Global, conf: &Conf, desk: &mut LineDesk<TakingStore<D>>)
    requires at_rest { IsAtRest D.tells D.content D.fault_count D.moment D.images (address desk.old.outbound.home) (rest_of desk.old.desk.hub.store.store desk.old.desk.hub.seats desk.old.desk.seat) }
    ensures gives { (lines : LinesState) (out : SinkState) (watch : WatchIn) → Giving D.tells D.content D.fault_count D.moment D.images (conf_text conf.now) (server desk.old.desk.hub.store.store desk.old.desk.hub.seats desk.old.desk.seat lines out watch) (server desk.new.desk.hub.store.store desk.new.desk.hub.seats desk.new.desk.seat lines out watch) }
    ensures rests { StaysAtRest D.tells D.content D.fault_count D.moment D.images (address desk.new.outbound.home) (rest_of desk.old.desk.hub.store.store desk.old.desk.hub.seats desk.old.desk.seat) (rest_of desk.new.desk.hub.store.store desk.new.desk.hub.seats desk.new.desk.seat) }
{
    if desk.desk.hub.store.store.broken().is_some() {
        return;
    }
    give_received(alloc, conf, desk);
}

// Holds a session over a line that was just given, hands it back, and tells of the session.
fn hold_line<D: Yard, N: Lines, O: Sink>(
    alloc: Global,
    side: Side,
    conf: &Conf,
    challenge: [u8; 16],
    desk: &mut LineDesk<TakingStore<D>>,
    lines: &mut N,
    line: N::One,
    now: u64,
    out: &mut O,
    watch: &mut Watch,
)
    requires keeps { KeepsLimits (conf_text conf.now) }
    requires at_rest { IsAtRest D.tells D.content D.fault_count D.moment D.images (address desk.old.outbound.home) (rest_of desk.old.desk.hub.store.store desk.old.desk.hub.seats desk.old.desk.seat) }
    requires whole { desk.old.desk.hub.store.store.memory.broken ≡ None }
    requires few { watch.old.lines < MOST_LINES }
    requires given { (before : LinesState) × Gave (N.One.state line) before (N.state lines.old) × AreBack watch.old.lines before }
    ensures holds { (before first : LinesState) → Gave (N.One.state line) before (N.state lines.old) → Holds_line D.tells D.content D.fault_count D.moment D.images (conf_text conf.now) (side_of side) before (server desk.old.desk.hub.store.store desk.old.desk.hub.seats desk.old.desk.seat first (O.state out.old) watch.old) (server desk.new.desk.hub.store.store desk.new.desk.hub.seats desk.new.desk.seat (N.state lines.new) (O.state out.new) watch.new) }
    ensures back { AreBack watch.new.lines (N.state lines.new) }
    ensures rests { StaysAtRest D.tells D.content D.fault_count D.moment D.images (address desk.new.outbound.home) (rest_of desk.old.desk.hub.store.store desk.old.desk.hub.seats desk.old.desk.seat) (rest_of desk.new.desk.hub.store.store desk.new.desk.hub.seats desk.new.desk.seat) }
{
    let mut line = line;
    let report = hold(alloc, side, conf, challenge, desk, &mut line, now);
    lines.back(watch.lines, line);
    watch.lines += 1;
    tell_session(alloc, &report, out, &mut watch.short);
}

/// Answers a caller, on a line that was just given, and gives what was received.
pub(crate) fn answer<D: Yard, N: Lines, C: Clock, R: Dice, O: Sink>(
    alloc: Global,
    conf: &Conf,
    desk: &mut LineDesk<TakingStore<D>>,
    lines: &mut N,
    line: N::One,
    clock: &mut C,
    dice: &mut R,
    out: &mut O,
    watch: &mut Watch,
)
    requires keeps { KeepsLimits (conf_text conf.now) }
    requires at_rest { IsAtRest D.tells D.content D.fault_count D.moment D.images (address desk.old.outbound.home) (rest_of desk.old.desk.hub.store.store desk.old.desk.hub.seats desk.old.desk.seat) }
    requires whole { desk.old.desk.hub.store.store.memory.broken ≡ None }
    requires few { watch.old.lines < MOST_LINES }
    requires given { (before : LinesState) × Gave (N.One.state line) before (N.state lines.old) × AreBack watch.old.lines before }
    ensures turn { (before : LinesState) → Gave (N.One.state line) before (N.state lines.old) → (listed : Option (List ListedNode)) → Turn D.tells D.content D.fault_count D.moment D.images (conf_text conf.now) listed (server desk.old.desk.hub.store.store desk.old.desk.hub.seats desk.old.desk.seat before (O.state out.old) watch.old) (server desk.new.desk.hub.store.store desk.new.desk.hub.seats desk.new.desk.seat (N.state lines.new) (O.state out.new) watch.new) }
    ensures back { AreBack watch.new.lines (N.state lines.new) }
    ensures rests { StaysAtRest D.tells D.content D.fault_count D.moment D.images (address desk.new.outbound.home) (rest_of desk.old.desk.hub.store.store desk.old.desk.hub.seats desk.old.desk.seat) (rest_of desk.new.desk.hub.store.store desk.new.desk.hub.seats desk.new.desk.seat) }
{
    let now = clock.now();
    let challenge = dice.sixteen();
    hold_line(
        alloc,
        Side::Answers,
        conf,
        challenge,
        desk,
        lines,
        line,
        now,
        out,
        watch,
    );
    give(alloc, conf, desk);
}

// Dials the host of a node, and holds a session over its line.
fn dial<D: Yard, N: Lines, R: Dice, O: Sink>(
    alloc: Global,
    peer: Addr,
    host: &Host,
    conf: &Conf,
    desk: &mut LineDesk<TakingStore<D>>,
    lines: &mut N,
    dice: &mut R,
    now: u64,
    out: &mut O,
    watch: &mut Watch,
)
    requires keeps { KeepsLimits (conf_text conf.now) }
    requires at_rest { IsAtRest D.tells D.content D.fault_count D.moment D.images (address desk.old.outbound.home) (rest_of desk.old.desk.hub.store.store desk.old.desk.hub.seats desk.old.desk.seat) }
    requires whole { desk.old.desk.hub.store.store.memory.broken ≡ None }
    requires few { watch.old.lines < MOST_LINES }
    requires back { AreBack watch.old.lines (N.state lines.old) }
    ensures dials { Dials D.tells D.content D.fault_count D.moment D.images (conf_text conf.now) (address peer) (host_text host.now) (server desk.old.desk.hub.store.store desk.old.desk.hub.seats desk.old.desk.seat (N.state lines.old) (O.state out.old) watch.old) (server desk.new.desk.hub.store.store desk.new.desk.hub.seats desk.new.desk.seat (N.state lines.new) (O.state out.new) watch.new) }
    ensures back { AreBack watch.new.lines (N.state lines.new) }
    ensures rests { StaysAtRest D.tells D.content D.fault_count D.moment D.images (address desk.new.outbound.home) (rest_of desk.old.desk.hub.store.store desk.old.desk.hub.seats desk.old.desk.seat) (rest_of desk.new.desk.hub.store.store desk.new.desk.hub.seats desk.new.desk.seat) }
{
    match lines.dial(&host.name, host.port) {
        Dialled::Line(line) => {
            let challenge = dice.sixteen();
            hold_line(
                alloc,
                Side::Calls(peer),
                conf,
                challenge,
                desk,
                lines,
                line,
                now,
                out,
                watch,
            );
        }
        Dialled::Failed => {}
    }
}

// Calls a node at its host, notes that, and gives what was received.
fn call_at<D: Yard, N: Lines, R: Dice, O: Sink>(
    alloc: Global,
    peer: Addr,
    host: &Host,
    conf: &Conf,
    index: &Option<Index>,
    desk: &mut LineDesk<TakingStore<D>>,
    lines: &mut N,
    dice: &mut R,
    now: u64,
    out: &mut O,
    watch: &mut Watch,
)
    requires keeps { KeepsLimits (conf_text conf.now) }
    requires at_rest { IsAtRest D.tells D.content D.fault_count D.moment D.images (address desk.old.outbound.home) (rest_of desk.old.desk.hub.store.store desk.old.desk.hub.seats desk.old.desk.seat) }
    requires whole { desk.old.desk.hub.store.store.memory.broken ≡ None }
    requires few { watch.old.lines < MOST_LINES }
    requires back { AreBack watch.old.lines (N.state lines.old) }
    requires host { host_at (conf_text conf.now) index.now (address peer) ≡ Some (host_text host.now) }
    ensures calls { Calls_one D.tells D.content D.fault_count D.moment D.images (conf_text conf.now) index.now (address peer) now (server desk.old.desk.hub.store.store desk.old.desk.hub.seats desk.old.desk.seat (N.state lines.old) (O.state out.old) watch.old) (server desk.new.desk.hub.store.store desk.new.desk.hub.seats desk.new.desk.seat (N.state lines.new) (O.state out.new) watch.new) }
    ensures back { AreBack watch.new.lines (N.state lines.new) }
    ensures rests { StaysAtRest D.tells D.content D.fault_count D.moment D.images (address desk.new.outbound.home) (rest_of desk.old.desk.hub.store.store desk.old.desk.hub.seats desk.old.desk.seat) (rest_of desk.new.desk.hub.store.store desk.new.desk.hub.seats desk.new.desk.seat) }
{
    match note_try(alloc, &peer, now, &mut watch.tries) {
        Ok(()) => {
            dial(alloc, peer, host, conf, desk, lines, dice, now, out, watch);
            give(alloc, conf, desk);
        }
        Err(NoMemory) => watch.short = true,
    }
}

// Calls a node that has a host.
fn call<D: Yard, N: Lines, R: Dice, O: Sink>(
    alloc: Global,
    peer: Addr,
    conf: &Conf,
    index: &Option<Index>,
    desk: &mut LineDesk<TakingStore<D>>,
    lines: &mut N,
    dice: &mut R,
    now: u64,
    out: &mut O,
    watch: &mut Watch,
)
    requires keeps { KeepsLimits (conf_text conf.now) }
    requires at_rest { IsAtRest D.tells D.content D.fault_count D.moment D.images (address desk.old.outbound.home) (rest_of desk.old.desk.hub.store.store desk.old.desk.hub.seats desk.old.desk.seat) }
    requires whole { desk.old.desk.hub.store.store.memory.broken ≡ None }
    requires few { watch.old.lines < MOST_LINES }
    requires back { AreBack watch.old.lines (N.state lines.old) }
    requires host { is_some (host_at (conf_text conf.now) index.now (address peer)) ≡ true }
    ensures calls { Calls_one D.tells D.content D.fault_count D.moment D.images (conf_text conf.now) index.now (address peer) now (server desk.old.desk.hub.store.store desk.old.desk.hub.seats desk.old.desk.seat (N.state lines.old) (O.state out.old) watch.old) (server desk.new.desk.hub.store.store desk.new.desk.hub.seats desk.new.desk.seat (N.state lines.new) (O.state out.new) watch.new) }
    ensures back { AreBack watch.new.lines (N.state lines.new) }
    ensures rests { StaysAtRest D.tells D.content D.fault_count D.moment D.images (address desk.new.outbound.home) (rest_of desk.old.desk.hub.store.store desk.old.desk.hub.seats desk.old.desk.seat) (rest_of desk.new.desk.hub.store.store desk.new.desk.hub.seats desk.new.desk.seat) }
{
    match host_of(alloc, conf, index, &peer) {
        Ok(Some(host)) => call_at(
            alloc, peer, &host, conf, index, desk, lines, dice, now, out, watch,
        ),
        Ok(None) => unreachable!(),
        Err(NoMemory) => watch.short = true,
    }
}

// Calls for the next of the files that wait.
fn call_first<D: Yard, N: Lines, R: Dice, O: Sink>(
    alloc: Global,
    wanted: Vec<Wanted>,
    conf: &Conf,
    index: &Option<Index>,
    desk: &mut LineDesk<TakingStore<D>>,
    lines: &mut N,
    dice: &mut R,
    now: u64,
    out: &mut O,
    watch: &mut Watch,
)
    requires keeps { KeepsLimits (conf_text conf.now) }
    requires at_rest { IsAtRest D.tells D.content D.fault_count D.moment D.images (address desk.old.outbound.home) (rest_of desk.old.desk.hub.store.store desk.old.desk.hub.seats desk.old.desk.seat) }
    requires whole { desk.old.desk.hub.store.store.memory.broken ≡ None }
    requires few { watch.old.lines < MOST_LINES }
    requires back { AreBack watch.old.lines (N.state lines.old) }
    requires wanted { map waits wanted.items ≡ items_of (conf_text conf.now) index.now (queue_of (standing D.tells D.content D.fault_count D.moment D.images (rest_of desk.old.desk.hub.store.store desk.old.desk.hub.seats desk.old.desk.seat))) }
    ensures calls { Calls_next D.tells D.content D.fault_count D.moment D.images (conf_text conf.now) index.now now (server desk.old.desk.hub.store.store desk.old.desk.hub.seats desk.old.desk.seat (N.state lines.old) (O.state out.old) watch.old) (server desk.new.desk.hub.store.store desk.new.desk.hub.seats desk.new.desk.seat (N.state lines.new) (O.state out.new) watch.new) }
    ensures back { AreBack watch.new.lines (N.state lines.new) }
    ensures rests { StaysAtRest D.tells D.content D.fault_count D.moment D.images (address desk.new.outbound.home) (rest_of desk.old.desk.hub.store.store desk.old.desk.hub.seats desk.old.desk.seat) (rest_of desk.new.desk.hub.store.store desk.new.desk.hub.seats desk.new.desk.seat) }
{
    match next_call(now, wanted.as_slice(), watch.tries.as_slice()) {
        Next::Call(place) => {
            let mut wanted = wanted;
            let item = wanted.swap_remove(place);
            call(
                alloc, item.addr, conf, index, desk, lines, dice, now, out, watch,
            );
        }
        Next::WaitUntil(_) => {}
        Next::Nothing => {}
    }
}

// Calls whom it has mail for, where calls are to be made.
fn call_next<D: Yard, N: Lines, R: Dice, O: Sink>(
    alloc: Global,
    conf: &Conf,
    index: &Option<Index>,
    desk: &mut LineDesk<TakingStore<D>>,
    lines: &mut N,
    dice: &mut R,
    now: u64,
    out: &mut O,
    watch: &mut Watch,
)
    requires keeps { KeepsLimits (conf_text conf.now) }
    requires at_rest { IsAtRest D.tells D.content D.fault_count D.moment D.images (address desk.old.outbound.home) (rest_of desk.old.desk.hub.store.store desk.old.desk.hub.seats desk.old.desk.seat) }
    requires whole { desk.old.desk.hub.store.store.memory.broken ≡ None }
    requires few { watch.old.lines < MOST_LINES }
    requires back { AreBack watch.old.lines (N.state lines.old) }
    ensures calls { Calls_next D.tells D.content D.fault_count D.moment D.images (conf_text conf.now) index.now now (server desk.old.desk.hub.store.store desk.old.desk.hub.seats desk.old.desk.seat (N.state lines.old) (O.state out.old) watch.old) (server desk.new.desk.hub.store.store desk.new.desk.hub.seats desk.new.desk.seat (N.state lines.new) (O.state out.new) watch.new) }
    ensures back { AreBack watch.new.lines (N.state lines.new) }
    ensures rests { StaysAtRest D.tells D.content D.fault_count D.moment D.images (address desk.new.outbound.home) (rest_of desk.old.desk.hub.store.store desk.old.desk.hub.seats desk.old.desk.seat) (rest_of desk.new.desk.hub.store.store desk.new.desk.hub.seats desk.new.desk.seat) }
{
    if conf.max_clients == 0 {
        return;
    }
    match items_of(alloc, conf, index, &desk.desk.hub.store.store) {
        Ok(wanted) => call_first(
            alloc, wanted, conf, index, desk, lines, dice, now, out, watch,
        ),
        Err(NoMemory) => watch.short = true,
    }
}

/// Takes the outbound in where that is due, gives what was received, and calls whom it has mail for: nobody called for a while.
pub(crate) fn pause<D: Yard, N: Lines, C: Clock, R: Dice, O: Sink>(
    alloc: Global,
    conf: &Conf,
    index: &Option<Index>,
    desk: &mut LineDesk<TakingStore<D>>,
    lines: &mut N,
    clock: &mut C,
    dice: &mut R,
    out: &mut O,
    watch: &mut Watch,
)
    requires keeps { KeepsLimits (conf_text conf.now) }
    requires at_rest { IsAtRest D.tells D.content D.fault_count D.moment D.images (address desk.old.outbound.home) (rest_of desk.old.desk.hub.store.store desk.old.desk.hub.seats desk.old.desk.seat) }
    requires whole { desk.old.desk.hub.store.store.memory.broken ≡ None }
    requires few { watch.old.lines < MOST_LINES }
    requires back { AreBack watch.old.lines (N.state lines.old) }
    ensures turn { (before : LinesState) → IsNext own_state NextOf.Nothing before (N.state lines.old) → Turn D.tells D.content D.fault_count D.moment D.images (conf_text conf.now) index.now (server desk.old.desk.hub.store.store desk.old.desk.hub.seats desk.old.desk.seat before (O.state out.old) watch.old) (server desk.new.desk.hub.store.store desk.new.desk.hub.seats desk.new.desk.seat (N.state lines.new) (O.state out.new) watch.new) }
    ensures back { AreBack watch.new.lines (N.state lines.new) }
    ensures rests { StaysAtRest D.tells D.content D.fault_count D.moment D.images (address desk.new.outbound.home) (rest_of desk.old.desk.hub.store.store desk.old.desk.hub.seats desk.old.desk.seat) (rest_of desk.new.desk.hub.store.store desk.new.desk.hub.seats desk.new.desk.seat) }
{
    let now = clock.now();
    look_again(alloc, conf, desk, now, out, watch);
    give(alloc, conf, desk);
    if desk.desk.hub.store.store.broken().is_some() {
        return;
    }
    call_next(alloc, conf, index, desk, lines, dice, now, out, watch);
}

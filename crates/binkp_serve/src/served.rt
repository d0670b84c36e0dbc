//! A node that serves, from its first take-in to its end.
ghost use Rattle.std.specs.Prelude.{◌≡◌, None};
ghost use Rattle.ftn_addr.specs.Address.{address};
ghost use Rattle.mail_conf.specs.ConfView.{conf_text};
ghost use Rattle.mail_conf.specs.Limits.{KeepsLimits};
ghost use Rattle.binkp_serve.specs.Placing.{LeavesNobody};
ghost use Rattle.binkp_serve.specs.Rests.{IsAtRest, StaysAtRest, rest_of};
ghost use Rattle.binkp_serve.specs.Serving.{AreBack, Serves, TurnsTo, at_start, end_with, server};

use crate::serving::{answer, give, look, pause};
use crate::watch::Watch;
use crate::words::{MOST_LINES, ServeEnd, Served};
use binkp_link::{Clock, Dice, Lines, NextLine, Sink};
use disk_model::Yard;
use ftn_addr::Bytes;
use mail_conf::Conf;
use nodelist_find::Index;
use outbound_desk::LineDesk;
use outbound_store::TakingStore;
use std::alloc::Global;
use std::sync::Wait;

// Turns, one behind another, up to the end.
fn turn_all<W: Wait, D: Yard, N: Lines, C: Clock, R: Dice, O: Sink>(
    rt: &W,
    alloc: Global,
    conf: &Conf,
    index: &Option<Index>,
    desk: &mut LineDesk<TakingStore<D>>,
    lines: &mut N,
    clock: &mut C,
    dice: &mut R,
    out: &mut O,
    watch: &mut Watch,
) -> ServeEnd
    requires keeps { KeepsLimits (conf_text conf.now) }
    requires at_rest { IsAtRest D.tells D.content D.fault_count D.moment D.images (address desk.old.outbound.home) (rest_of desk.old.desk.hub.store.store desk.old.desk.hub.seats desk.old.desk.seat) }
    requires back { AreBack watch.old.lines (N.state lines.old) }
    ensures turns { TurnsTo D.tells D.content D.fault_count D.moment D.images (conf_text conf.now) index.now (server desk.old.desk.hub.store.store desk.old.desk.hub.seats desk.old.desk.seat (N.state lines.old) (O.state out.old) watch.old) result (server desk.new.desk.hub.store.store desk.new.desk.hub.seats desk.new.desk.seat (N.state lines.new) (O.state out.new) watch.new) }
    ensures rests { StaysAtRest D.tells D.content D.fault_count D.moment D.images (address desk.new.outbound.home) (rest_of desk.old.desk.hub.store.store desk.old.desk.hub.seats desk.old.desk.seat) (rest_of desk.new.desk.hub.store.store desk.new.desk.hub.seats desk.new.desk.seat) }
{
    for _ in rt.forever() {
        if let Some(count) = desk.desk.hub.store.store.broken() {
            return ServeEnd::Disk(count);
        }
        if watch.lines >= MOST_LINES {
            return ServeEnd::Count;
        }
        match lines.next() {
            NextLine::Came(line) => {
                answer(alloc, conf, desk, lines, line, clock, dice, out, watch);
            }
            NextLine::Nothing => {
                pause(alloc, conf, index, desk, lines, clock, dice, out, watch);
            }
            NextLine::Stop => return ServeEnd::Stop,
            NextLine::Failed => return ServeEnd::Lines,
        }
    }
    unreachable!()
}

// A store that is broken at the end, that is its end.
fn end_with(broken: Option<u64>, end: ServeEnd) -> ServeEnd
    ensures { result ≡ end_with broken end }
{
    match broken {
        Some(count) => ServeEnd::Disk(count),
        None => end,
    }
}

/// Serves, at a desk at rest over a whole store, with lines of which none was given yet: takes the outbound of the settings in, and then
/// answers who calls, one at a time. Where nobody called for a while it takes the outbound in again, where it last did so
/// [`PAUSE`](crate::PAUSE) seconds ago, gives received files to the inbound folders, and calls a node for which a file waits, at the host
/// of the settings or of the index. Behind each session received files are given too. It ends where it is told to, where waiting for a
/// caller fails, where its disk fails, or with [`MOST_LINES`] lines, and gives received files then.
///
/// What there is to tell is put as it comes: the line of a session as it ends, and of a take-in what it passed over. A take-in that found
/// no room or no memory goes on at the next.
pub fn serve<W: Wait, D: Yard, N: Lines, C: Clock, R: Dice, O: Sink>(
    rt: &W,
    alloc: Global,
    conf: &Conf,
    index: &Option<Index>,
    desk: &mut LineDesk<TakingStore<D>>,
    lines: &mut N,
    clock: &mut C,
    dice: &mut R,
    out: &mut O,
) -> Served
    requires keeps { KeepsLimits (conf_text conf.now) }
    requires at_rest { IsAtRest D.tells D.content D.fault_count D.moment D.images (address desk.old.outbound.home) (rest_of desk.old.desk.hub.store.store desk.old.desk.hub.seats desk.old.desk.seat) }
    requires whole { desk.old.desk.hub.store.store.memory.broken ≡ None }
    requires fresh { AreBack 0 (N.state lines.old) }
    ensures serves { Serves D.tells D.content D.fault_count D.moment D.images (conf_text conf.now) index.now (at_start (rest_of desk.old.desk.hub.store.store desk.old.desk.hub.seats desk.old.desk.seat) (N.state lines.old) (O.state out.old)) result.end result.short (rest_of desk.new.desk.hub.store.store desk.new.desk.hub.seats desk.new.desk.seat) (N.state lines.new) (O.state out.new) }
    ensures placed { LeavesNobody D.tells D.content D.fault_count D.moment D.images (conf_text conf.now) index.now (N.state lines.old) result.short (rest_of desk.new.desk.hub.store.store desk.new.desk.hub.seats desk.new.desk.seat) (N.state lines.new) }
    ensures at_rest { IsAtRest D.tells D.content D.fault_count D.moment D.images (address desk.new.outbound.home) (rest_of desk.new.desk.hub.store.store desk.new.desk.hub.seats desk.new.desk.seat) }
{
    let mut watch = Watch {
        tries: Vec::new(alloc),
        looked: 0,
        said: Bytes::new(alloc),
        lines: 0,
        short: false,
    };
    look(alloc, conf, desk, clock.now(), out, &mut watch);
    let end = turn_all(
        rt, alloc, conf, index, desk, lines, clock, dice, out, &mut watch,
    );
    give(alloc, conf, desk);
    Served {
        end: end_with(desk.desk.hub.store.store.broken(), end),
        short: watch.short,
    }
}

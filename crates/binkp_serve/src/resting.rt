//! What a node does over its store between two lines: it takes its outbound in, gives received files, and holds a session.
ghost use Rattle.std.specs.Prelude.{◌≡◌, None, false};
ghost use Rattle.ftn_addr.specs.Address.{address};
ghost use Rattle.mail_conf.specs.ConfView.{conf_text};
ghost use Rattle.mail_conf.specs.Limits.{KeepsLimits};
ghost use Rattle.outbound_round.specs.Round.{told_of};
ghost use Rattle.session_auth.specs.Sides.{side_of};
ghost use Rattle.session_run.specs.Reports.{report_text};
ghost use Rattle.binkp_serve.specs.Rests.{GivesReceived, HoldsSession, IsAtRest, StaysAtRest, TakesOutbound, rest_of};

use binkp_link::Line;
use disk_model::Yard;
use inbound_files::give_files;
use mail_conf::Conf;
use outbound_desk::LineDesk;
use outbound_intake::OutboundAt;
use outbound_round::{Round, Telling, take_round};
use outbound_store::TakingStore;
use session_core::{Side, home_of};
use session_run::{Report, run_session};
use std::alloc::Global;

/// Takes the outbound of the settings in, at the desk's seat. What is told is of the addresses at which something was passed over.
pub fn take_outbound<D: Yard>(
    alloc: Global,
    conf: &Conf,
    desk: &mut LineDesk<TakingStore<D>>,
    now: u64,
) -> Round
    requires keeps { KeepsLimits (conf_text conf.now) }
    requires at_rest { IsAtRest D.tells D.content D.fault_count D.moment D.images (address desk.old.outbound.home) (rest_of desk.old.desk.hub.store.store desk.old.desk.hub.seats desk.old.desk.seat) }
    requires whole { desk.old.desk.hub.store.store.memory.broken ≡ None }
    ensures takes { TakesOutbound D.tells D.content D.fault_count D.moment D.images (conf_text conf.now) now (told_of result) (rest_of desk.old.desk.hub.store.store desk.old.desk.hub.seats desk.old.desk.seat) (rest_of desk.new.desk.hub.store.store desk.new.desk.hub.seats desk.new.desk.seat) }
    ensures rests { StaysAtRest D.tells D.content D.fault_count D.moment D.images (address desk.new.outbound.home) (rest_of desk.old.desk.hub.store.store desk.old.desk.hub.seats desk.old.desk.seat) (rest_of desk.new.desk.hub.store.store desk.new.desk.hub.seats desk.new.desk.seat) }
{
    let outbound = OutboundAt {
        home: home_of(conf),
        base: &conf.base,
        zone: conf.zone,
    };
    desk.desk.hub.look_anew();
    desk.desk.hub.store.store.numbers_are_drawn();
    desk.desk.hub.store.store.by(desk.desk.seat);
    desk.desk.hub.store.begin_anew();
    take_round(
        alloc,
        &mut desk.desk.hub.store,
        &outbound,
        now,
        Telling::PassedOver,
    )
}

/// Gives received files to the inbound folders of the settings: one round for all that may be given. What can't be given for want of
/// memory, or since both its names are in use, waits for a later one.
pub fn give_received<D: Yard>(alloc: Global, conf: &Conf, desk: &mut LineDesk<TakingStore<D>>)
    requires at_rest { IsAtRest D.tells D.content D.fault_count D.moment D.images (address desk.old.outbound.home) (rest_of desk.old.desk.hub.store.store desk.old.desk.hub.seats desk.old.desk.seat) }
    requires whole { desk.old.desk.hub.store.store.memory.broken ≡ None }
    ensures gives { GivesReceived D.tells D.content D.fault_count D.moment D.images (conf_text conf.now) (rest_of desk.old.desk.hub.store.store desk.old.desk.hub.seats desk.old.desk.seat) (rest_of desk.new.desk.hub.store.store desk.new.desk.hub.seats desk.new.desk.seat) }
    ensures rests { StaysAtRest D.tells D.content D.fault_count D.moment D.images (address desk.new.outbound.home) (rest_of desk.old.desk.hub.store.store desk.old.desk.hub.seats desk.old.desk.seat) (rest_of desk.new.desk.hub.store.store desk.new.desk.hub.seats desk.new.desk.seat) }
{
    desk.desk.hub.look_anew();
    desk.desk.hub.store.store.numbers_are_drawn();
    desk.desk.hub.store.store.by(desk.desk.seat);
    let files = desk.desk.hub.store.store.waits();
    let _given = give_files(
        alloc,
        &mut desk.desk.hub.store.store,
        &conf.inbound,
        &conf.inbound_nonsecure,
        files,
    );
}

/// Holds one session over a line, at the desk's seat. The challenge is offered at the answering side.
pub fn hold<D: Yard, L: Line>(
    alloc: Global,
    side: Side,
    conf: &Conf,
    challenge: [u8; 16],
    desk: &mut LineDesk<TakingStore<D>>,
    line: &mut L,
    now: u64,
) -> Report
    requires keeps { KeepsLimits (conf_text conf.now) }
    requires at_rest { IsAtRest D.tells D.content D.fault_count D.moment D.images (address desk.old.outbound.home) (rest_of desk.old.desk.hub.store.store desk.old.desk.hub.seats desk.old.desk.seat) }
    requires whole { desk.old.desk.hub.store.store.memory.broken ≡ None }
    requires calm { (L.state line.old).calm ≡ 0 }
    requires open { (L.state line.old).closed ≡ false }
    ensures holds { HoldsSession D.tells D.content D.fault_count D.moment D.images (side_of side) (conf_text conf.now) challenge now (L.state line.old) (report_text result) (L.state line.new) (rest_of desk.old.desk.hub.store.store desk.old.desk.hub.seats desk.old.desk.seat) (rest_of desk.new.desk.hub.store.store desk.new.desk.hub.seats desk.new.desk.seat) }
    ensures rests { StaysAtRest D.tells D.content D.fault_count D.moment D.images (address desk.new.outbound.home) (rest_of desk.old.desk.hub.store.store desk.old.desk.hub.seats desk.old.desk.seat) (rest_of desk.new.desk.hub.store.store desk.new.desk.hub.seats desk.new.desk.seat) }
{
    run_session(alloc, side, line, desk, conf, challenge, now)
}

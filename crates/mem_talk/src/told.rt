//! What a node has of a session, and a turn of it.
ghost use Rattle.std.specs.Prelude.{◌≡◌};
ghost use Rattle.mem_store.specs.ListStates.{stand_of};
ghost use Rattle.hub_core.specs.Hubs.{IsReady, hub_stand, hub_state};
ghost use Rattle.hub_core.specs.Opening.{IsWhole, no_seats};
ghost use Rattle.node_model.specs.Node.{Settings};
ghost use Rattle.mem_talk.specs.Halves.{GoesOn, MayGoOn, TurnRan};

use crate::who::Who;
use binkp_link::MemPipe;
use hub_core::HubDesk;
use mem_store::ListStore;
use session_core::Stage;
use session_run::{Course, Report, Turn};
use std::alloc::Global;

/// What a node has of a session.
#[derive(Drop)]
pub enum Told {
    /// It goes on.
    Goes(Box<Course>),
    /// It was closed with that report.
    Over(Report),
    /// Its store broke, or its seat is gone: no test comes here.
    Lost,
}

impl Told {
    /// Whether it makes no turn more.
    pub fn is_over(&self) -> bool {
        match self {
            Told::Goes(_) => false,
            Told::Over(_) => true,
            Told::Lost => true,
        }
    }

    /// What came of it, where it was closed.
    pub fn report(&self) -> Option<&Report> {
        match self {
            Told::Goes(_) => None,
            Told::Over(report) => Some(report),
            Told::Lost => None,
        }
    }

    pub fn into_report(self) -> Option<Report> {
        match self {
            Told::Goes(course) => {
                drop(course);
                None
            }
            Told::Over(report) => Some(report),
            Told::Lost => None,
        }
    }

    /// Whether it sends a file.
    pub fn is_sending(&self) -> bool {
        match self {
            Told::Goes(course) => is_sending(course),
            Told::Over(_) => false,
            Told::Lost => false,
        }
    }

    /// Whether its end is there, and it isn't closed yet.
    pub fn is_draining(&self) -> bool {
        match self {
            Told::Goes(course) => !course.talks(),
            Told::Over(_) => false,
            Told::Lost => false,
        }
    }
}

fn is_sending(course: &Course) -> bool {
    match &course.run.session.stage {
        Stage::Talks(talking) => talking.sender.sending.is_some(),
        Stage::LogsIn => false,
    }
}

/// A turn of a session that goes on, at the desk of its seat.
pub fn go_on(
    alloc: Global,
    pipe: &mut MemPipe,
    who: &Who,
    course: Box<Course>,
    desk: &mut HubDesk<ListStore>,
) -> Told
    requires { MayGoOn (stand_of desk.old.hub.store) (hub_state desk.old.hub.seats) desk.old.seat course.value pipe.old }
    ensures ready { IsReady (stand_of desk.new.hub.store) (hub_state desk.new.hub.seats) desk.new.seat }
    ensures ran { TurnRan (hub_stand (stand_of desk.old.hub.store) (hub_state desk.old.hub.seats) desk.old.seat) (hub_stand (stand_of desk.new.hub.store) (hub_state desk.new.hub.seats) desk.new.seat) }
    ensures may { GoesOn (stand_of desk.new.hub.store) (hub_state desk.new.hub.seats) desk.new.seat pipe.new result }
{
    let mut course = course;
    match course.turn(alloc, pipe, &who.conf, desk) {
        Turn::More => Told::Goes(course),
        Turn::Ended(report) => {
            drop(course);
            Told::Over(report)
        }
    }
}

/// The store of a hub, as its sessions left it.
pub fn store_of(desk: HubDesk<ListStore>) -> ListStore
    requires { IsReady (stand_of desk.hub.store) (hub_state desk.hub.seats) desk.seat }
    ensures { (settings : Settings) → IsWhole (stand_of result) (no_seats settings) }
{
    let HubDesk { hub, seat: _ } = desk;
    hub.into_store()
}

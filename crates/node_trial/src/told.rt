//! What a node has of a session, and a turn of it.
ghost use Rattle.hub_core.specs.Hubs.{IsReady, hub_state};
ghost use Rattle.node_trial.specs.Parties.{FitsHub, GoesOn, HoldsOne, MayGoOn, stand_in};

use crate::who::Who;
use binkp_link::MemPipe;
use hub_core::HubDesk;
use mem_disk::MemDisk;
use node_store::NodeStore;
use session_run::{Course, Turn};
use std::alloc::Global;

/// What a node has of a session.
#[derive(Drop)]
pub enum Told {
    /// It goes on.
    Goes(Box<Course>),
    /// It was closed.
    Over,
    /// Its node was stopped.
    Stopped,
}

impl Told {
    /// Whether it makes no turn more.
    pub(crate) fn is_over(&self) -> bool {
        match self {
            Told::Goes(_) => false,
            Told::Over => true,
            Told::Stopped => true,
        }
    }

    pub(crate) fn is_stopped(&self) -> bool {
        match self {
            Told::Goes(_) => false,
            Told::Over => false,
            Told::Stopped => true,
        }
    }
}

// A turn of a session that goes on, at the desk of its seat.
fn go_on(
    alloc: Global,
    pipe: &mut MemPipe,
    who: &Who,
    course: Box<Course>,
    desk: &mut HubDesk<NodeStore<MemDisk>>,
) -> Told
    requires { MayGoOn (stand_in desk.old.hub.store) (hub_state desk.old.hub.seats) desk.old.seat course.value pipe.old }
    ensures ready { IsReady (stand_in desk.new.hub.store) (hub_state desk.new.hub.seats) desk.new.seat }
    ensures may { GoesOn (stand_in desk.new.hub.store) (hub_state desk.new.hub.seats) desk.new.seat pipe.new result }
{
    let mut course = course;
    match course.turn(alloc, pipe, &who.conf, desk) {
        Turn::More => Told::Goes(course),
        Turn::Ended(report) => {
            drop(report);
            drop(course);
            Told::Over
        }
    }
}

/// What a turn leaves of a session.
pub(crate) fn turned(
    alloc: Global,
    pipe: &mut MemPipe,
    who: &Who,
    told: Told,
    desk: &mut HubDesk<NodeStore<MemDisk>>,
) -> Told
    requires { HoldsOne (stand_in desk.old.hub.store) (hub_state desk.old.hub.seats) desk.old.seat pipe.old told }
    ensures { HoldsOne (stand_in desk.new.hub.store) (hub_state desk.new.hub.seats) desk.new.seat pipe.new result }
{
    match told {
        Told::Goes(course) => go_on(alloc, pipe, who, course, desk),
        Told::Over => Told::Over,
        Told::Stopped => Told::Stopped,
    }
}

/// The store of a hub, as its sessions left it.
pub(crate) fn store_of(desk: HubDesk<NodeStore<MemDisk>>) -> NodeStore<MemDisk>
    requires { IsReady (stand_in desk.hub.store) (hub_state desk.hub.seats) desk.seat }
    ensures { FitsHub result }
{
    let HubDesk { hub, seat: _ } = desk;
    hub.into_store()
}

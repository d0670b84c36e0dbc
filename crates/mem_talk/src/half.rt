//! One end of a line, with the session that a node holds over it.
ghost use Rattle.std.specs.Prelude.{◌≡◌, ◌≤◌, IfOk};
ghost use Rattle.mem_store.specs.ListStates.{stand_of};
ghost use Rattle.hub_core.specs.Hubs.{IsReady, hub_state, settings_of};
ghost use Rattle.hub_core.specs.Opening.{IsWhole, no_seats, with_seat};
ghost use Rattle.mem_talk.specs.Halves.{HoldsOne};

use crate::node::Node;
use crate::told::{Told, go_on, store_of};
use crate::who::Who;
use binkp_link::MemPipe;
use ftn_addr::NoMemory;
use hub_core::{Hub, HubConf, HubDesk};
use mem_store::ListStore;
use session_core::Side;
use session_run::Report;
use std::alloc::Global;
use std::marker::Model;
use std::mem;

/// One end of a line, and the session over it.
#[derive(Drop)]
pub struct Half {
    who: Box<Who>,
    pipe: MemPipe,
    desk: Box<HubDesk<ListStore>>,
    told: Told,
}

impl Model for Half {
    ghost use Rattle.binkp_link.specs.Pipes.{Pipe};
    ghost use Rattle.mem_store.specs.ListStates.{stand_of};
    ghost use Rattle.hub_core.specs.Hubs.{hub_state};
    ghost use Rattle.mem_talk.specs.Halves.{HoldsOne};

    ghost Value = { Pipe };

    ghost view = { λ h. h.pipe };

    ghost invariant = { λ h. HoldsOne (stand_of h.desk.value.hub.store) (hub_state h.desk.value.hub.seats) h.desk.value.seat h.pipe h.told };
}

impl Half {
    /// A session of that node at that side, before its first turn.
    pub fn new(alloc: Global, node: Node, side: Side) -> Result<Half, NoMemory> {
        let Node { who, store } = node;
        let desk = one_desk(alloc, store, who.hub_conf(alloc)?)?;
        let course = who.begin(alloc, side)?;
        Ok(Half {
            who,
            pipe: MemPipe::new(alloc),
            desk,
            told: Told::Goes(course),
        })
    }

    /// Whether its session is over.
    pub fn is_over(&self) -> bool {
        self.told.is_over()
    }

    /// What came of its session, where that is over.
    pub fn report(&self) -> Option<&Report> {
        self.told.report()
    }

    /// What its node keeps.
    pub fn store(&self) -> &ListStore {
        &self.desk.hub.store
    }

    /// Its node, as the session left it, and what came of that, where it is over.
    pub fn leave(self) -> (Option<Report>, Node) {
        let Half {
            who,
            pipe,
            desk,
            told,
        } = self;
        drop(pipe);
        let store = store_of(Box::into_inner(desk));
        (told.into_report(), Node { who, store })
    }

    /// Takes the first bytes that it wrote to the other end, at most so many, and tells how many.
    pub fn carry(&mut self, other: &mut Half, most: u64) -> Result<u64, NoMemory>
        ensures { IfOk result (λ n. n ≤ most) }
    {
        match self.pipe.carry(&mut other.pipe, most) {
            Ok(n) => Ok(n),
            Err(NoMemory) => Err(NoMemory),
        }
    }

    /// Takes all that it wrote to another end.
    pub fn tell(&mut self, other: &mut MemPipe) -> Result<(), NoMemory>
        ensures { other.new.line.closed ≡ other.old.line.closed }
    {
        match self.pipe.carry(other, u64::MAX) {
            Ok(_) => Ok(()),
            Err(NoMemory) => Err(NoMemory),
        }
    }

    /// Takes all that was written at another end to this one.
    pub fn hear(&mut self, other: &mut MemPipe) -> Result<(), NoMemory>
        ensures { other.new.line.closed ≡ other.old.line.closed }
    {
        match other.carry(&mut self.pipe, u64::MAX) {
            Ok(_) => Ok(()),
            Err(NoMemory) => Err(NoMemory),
        }
    }

    /// Ends the line at this end, where it is to end: a waiting read finds the end once nothing is to come, and a write
    /// fails.
    pub fn cut_if(&mut self, ends: bool) {
        if ends {
            self.pipe.cut();
        }
    }

    /// A turn of its session, where that goes on.
    pub fn turn(&mut self, alloc: Global) {
        let told = mem::replace(&mut self.told, Told::Lost);
        self.told = turned(alloc, &mut self.pipe, &self.who, told, &mut self.desk);
    }
}

// The desk of the one seat of a hub.
pub(crate) fn one_desk(
    alloc: Global,
    store: ListStore,
    conf: HubConf,
) -> Result<Box<HubDesk<ListStore>>, NoMemory>
    requires { IsWhole (stand_of store) (no_seats (settings_of conf)) }
    ensures seat { IfOk result (λ desk. desk.value.seat ≡ 0) }
    ensures seats { IfOk result (λ desk. hub_state desk.value.hub.seats ≡ with_seat (no_seats (settings_of conf))) }
    ensures ready { IfOk result (λ desk. IsReady (stand_of desk.value.hub.store) (hub_state desk.value.hub.seats) desk.value.seat) }
{
    let mut hub = Hub::new(alloc, store, conf);
    let seat = hub.seat()?;
    Ok(Box::new(alloc, HubDesk { hub, seat })?)
}

// What a turn leaves of a session.
fn turned(
    alloc: Global,
    pipe: &mut MemPipe,
    who: &Who,
    told: Told,
    desk: &mut HubDesk<ListStore>,
) -> Told
    requires { HoldsOne (stand_of desk.old.hub.store) (hub_state desk.old.hub.seats) desk.old.seat pipe.old told }
    ensures { HoldsOne (stand_of desk.new.hub.store) (hub_state desk.new.hub.seats) desk.new.seat pipe.new result }
{
    match told {
        Told::Goes(course) => go_on(alloc, pipe, who, course, desk),
        Told::Over(report) => Told::Over(report),
        Told::Lost => Told::Lost,
    }
}

//! A node of a trial in a session, with its end of the line.
ghost use Rattle.std.specs.Prelude.{◌≡◌, ◌≤◌, IfOk};
ghost use Rattle.hub_core.specs.Hubs.{IsReady, hub_state, settings_of};
ghost use Rattle.hub_core.specs.Opening.{no_seats, with_seat};
ghost use Rattle.node_trial.specs.Parties.{FitsHub, HoldsOne, stand_in};

use crate::disturbance::Stop;
use crate::node::TrialNode;
use crate::told::{Told, store_of, turned};
use crate::who::Who;
use binkp_link::MemPipe;
use ftn_addr::NoMemory;
use hub_core::{Hub, HubConf, HubDesk};
use mem_disk::MemDisk;
use node_store::NodeStore;
use session_core::Side;
use std::alloc::Global;
use std::marker::Model;
use std::mem;

/// Where a node is stopped: behind so many calls of its disk since that was made, with that image.
#[derive(Clone, Copy)]
struct StopAt {
    calls: u64,
    pick: u32,
}

/// A node in a session.
#[derive(Drop)]
pub struct Party {
    who: Box<Who>,
    pipe: MemPipe,
    desk: Box<HubDesk<NodeStore<MemDisk>>>,
    told: Told,
    stop: Option<StopAt>,
}

impl Model for Party {
    ghost use Rattle.binkp_link.specs.Pipes.{Pipe};
    ghost use Rattle.hub_core.specs.Hubs.{hub_state};
    ghost use Rattle.node_trial.specs.Parties.{HoldsOne, stand_in};

    ghost Value = { Pipe };

    ghost view = { λ p. p.pipe };

    ghost invariant = { λ p. HoldsOne (stand_in p.desk.value.hub.store) (hub_state p.desk.value.hub.seats) p.desk.value.seat p.pipe p.told };
}

// The desk of the one seat of a hub.
fn one_desk(
    alloc: Global,
    store: NodeStore<MemDisk>,
    conf: HubConf,
) -> Result<Box<HubDesk<NodeStore<MemDisk>>>, NoMemory>
    requires { FitsHub store }
    ensures seat { IfOk result (λ desk. desk.value.seat ≡ 0) }
    ensures seats { IfOk result (λ desk. hub_state desk.value.hub.seats ≡ with_seat (no_seats (settings_of conf))) }
    ensures ready { IfOk result (λ desk. IsReady (stand_in desk.value.hub.store) (hub_state desk.value.hub.seats) desk.value.seat) }
{
    let mut hub = Hub::new(alloc, store, conf);
    let seat = hub.seat()?;
    Ok(Box::new(alloc, HubDesk { hub, seat })?)
}

// Where a stop is, counted from the disk's calls so far.
fn stop_at(store: &NodeStore<MemDisk>, stop: Stop) -> StopAt {
    StopAt {
        calls: store.disk().calls().saturating_add(u64::from(stop.calls)),
        pick: stop.pick,
    }
}

impl Party {
    /// A node that calls the other.
    pub(crate) fn calling(alloc: Global, node: TrialNode) -> Result<Party, NoMemory> {
        let (who, store) = node.into_parts();
        let side = Side::Calls(who.peer(alloc)?);
        Party::new(alloc, who, store, side, None)
    }

    /// A node that answers, and may be stopped. Behind no call it is stopped at once.
    pub(crate) fn answering(
        alloc: Global,
        node: TrialNode,
        stop: Option<Stop>,
    ) -> Result<Party, NoMemory> {
        let (who, store) = node.into_parts();
        let stop = match stop {
            Some(stop) => Some(stop_at(&store, stop)),
            None => None,
        };
        let mut party = Party::new(alloc, who, store, Side::Answers, stop)?;
        party.stop_if_reached();
        Ok(party)
    }

    fn new(
        alloc: Global,
        who: Box<Who>,
        store: Box<NodeStore<MemDisk>>,
        side: Side,
        stop: Option<StopAt>,
    ) -> Result<Party, NoMemory>
        requires { FitsHub store.value }
    {
        let desk = one_desk(alloc, Box::into_inner(store), who.hub_conf(alloc))?;
        let course = who.begin(alloc, side)?;
        Ok(Party {
            who,
            pipe: MemPipe::new(alloc),
            desk,
            told: Told::Goes(course),
            stop,
        })
    }

    /// Whether it makes no turn more.
    pub(crate) fn is_over(&self) -> bool {
        self.told.is_over()
    }

    pub(crate) fn is_stopped(&self) -> bool {
        self.told.is_stopped()
    }

    // Whether it has made as many disk calls as it is stopped behind.
    fn is_reached(&self) -> bool {
        match self.stop {
            Some(stop) => stop.calls <= self.desk.hub.store.disk().calls(),
            None => false,
        }
    }

    fn stop_if_reached(&mut self) {
        if self.is_reached() {
            self.told = Told::Stopped;
        }
    }

    /// A turn of its session, where that goes on. Where it reaches its stop in it, it is stopped.
    pub(crate) fn turn(&mut self, alloc: Global) {
        let told = mem::replace(&mut self.told, Told::Over);
        self.told = turned(alloc, &mut self.pipe, &self.who, told, &mut self.desk);
        self.stop_if_reached();
    }

    /// Takes the first bytes that it wrote to the other end, at most so many, and tells how many.
    pub(crate) fn carry(&mut self, other: &mut Party, most: u64) -> Result<u64, NoMemory>
        ensures { IfOk result (λ n. n ≤ most) }
    {
        match self.pipe.carry(&mut other.pipe, most) {
            Ok(n) => Ok(n),
            Err(NoMemory) => Err(NoMemory),
        }
    }

    /// Ends the line at this end: a waiting read finds the end once nothing is to come, and a write fails.
    pub(crate) fn cut(&mut self) {
        self.pipe.cut();
    }

    // Where it was stopped.
    fn stopped_at(&self) -> Option<StopAt> {
        if self.is_stopped() { self.stop } else { None }
    }

    /// The node, as the session left it. One that was stopped is opened again, over what the stop left.
    pub(crate) fn leave(self, alloc: Global) -> Result<TrialNode, NoMemory> {
        let stopped_at = self.stopped_at();
        let Party {
            who,
            pipe,
            desk,
            told,
            stop: _,
        } = self;
        drop(pipe);
        drop(told);
        let store = store_of(Box::into_inner(desk));
        if store.broken().is_some() {
            return Err(NoMemory);
        }
        match stopped_at {
            Some(stop) => TrialNode::stopped(alloc, who, store.into_disk(), stop.calls, stop.pick),
            None => TrialNode::of(alloc, who, store),
        }
    }
}

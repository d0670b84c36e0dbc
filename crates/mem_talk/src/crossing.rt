//! A node that holds two sessions at a time, each over a line of its own.
ghost use Rattle.std.specs.Prelude.{◌≡◌, ◌<◌, ◌≢◌, length, IfOk, IfSome, IsTrue};
ghost use Rattle.mem_store.specs.ListStates.{stand_of};
ghost use Rattle.hub_core.specs.Hubs.{IsReady, hub_state, settings_of};
ghost use Rattle.hub_core.specs.Opening.{IsWhole, no_seats, with_seat};
ghost use Rattle.mem_talk.specs.Crossings.{CameIn, HoldsBoth, MayTell, MayTurnLeg, Ran, Rests};

use crate::came::Came;
use crate::leg::{Leg, Plan};
use crate::node::Node;
use crate::told::{Told, go_on, store_of};
use crate::who::Who;
use binkp_link::MemPipe;
use ftn_addr::NoMemory;
use hub_core::{Desk, Hub, HubConf, HubDesk, Knock};
use mem_store::ListStore;
use node_model::Role;
use session_run::Course;
use std::alloc::Global;
use std::marker::Model;
use std::mem;

/// A node that holds two sessions over its one store.
#[derive(Drop)]
pub struct Post {
    who: Box<Who>,
    desk: Box<HubDesk<ListStore>>,
    /// The session that makes the next turn.
    own: Box<Leg>,
    other: Box<Leg>,
}

impl Model for Post {
    ghost use Rattle.binkp_link.specs.Pipes.{Pipe};
    ghost use Rattle.mem_store.specs.ListStates.{stand_of};
    ghost use Rattle.hub_core.specs.Hubs.{hub_state};
    ghost use Rattle.mem_talk.specs.Crossings.{HoldsBoth};

    ghost Value = { Pipe };

    ghost view = { λ p. p.own.value.pipe };

    ghost invariant = { λ p. HoldsBoth (stand_of p.desk.value.hub.store) (hub_state p.desk.value.hub.seats) p.desk.value.seat p.own.value p.other.value };
}

impl Post {
    /// A node with two sessions that are to come, the first one at its second seat.
    #[tactic(auto, using(crate::proofs::Resting::both_begin))]
    pub fn new(alloc: Global, node: Node, first: Plan, second: Plan) -> Result<Post, NoMemory> {
        let Node { who, store } = node;
        let desk = second_desk(alloc, store, who.hub_conf(alloc)?)?;
        let own = Leg::new(alloc, 1, first)?;
        let other = Leg::new(alloc, 0, second)?;
        Ok(Post {
            who,
            desk,
            own,
            other,
        })
    }

    /// The other session makes the next turn.
    pub fn swap(&mut self) {
        mem::swap(&mut self.own, &mut self.other);
    }

    /// A turn of one session, and the turns that close that once its end is there: a session that is left has no seat that
    /// can be seen, and so doesn't rest.
    pub fn turn(&mut self, alloc: Global) {
        self.turn_once(alloc);
        for _ in 0..2 {
            if self.own.told.is_draining() {
                self.turn_once(alloc);
            }
        }
    }

    fn turn_once(&mut self, alloc: Global) {
        match mem::replace(&mut self.own.told, Told::Lost) {
            Told::Goes(course) => {
                turn_beside(
                    alloc,
                    course,
                    &mut self.desk,
                    &mut self.own,
                    &mut self.other,
                );
            }
            Told::Over(report) => self.own.set(Told::Over(report)),
            Told::Lost => {}
        }
    }

    /// Takes all that its one session wrote to the other end.
    pub fn tell(&mut self, far: &mut Post) -> Result<(), NoMemory> {
        match self.own.pipe.carry(&mut far.own.pipe, u64::MAX) {
            Ok(_) => Ok(()),
            Err(NoMemory) => Err(NoMemory),
        }
    }

    /// Ends the line at this end, where it is to end.
    pub fn cut_if(&mut self, ends: bool) {
        if ends {
            self.own.pipe.cut();
        }
    }

    /// The node as its sessions left it.
    pub fn into_node(self) -> Node {
        let Post {
            who,
            desk,
            own,
            other,
        } = self;
        drop(own);
        drop(other);
        let store = store_of(Box::into_inner(desk));
        Node { who, store }
    }

    /// Whether both sessions are over.
    pub fn is_over(&self) -> bool {
        self.own.told.is_over() && self.other.told.is_over()
    }

    /// Whether the session that makes the next turn is over.
    pub fn has_ended(&self) -> bool {
        self.own.told.is_over()
    }

    /// Whether the session that makes the next turn sends a file.
    pub fn is_sending(&self) -> bool {
        self.own.told.is_sending()
    }

    /// What came of both sessions, where they were closed, the first one first.
    pub fn came(&self) -> [Option<Came>; 2] {
        if self.own.seat > self.other.seat {
            [self.own.came(), self.other.came()]
        } else {
            [self.other.came(), self.own.came()]
        }
    }
}

// The desk of the second seat of a hub that has two.
#[tactic(auto, using(crate::proofs::Resting::still_whole))]
fn second_desk(
    alloc: Global,
    store: ListStore,
    conf: HubConf,
) -> Result<Box<HubDesk<ListStore>>, NoMemory>
    requires { IsWhole (stand_of store) (no_seats (settings_of conf)) }
    ensures seat { IfOk result (λ desk. desk.value.seat ≡ 1) }
    ensures seats { IfOk result (λ desk. hub_state desk.value.hub.seats ≡ with_seat (with_seat (no_seats (settings_of conf)))) }
    ensures ready { IfOk result (λ desk. IsReady (stand_of desk.value.hub.store) (hub_state desk.value.hub.seats) desk.value.seat) }
{
    let mut hub = Hub::new(alloc, store, conf);
    hub.seat()?;
    let seat = hub.seat()?;
    Ok(Box::new(alloc, HubDesk { hub, seat })?)
}

// A turn of a session that goes on, beside another one that rests: that began before, or has the lesser seat.
fn turn_beside(
    alloc: Global,
    course: Box<Course>,
    desk: &mut HubDesk<ListStore>,
    own: &mut Leg,
    other: &mut Leg,
)
    requires ready { IsReady (stand_of desk.old.hub.store) (hub_state desk.old.hub.seats) desk.old.seat }
    requires own { Rests (stand_of desk.old.hub.store) (hub_state desk.old.hub.seats) own.old.seat course.value own.old.pipe }
    requires other { MayTurnLeg (stand_of desk.old.hub.store) (hub_state desk.old.hub.seats) other.old }
    requires apart { own.old.seat ≢ other.old.seat }
    ensures { HoldsBoth (stand_of desk.new.hub.store) (hub_state desk.new.hub.seats) desk.new.seat own.new other.new }
{
    let seat = own.seat;
    desk.seat = seat;
    match turned(alloc, &mut own.pipe, &own.who, course, desk) {
        Some(told) => {
            own.set(told);
            if !is_given(&desk.hub, other.seat, seat) {
                other.set(Told::Lost);
            }
        }
        None => {
            own.set(Told::Lost);
            other.set(Told::Lost);
        }
    }
}

// A turn of a session that goes on, at the desk of its seat; none over a broken store.
fn turned(
    alloc: Global,
    pipe: &mut MemPipe,
    who: &Who,
    course: Box<Course>,
    desk: &mut HubDesk<ListStore>,
) -> Option<Told>
    requires ready { IsReady (stand_of desk.old.hub.store) (hub_state desk.old.hub.seats) desk.old.seat }
    requires rests { Rests (stand_of desk.old.hub.store) (hub_state desk.old.hub.seats) desk.old.seat course.value pipe.old }
    ensures seat { desk.new.seat ≡ desk.old.seat }
    ensures ready { IsReady (stand_of desk.new.hub.store) (hub_state desk.new.hub.seats) desk.new.seat }
    ensures ran { IfSome result (λ told. Ran (stand_of desk.old.hub.store) (hub_state desk.old.hub.seats) desk.old.seat (stand_of desk.new.hub.store) (hub_state desk.new.hub.seats)) }
    ensures may { IfSome result (λ told. MayTell (stand_of desk.new.hub.store) (hub_state desk.new.hub.seats) desk.new.seat pipe.new told) }
{
    if !is_sound(desk) {
        drop(course);
        return None;
    }
    Some(go_on(alloc, pipe, who, course, desk))
}

// Whether the store isn't broken. It asks by a call that changes nothing.
fn is_sound(desk: &mut HubDesk<ListStore>) -> bool
    requires { IsReady (stand_of desk.old.hub.store) (hub_state desk.old.hub.seats) desk.old.seat }
    ensures seat { desk.new.seat ≡ desk.old.seat }
    ensures ready { IsReady (stand_of desk.new.hub.store) (hub_state desk.new.hub.seats) desk.new.seat }
    ensures came { IsTrue result → CameIn (stand_of desk.old.hub.store) (hub_state desk.old.hub.seats) desk.old.seat (stand_of desk.new.hub.store) (hub_state desk.new.hub.seats) }
{
    matches!(desk.knock(Role::Calls), Ok(Knock::Come))
}

// Whether the hub has that seat, as it has a greater one, or one with a session.
fn is_given(hub: &Hub<ListStore>, seat: u32, greater: u32) -> bool
    requires { greater < length (hub_state hub.now.seats).chairs }
    ensures { IsTrue result → seat < length (hub_state hub.now.seats).chairs }
{
    seat < greater || hub.session(seat).is_some()
}

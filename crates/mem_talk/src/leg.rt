//! One of a node's two sessions.
ghost use Rattle.std.specs.Prelude.{◌≡◌, IfOk};
ghost use Rattle.mem_talk.specs.Crossings.{MayBegin};

use crate::came::Came;
use crate::offered::side_of;
use crate::told::Told;
use crate::who::Who;
use binkp_link::MemPipe;
use ftn_addr::NoMemory;
use std::alloc::Global;
use std::mem;

/// A session that is to come: the number of the address that the node has in it, and of the node that it calls; none where
/// it answers.
#[derive(Clone, Copy)]
pub struct Plan {
    pub home: u16,
    pub calls: Option<u16>,
}

/// One of a node's two sessions: who the node is in it, its end of the line, and its seat.
#[derive(Drop)]
pub struct Leg {
    pub who: Box<Who>,
    pub pipe: MemPipe,
    pub seat: u32,
    pub told: Told,
}

impl Leg {
    pub fn new(alloc: Global, seat: u32, plan: Plan) -> Result<Box<Leg>, NoMemory>
        ensures begins { IfOk result (λ leg. MayBegin leg.value.pipe leg.value.told) }
        ensures seat { IfOk result (λ leg. leg.value.seat ≡ seat) }
    {
        let who = Who::new(alloc, plan.home)?;
        let course = who.begin(alloc, side_of(alloc, plan.calls)?)?;
        let leg = Leg {
            who,
            pipe: MemPipe::new(alloc),
            seat,
            told: Told::Goes(course),
        };
        Ok(Box::new(alloc, leg)?)
    }

    // What it was before is dropped by a call, whose proof stands once.
    pub fn set(&mut self, told: Told)
        ensures pipe { self.new.pipe ≡ self.old.pipe }
        ensures seat { self.new.seat ≡ self.old.seat }
        ensures told { self.new.told ≡ told }
    {
        drop(mem::replace(&mut self.told, told));
    }

    /// What came of it, where it was closed.
    pub fn came(&self) -> Option<Came> {
        self.told.report().map(|report| Came::of(report))
    }
}

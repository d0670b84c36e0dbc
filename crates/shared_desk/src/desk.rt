//! The desk of a seat behind a gate.
ghost use Rattle.std.specs.Prelude.{◌≡◌, [], false};
ghost use Rattle.atomic_table.specs.Seated.{TableId};
ghost use Rattle.turn_gate.specs.Passes.{view};
ghost use Rattle.shared_desk.specs.AtGate.{IsAtGate, OneTurnMore};
ghost use Rattle.shared_desk.specs.Seen.{stand as stand_of};

use crate::roams::Roams;
use crate::visits::{come, go};
use ftn_addr::{Addr, FileKey};
use node_model::{DataIn, Desk, DeskFault, FileIn, Knock, Offer, Role};
use std::alloc::Global;
use std::marker::{Brand, PhantomData};
use std::sync::Wait;
use turn_gate::{Gate, Pass};

/// Which gate it is. The program that makes a gate picks it.
pub trait GateName {
    ghost table: { TableId };
}

impl GateName for Brand {
    ghost table = { record { words = 0; slots = 0; views_name = 0; atom = 0; block = 0; offset = 0; slot_names = [] } };
}

/// The desk of one seat of a hub behind a gate. Each of its calls waits for its turn, as [`Gate::enter`] does, and is one turn
/// of its pass; other seats step between them.
#[derive(Drop)]
pub struct GateDesk<'a, W: Wait, V: Roams, G: GateName> {
    pub rt: &'a W,
    pub gate: &'a Gate<V>,
    pub pass: Pass<V>,
    pub of: PhantomData<G>,
}

impl<'a, W: Wait, V: Roams, G: GateName> GateDesk<'a, W, V, G> {
    /// The desk of the pass's seat. Takes no memory.
    pub fn new(rt: &'a W, gate: &'a Gate<V>, pass: Pass<V>) -> GateDesk<'a, W, V, G>
        ensures gate { result.gate.now ≡ gate.entry.now }
        ensures pass { result.pass ≡ pass }
    {
        GateDesk {
            rt,
            gate,
            pass,
            of: PhantomData,
        }
    }

    /// Its pass, for closing the gate or for another desk. Takes no memory.
    pub fn into_pass(self) -> Pass<V>
        ensures { result ≡ self.entry.pass }
    {
        let GateDesk { pass, .. } = self;
        pass
    }
}

impl<'a, W: Wait, V: Roams, G: GateName> Desk for GateDesk<'a, W, V, G> {
    ghost alone = { false };

    ghost stand = { λ d. stand_of V.sight (view d.pass).seat (view d.pass).left };

    ghost part = { λ d. (V.sight).part (view d.pass).seat (view d.pass).left };

    ghost ready = { λ d. IsAtGate V.sight G.table d.gate.now d.pass };

    ghost rule = { λ d e. OneTurnMore d.pass e.pass };

    fn knock(&mut self, role: Role) -> Result<Knock, DeskFault> {
        let mut held = come(self.rt, self.gate, &mut self.pass);
        let answer = held.value.knock(role);
        go(held, self.gate, &mut self.pass);
        answer
    }

    fn begin(
        &mut self,
        alloc: Global,
        role: Role,
        peers: &[Addr],
        secure: bool,
        now: u64,
    ) -> Result<u32, DeskFault> {
        let mut held = come(self.rt, self.gate, &mut self.pass);
        let answer = held.value.begin(alloc, role, peers, secure, now);
        go(held, self.gate, &mut self.pass);
        answer
    }

    fn offer(&mut self, alloc: Global) -> Result<Offer, DeskFault> {
        let mut held = come(self.rt, self.gate, &mut self.pass);
        let answer = held.value.offer(alloc);
        go(held, self.gate, &mut self.pass);
        answer
    }

    fn read(&mut self, at: u64, out: &mut [u8]) -> Result<usize, DeskFault> {
        let mut held = come(self.rt, self.gate, &mut self.pass);
        let answer = held.value.read(at, out);
        go(held, self.gate, &mut self.pass);
        answer
    }

    fn got(&mut self) -> Result<(), DeskFault> {
        let mut held = come(self.rt, self.gate, &mut self.pass);
        let answer = held.value.got();
        go(held, self.gate, &mut self.pass);
        answer
    }

    fn skip(&mut self) {
        let mut held = come(self.rt, self.gate, &mut self.pass);
        held.value.skip();
        go(held, self.gate, &mut self.pass);
    }

    fn file_in(&mut self, alloc: Global, key: &FileKey, offset: u64) -> Result<FileIn, DeskFault> {
        let mut held = come(self.rt, self.gate, &mut self.pass);
        let answer = held.value.file_in(alloc, key, offset);
        go(held, self.gate, &mut self.pass);
        answer
    }

    fn data_in(&mut self, bytes: &[u8]) -> Result<DataIn, DeskFault> {
        let mut held = come(self.rt, self.gate, &mut self.pass);
        let answer = held.value.data_in(bytes);
        go(held, self.gate, &mut self.pass);
        answer
    }

    fn leave(&mut self) -> Result<(), DeskFault> {
        let mut held = come(self.rt, self.gate, &mut self.pass);
        let answer = held.value.leave();
        go(held, self.gate, &mut self.pass);
        answer
    }

    ghost tied = { λ d ready. V.tied_at (view d.pass).seat (view d.pass).left ready.ready };
}

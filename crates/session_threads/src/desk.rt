//! The desk of a session that a test may hold once it is logged in.
ghost use Rattle.std.specs.Prelude.{◌≡◌, false};
ghost use Rattle.turn_gate.specs.Passes.{view};
ghost use Rattle.shared_desk.specs.AtGate.{IsAtGate, OneTurnMore};
ghost use Rattle.shared_desk.specs.Seen.{stand as stand_of};

use crate::stalls::{StallPoint, Stalls};
use ftn_addr::{Addr, FileKey};
use node_model::{DataIn, Desk, DeskFault, FileIn, Knock, Offer, Role};
use shared_desk::{GateDesk, GateName, Roams};
use std::alloc::Global;
use std::sync::Wait;
use turn_gate::Pass;

/// The desk of a seat behind a gate, with the place of its session's line. Once a session is begun, and the gate left, it stalls there.
#[derive(Drop)]
pub(crate) struct StallDesk<'a, W: Wait, V: Roams, G: GateName, T: Stalls> {
    pub desk: GateDesk<'a, W, V, G>,
    pub stalls: &'a T,
    pub line: u32,
}

impl<'a, W: Wait, V: Roams, G: GateName, T: Stalls> Desk for StallDesk<'a, W, V, G, T> {
    ghost alone = { false };

    ghost stand = { λ d. stand_of V.sight (view d.desk.pass).seat (view d.desk.pass).left };

    ghost part = { λ d. (V.sight).part (view d.desk.pass).seat (view d.desk.pass).left };

    ghost ready = { λ d. IsAtGate V.sight G.table d.desk.gate.now d.desk.pass };

    ghost rule = { λ d e. OneTurnMore d.desk.pass e.desk.pass };

    fn knock(&mut self, role: Role) -> Result<Knock, DeskFault> {
        self.desk.knock(role)
    }

    fn begin(
        &mut self,
        alloc: Global,
        role: Role,
        peers: &[Addr],
        secure: bool,
        now: u64,
    ) -> Result<u32, DeskFault> {
        let begun = self.desk.begin(alloc, role, peers, secure, now);
        if begun.is_ok() {
            self.stalls
                .at(self.desk.rt, self.line, StallPoint::LoggedIn);
        }
        begun
    }

    fn offer(&mut self, alloc: Global) -> Result<Offer, DeskFault> {
        self.desk.offer(alloc)
    }

    fn read(&mut self, at: u64, out: &mut [u8]) -> Result<usize, DeskFault> {
        self.desk.read(at, out)
    }

    fn got(&mut self) -> Result<(), DeskFault> {
        self.desk.got()
    }

    fn skip(&mut self) {
        self.desk.skip();
    }

    fn file_in(&mut self, alloc: Global, key: &FileKey, offset: u64) -> Result<FileIn, DeskFault> {
        self.desk.file_in(alloc, key, offset)
    }

    fn data_in(&mut self, bytes: &[u8]) -> Result<DataIn, DeskFault> {
        self.desk.data_in(bytes)
    }

    fn leave(&mut self) -> Result<(), DeskFault> {
        self.desk.leave()
    }

    ghost tied = { λ d ready. V.tied_at (view d.desk.pass).seat (view d.desk.pass).left ready.ready };
}

impl<'a, W: Wait, V: Roams, G: GateName, T: Stalls> StallDesk<'a, W, V, G, T> {
    /// Its pass. Takes no memory.
    pub fn into_pass(self) -> Pass<V>
        ensures { result ≡ self.entry.desk.pass }
    {
        let StallDesk { desk, .. } = self;
        desk.into_pass()
    }
}

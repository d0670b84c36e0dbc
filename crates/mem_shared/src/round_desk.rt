//! A desk that goes from seat to seat of its hub.
ghost use Rattle.std.specs.Prelude.{◌≡◌, ℕ, [], Option, Some, None, true};
ghost use Rattle.hub_core.specs.HubCalls.{OwnCall};
ghost use Rattle.hub_core.specs.HubLaws.{seat_tied};
ghost use Rattle.hub_core.specs.Hubs.{IsReady, hub_stand, hub_state, seat_part};
ghost use Rattle.mem_store.specs.ListStates.{stand_of};
ghost use Rattle.shared_desk.specs.Seen.{SeatTurn};
ghost use Rattle.mem_shared.specs.Sights.{sight_by};

use ftn_addr::{Addr, FileKey};
use hub_core::{DataIn, Desk, DeskFault, FileIn, Hub, HubDesk, Knock, Offer};
use mem_store::ListStore;
use node_model::{Role, Store};
use shared_desk::Roams;
use std::alloc::Global;
use turn_gate::Grows;

/// The desk of a hub over a store in memory, which goes from seat to seat.
#[derive(Drop)]
pub struct RoundDesk {
    pub desk: HubDesk<ListStore>,
}

impl Desk for RoundDesk {
    ghost alone = { true };

    ghost stand = { λ d. hub_stand (stand_of d.desk.hub.store) (hub_state d.desk.hub.seats) d.desk.seat };

    ghost part = { λ d. seat_part (hub_state d.desk.hub.seats) d.desk.seat };

    ghost ready = { λ d. IsReady (stand_of d.desk.hub.store) (hub_state d.desk.hub.seats) d.desk.seat };

    ghost rule = { λ d e. (e.desk.seat ≡ d.desk.seat) × OwnCall d.desk.seat (hub_state d.desk.hub.seats) (stand_of e.desk.hub.store) (hub_state e.desk.hub.seats) };

    fn knock(&mut self, role: Role) -> Result<Knock, DeskFault> {
        self.desk.knock(role)
    }

    fn begin(
        &mut self,
        alloc: Global,
        role: Role,
        peers: &[Addr],
        secure: bool,
        now: u64,
    ) -> Result<u32, DeskFault> {
        self.desk.begin(alloc, role, peers, secure, now)
    }

    fn offer(&mut self, alloc: Global) -> Result<Offer, DeskFault> {
        self.desk.offer(alloc)
    }

    fn read(&mut self, at: u64, out: &mut [u8]) -> Result<usize, DeskFault> {
        self.desk.read(at, out)
    }

    fn got(&mut self) -> Result<(), DeskFault> {
        self.desk.got()
    }

    fn skip(&mut self) {
        self.desk.skip();
    }

    fn file_in(&mut self, alloc: Global, key: &FileKey, offset: u64) -> Result<FileIn, DeskFault> {
        self.desk.file_in(alloc, key, offset)
    }

    fn data_in(&mut self, bytes: &[u8]) -> Result<DataIn, DeskFault> {
        self.desk.data_in(bytes)
    }

    fn leave(&mut self) -> Result<(), DeskFault> {
        self.desk.leave()
    }

    ghost tied = { λ d ready. seat_tied (stand_of d.desk.hub.store) (hub_state d.desk.hub.seats) d.desk.seat ready };
}

// The list isn't told: what the sessions recorded is read from their turns.
impl Grows for RoundDesk {
    ghost use Rattle.std.proofs.Common.{inl, refl};
    ghost use Rattle.mem_shared.specs.SightLaws.{turn_of_nothing};

    type State = Option<Hub<ListStore>>;

    type Entry = ();

    type Part = ();

    ghost state = { λ d. Some d.desk.hub };

    ghost blank = { None };

    ghost entries = { λ x. [] };

    ghost length_of = { λ x. 0 };

    ghost by = { λ e. 0 };

    ghost part = { λ k x. tt };

    ghost turn = { SeatTurn (sight_by (λ h. stand_of h.store) (λ h. hub_state h.seats)) };

    fn grown(&self) -> u64 {
        0
    }

    ghost told_whole_or_not = { λ x. inl refl };

    ghost turn_is_own = { λ seat a b turn. turn_of_nothing seat a b };
}

impl Roams for RoundDesk {
    ghost use Rattle.std.proofs.Common.{refl};
    ghost use Rattle.mem_shared.specs.SightLaws.{one_hub_by, own_by, sits_by, tied_by};

    ghost sight = { sight_by (λ h. stand_of h.store) (λ h. hub_state h.seats) };

    ghost at = { λ d. d.desk.seat };

    fn sit(&mut self, seat: u32) {
        self.desk.seat = seat;
    }

    fn read_counts(&self) {
        let _faults = self.desk.hub.store.faults();
        let _fulls = self.desk.hub.store.fulls();
    }

    ghost is_alone = { refl };

    ghost one_hub = { one_hub_by (λ h. stand_of h.store) (λ h. hub_state h.seats) };

    ghost sits = { λ d ready. sits_by (λ h. stand_of h.store) (λ h. hub_state h.seats) d.desk.hub d.desk.seat ready };

    ghost own = { λ d e was ready rule. own_by (λ h. stand_of h.store) (λ h. hub_state h.seats) d.desk.hub e.desk.hub d.desk.seat e.desk.seat ready rule.0 rule.1 };

    ghost tied_at = { tied_by (λ h. stand_of h.store) (λ h. hub_state h.seats) };

    ghost is_turn = { λ k a b turn. turn };

    ghost turn_is = { λ k a b turn. turn };
}

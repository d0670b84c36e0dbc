//! What a hub's session sends: queued files are offered, read, settled and skipped.
ghost use Rattle.std.specs.Prelude.{◌≡◌, ◌-◌, IfOk, Some, None, true, length, min};

use crate::hub::Hub;
use crate::offering::{claim_next, give_place, read_entry, settle_claim};
use crate::parts::refusal;
use crate::{DeskFault, Offer};
use node_model::{Store, StoreFault};
use std::alloc::Global;

impl<S: Store> Hub<S> {
    ghost use Rattle.ftn_addr.specs.Limits.{IsKey};
    ghost use Rattle.node_model.specs.Calls.{Offer_call, Read_call, Got_call, Skip_call, Settled};
    ghost use Rattle.node_model.specs.Desks.{Claim, HasClaim, number_in, size_in, offer_answer, read_answer, settled_answer};
    ghost use Rattle.hub_core.specs.Hubs.{IsReady, hub_state, seat_part};
    ghost use Rattle.hub_core.specs.HubCalls.{HasTurn, Does};

    /// Claims the next entry for the session of a seat.
    pub fn offer_now(&mut self, seat: u32, alloc: Global) -> Result<Offer, DeskFault>
        requires turn { HasTurn (S.stand self.old.store) (hub_state self.old.seats) seat }
        requires in_session { (seat_part (hub_state self.old.seats) seat).open_now ≡ true }
        requires free { (seat_part (hub_state self.old.seats) seat).claim ≡ None }
        ensures does { Does (S.stand self.old.store) (hub_state self.old.seats) seat Offer_call (offer_answer result) (S.stand self.new.store) (hub_state self.new.seats) }
        ensures limits { (c : Claim) → (seat_part (hub_state self.new.seats) seat).claim ≡ Some c → IsKey c.key }
    {
        let Some(mut session) = self.seats.take_session(seat) else {
            unreachable!();
        };
        let claimed = claim_next(&mut self.store, alloc, &mut self.claims, seat, &mut session);
        self.seats.put_session(seat, Some(session));
        match claimed {
            Ok(offer) => Ok(offer),
            Err(fault) => Err(refusal(&self.store, fault)),
        }
    }

    /// Reads the claimed entry of a seat's session from a place on, as many bytes as fit. It takes no memory.
    pub fn read_now(&mut self, seat: u32, at: u64, out: &mut [u8]) -> Result<usize, DeskFault>
        requires turn { HasTurn (S.stand self.old.store) (hub_state self.old.seats) seat }
        requires claimed { HasClaim (seat_part (hub_state self.old.seats) seat) }
        ensures does { Does (S.stand self.old.store) (hub_state self.old.seats) seat (Read_call at (length out.old)) (read_answer out.new result) (S.stand self.new.store) (hub_state self.new.seats) }
        ensures length { IfOk result (λ count. count ≡ min (length out.old) (size_in (seat_part (hub_state self.old.seats) seat).claim - at)) }
    {
        let Some(number) = self.seats.claimed(seat) else {
            unreachable!();
        };
        match read_entry(&mut self.store, number, at, out) {
            Ok(count) => Ok(count),
            Err(StoreFault::Read) => {
                self.seats.count_read(seat);
                Err(DeskFault::Read(self.store.faults()))
            }
            Err(StoreFault::Disk) => Err(DeskFault::Disk(self.store.faults())),
            Err(StoreFault::Full) => unreachable!(),
            Err(StoreFault::NoMemory) => unreachable!(),
        }
    }

    /// Settles the claimed entry of a seat's session. It takes no memory.
    pub fn got_now(&mut self, seat: u32) -> Result<(), DeskFault>
        requires turn { HasTurn (S.stand self.old.store) (hub_state self.old.seats) seat }
        requires claimed { HasClaim (seat_part (hub_state self.old.seats) seat) }
        ensures { Does (S.stand self.old.store) (hub_state self.old.seats) seat (Got_call (number_in (seat_part (hub_state self.old.seats) seat).claim)) (settled_answer result) (S.stand self.new.store) (hub_state self.new.seats) }
    {
        let Some(mut session) = self.seats.take_session(seat) else {
            unreachable!();
        };
        let settled = settle_claim(&mut self.store, &mut self.claims, &mut session);
        self.seats.put_session(seat, Some(session));
        match settled {
            Ok(()) => Ok(()),
            Err(fault) => Err(refusal(&self.store, fault)),
        }
    }

    /// Ends the claim of a seat's session, which offers the entry no more. It takes no memory, and works over a broken
    /// store too.
    pub fn skip_now(&mut self, seat: u32)
        requires ready { IsReady (S.stand self.old.store) (hub_state self.old.seats) seat }
        requires turn { (S.stand self.old.store).state.seat ≡ seat }
        requires claimed { HasClaim (seat_part (hub_state self.old.seats) seat) }
        ensures { Does (S.stand self.old.store) (hub_state self.old.seats) seat (Skip_call (number_in (seat_part (hub_state self.old.seats) seat).claim)) Settled (S.stand self.new.store) (hub_state self.new.seats) }
    {
        let Some(mut session) = self.seats.take_session(seat) else {
            unreachable!();
        };
        self.claims.remove(session.claimed());
        session.skip();
        self.seats.put_session(seat, Some(session));
        match self.store.broken() {
            None => give_place(&mut self.store),
            Some(_) => {}
        }
    }
}

//! Questions about the session of a desk: the conditions of its calls, for a caller that has to know that they are met.
ghost use Rattle.std.specs.Prelude.{◌≡◌, IsTrue, None};
ghost use Rattle.node_model.specs.Desks.{Fits, HasClaim};
ghost use Rattle.hub_core.specs.Hubs.{chair_of, hub_state, seat_part, sitting_part};

use crate::hub::HubDesk;
use crate::places::Place;
use node_model::Store;

impl<S: Store> HubDesk<S> {
    /// Whether a session is open at the seat.
    pub fn is_open(&self) -> bool
        ensures { result ≡ (seat_part (hub_state self.now.hub.seats) self.now.seat).open_now }
    {
        self.hub.session(self.seat).is_some()
    }

    /// Whether so many bytes more are taken of the file that the session holds.
    pub fn fits(&self, more: u64) -> bool
        ensures { IsTrue result → Fits (seat_part (hub_state self.now.hub.seats) self.now.seat) more }
    {
        match self.hub.seats.places.get(self.seat as usize) {
            Some(place) => fits_at(place, more),
            None => false,
        }
    }

    /// Whether the session has claimed no entry.
    pub fn is_free(&self) -> bool
        ensures { IsTrue result → (seat_part (hub_state self.now.hub.seats) self.now.seat).claim ≡ None }
    {
        match self.hub.seats.places.get(self.seat as usize) {
            Some(place) => is_free_at(place),
            None => false,
        }
    }

    /// Whether the session has claimed an entry.
    pub fn has_claim(&self) -> bool
        ensures { IsTrue result → HasClaim (seat_part (hub_state self.now.hub.seats) self.now.seat) }
    {
        match self.hub.seats.places.get(self.seat as usize) {
            Some(place) => has_claim_at(place),
            None => false,
        }
    }
}

fn fits_at(place: &Place, more: u64) -> bool
    ensures { IsTrue result → Fits (sitting_part (chair_of place.now).sitting) more }
{
    let Some(session) = &place.session else {
        return false;
    };
    let Some(taken) = &session.hold else {
        return false;
    };
    if taken.dropped || !taken.taking {
        return false;
    }
    more <= taken.key.size.saturating_sub(taken.have)
}

fn is_free_at(place: &Place) -> bool
    ensures { IsTrue result → (sitting_part (chair_of place.now).sitting).claim ≡ None }
{
    match &place.session {
        Some(session) => session.offers.claim.is_none(),
        None => true,
    }
}

fn has_claim_at(place: &Place) -> bool
    ensures { IsTrue result → HasClaim (sitting_part (chair_of place.now).sitting) }
{
    let Some(session) = &place.session else {
        return false;
    };
    match &session.offers.claim {
        Some(_claim) => true,
        None => false,
    }
}

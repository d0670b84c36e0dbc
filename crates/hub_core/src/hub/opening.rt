//! A hub is made over its store, gives seats, and gives its store back.
ghost use Rattle.std.specs.Prelude.{◌≡◌, ℕ, IfOk, OnOk, OnErr, false, None, option_map, length};
ghost use Rattle.ftn_addr.specs.Address.{address};
ghost use Rattle.node_model.specs.Node.{Settings};
ghost use Rattle.hub_core.specs.Anew.{LooksAnew, anew};
ghost use Rattle.hub_core.specs.Hubs.{IsReady, hub_state, seat_part, settings_of, sitting_at};
ghost use Rattle.hub_core.specs.Opening.{IsWhole, no_seats, shown, with_seat};

use super::Hub;
use crate::HubConf;
use crate::claim_index::ClaimIndex;
use crate::hold_index::HoldIndex;
use crate::places::{Place, Seats};
use ftn_addr::{Addr, NoMemory};
use node_model::Store;
use std::alloc::Global;

impl Seats {
    // One place more, which is empty, and its number.
    fn add_place(&mut self) -> Result<u32, NoMemory>
        ensures number { IfOk result (λ seat. seat ≡ length (hub_state self.old).chairs) }
        ensures ok { OnOk result (hub_state self.new ≡ with_seat (hub_state self.old)) }
        ensures err { OnErr result (hub_state self.new ≡ hub_state self.old) }
    {
        let Ok(seat) = u32::try_from(self.places.len()) else {
            return Err(NoMemory);
        };
        self.places.push(Place {
            busy: 0,
            reads: 0,
            session: None,
        })?;
        Ok(seat)
    }
}

impl<S: Store> Hub<S> {
    /// A hub of no seat over a store that has no open session.
    pub fn new(alloc: Global, store: S, conf: HubConf) -> Hub<S>
        ensures store { result.store ≡ store }
        ensures seats { hub_state result.seats ≡ no_seats (settings_of conf) }
    {
        Hub {
            store,
            seats: Seats {
                conf,
                places: Vec::new(alloc),
                begun: 0,
            },
            claims: ClaimIndex::new(alloc),
            holds: HoldIndex::new(alloc),
        }
    }

    /// One seat more, and its number. It is ready where the hub fits its store.
    pub fn seat(&mut self) -> Result<u32, NoMemory>
        ensures number { IfOk result (λ seat. seat ≡ length (hub_state self.old.seats).chairs) }
        ensures ok { OnOk result (hub_state self.new.seats ≡ with_seat (hub_state self.old.seats)) }
        ensures err { OnErr result (hub_state self.new.seats ≡ hub_state self.old.seats) }
        ensures store { self.new.store ≡ self.old.store }
        ensures ready { IfOk result (λ seat. IsWhole (S.stand self.old.store) (hub_state self.old.seats) → IsReady (S.stand self.new.store) (hub_state self.new.seats) seat) }
    {
        self.seats.add_place()
    }

    /// The peer's first address and the moment of the session that is open at a seat. It takes no memory.
    pub fn session(&self, seat: u32) -> Option<(&Addr, u64)>
        ensures { option_map (λ s. (address s.0.now, s.1)) result ≡ option_map shown (sitting_at (hub_state self.now.seats) seat) }
    {
        let place = self.seats.places.get(seat as usize)?;
        match &place.session {
            Some(open) => Some((&open.first, open.moment)),
            None => None,
        }
    }

    /// Each session looks for what it offers next from the start, as it has to where files were queued while it is open: they may stand
    /// before the place that it went on from. What was ready is so still. It takes steps in proportion to the seats.
    pub fn look_anew(&mut self)
        ensures seats { hub_state self.new.seats ≡ anew (hub_state self.old.seats) }
        ensures anew { LooksAnew (hub_state self.new.seats) }
        ensures store { self.new.store ≡ self.old.store }
        ensures ready { (seat : ℕ) → IsReady (S.stand self.old.store) (hub_state self.old.seats) seat → IsReady (S.stand self.new.store) (hub_state self.new.seats) seat }
    {
        self.seats.look_anew();
    }

    /// The store, where the sessions left it. It fits a new hub, with any settings.
    #[tactic(auto, using(crate::proofs::Closing::ready_whole))]
    pub fn into_store(self) -> S
        ensures store { result ≡ self.store }
        ensures whole { (seat : ℕ) → IsReady (S.stand self.store) (hub_state self.seats) seat → (settings : Settings) → IsWhole (S.stand result) (no_seats settings) }
    {
        let Hub {
            store,
            seats: _,
            claims: _,
            holds: _,
        } = self;
        store
    }
}

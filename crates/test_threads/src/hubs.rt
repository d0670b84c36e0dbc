ghost use Rattle.std.specs.Prelude.{◌≡◌, ◌<◌, ℕ, Some, IfOk, IfSome, slice_index_or, vec_len};
ghost use Rattle.hub_core.specs.Hubs.{IsReady, hub_state};
ghost use Rattle.mem_shared.specs.Sights.{sight_by};
ghost use Rattle.mem_store.specs.ListStates.{stand_of};
ghost use Rattle.turn_gate.specs.Passes.{IsNew, opening, seats_of};

use ftn_addr::NoMemory;
use hub_core::{Hub, HubConf, HubDesk};
use mem_shared::RoundDesk;
use mem_store::ListStore;
use std::alloc::Global;
use turn_gate::{Gate, Pass};

// How many seats a hub of the tests has: the node's own, and two for sessions.
pub const SEATS: u32 = 3;

// The desk of a hub over a new store.
fn new_desk(alloc: Global) -> Result<RoundDesk, NoMemory>
    ensures { IfOk result (λ d. (k : ℕ) → k < SEATS → IsReady (stand_of d.desk.hub.store) (hub_state d.desk.hub.seats) k) }
{
    let conf = HubConf {
        max_servers: 100,
        refuse_names: Vec::new(alloc),
        refuse_over: u64::MAX,
    };
    let mut hub = Hub::new(alloc, ListStore::new(alloc), conf);
    let _own = hub.seat()?;
    let _first = hub.seat()?;
    let seat = hub.seat()?;
    Ok(RoundDesk {
        desk: HubDesk { hub, seat },
    })
}

// A gate over such a hub, and its passes, where there is memory.
pub fn new_gate(alloc: Global) -> Option<(Gate<RoundDesk>, Vec<Pass<RoundDesk>>)>
    ensures count { IfSome result (λ r. (vec_len r.1 ≡ SEATS) × (seats_of r.0 ≡ SEATS)) }
    ensures new { IfSome result (λ r. (k : ℕ) (d : _) → k < vec_len r.1 → IsNew r.0 k (slice_index_or r.1.items k d)) }
    ensures ready { IfSome result (λ r. (k : ℕ) → k < vec_len r.1 → (sight_by (λ h. stand_of h.store) (λ h. hub_state h.seats)).ready k (opening (λ d. Some d.desk.hub) r.0)) }
{
    let Ok(desk) = new_desk(alloc) else {
        return None;
    };
    match Gate::new(alloc, desk, SEATS) {
        Ok(made) => Some(made),
        Err(_) => None,
    }
}

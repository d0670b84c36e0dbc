ghost use Rattle.std.specs.Prelude.{◌≡◌, ◌<◌, ◌≤◌, ℕ, All, Some, IfOk, IfSome, true};
ghost use Rattle.disk_model.specs.Changes.{Every};
ghost use Rattle.disk_model.specs.Moments.{Now};
ghost use Rattle.ftn_addr.specs.Address.{address};
ghost use Rattle.ftn_addr.specs.Limits.{IsAddress};
ghost use Rattle.hub_core.specs.Opening.{IsWhole, no_seats};
ghost use Rattle.node_model.specs.Node.{Settings};
ghost use Rattle.node_store.specs.Opening.{IsReady};
ghost use Rattle.node_store.specs.Stored.{stand_of};
ghost use Rattle.outbound_desk.specs.Roaming.{line_sight};
ghost use Rattle.test_roaming.specs.Resting.{IsFresh, Rests};

use disk_model::Yard;
use ftn_addr::{Addr, Bytes, NoMemory};
use hub_core::{Hub, HubConf, HubDesk};
use mem_node::{Resting, disk_with};
use node_store::NodeStore;
use outbound_desk::{DeskOutbound, LineDesk};
use outbound_store::TakingStore;
use std::alloc::Global;
use turn_gate::{Gate, Pass};

/// The desk that goes from seat to seat.
pub type Roamer<D> = LineDesk<TakingStore<D>>;

// An address of fidonet.
fn addr(alloc: Global, net: u16, node: u16) -> Result<Addr, NoMemory>
    requires net { net ≤ 32767 }
    requires node { node ≤ 32767 }
    ensures { IfOk result (λ addr. IsAddress (address addr)) }
{
    Ok(Addr {
        zone: 2,
        net,
        node,
        point: 0,
        domain: Bytes::from_slice(alloc, b"fidonet")?,
    })
}

/// The one peer of the tests.
pub fn peer(alloc: Global) -> Result<Addr, NoMemory>
    ensures { IfOk result (λ addr. IsAddress (address addr)) }
{
    addr(alloc, 5020, 1042)
}

/// A disk at rest, in whose outbound a file waits for the peer.
pub fn disk_with_file(alloc: Global) -> Result<Resting, NoMemory> {
    disk_with(
        alloc,
        &[
            (b"out/139c0412.flo", b"in/a.txt\n"),
            (b"in/a.txt", b"hello"),
        ],
    )
}

// The outbound of the node 2:5047/13, in the folder out.
fn outbound_of(alloc: Global) -> Result<DeskOutbound, NoMemory>
    ensures { IfOk result (λ outbound. IsAddress (address outbound.home)) }
{
    Ok(DeskOutbound {
        home: addr(alloc, 5047, 13)?,
        base: Bytes::from_slice(alloc, b"out")?,
        zone: 2,
        folders: Vec::new(alloc),
    })
}

// The store of a disk.
fn store_of<D: Yard + Drop>(alloc: Global, disk: D, home: &Addr) -> Option<NodeStore<D>>
    requires ready { D.tells ≡ true → Every (Now D.moment D.images disk) (IsReady (D.content disk)) }
    ensures { IfSome result (λ store. (settings : Settings) → IsWhole (stand_of D.tells D.content D.fault_count D.moment D.images store) (no_seats settings)) }
{
    match NodeStore::open(alloc, disk, home) {
        Ok((store, _recovery)) => {
            store.opens_as_told();
            store.opens_soundly();
            Some(store)
        }
        Err(_) => None,
    }
}

// The second of two seats of a hub over that store.
fn desk_over<D: Yard + Drop>(
    alloc: Global,
    conf: HubConf,
    outbound: DeskOutbound,
    store: NodeStore<D>,
) -> Result<Roamer<D>, NoMemory>
    requires home { IsAddress (address outbound.home) }
    requires fits { (settings : Settings) → IsWhole (stand_of D.tells D.content D.fault_count D.moment D.images store) (no_seats settings) }
    ensures { IfOk result (λ d. (k : ℕ) → k < 2 → Rests (line_sight D.tells D.content D.fault_count D.moment D.images) k (Some (d.desk.hub, d.outbound))) }
{
    let mut hub = Hub::new(alloc, TakingStore::new(store), conf);
    let _first = hub.seat()?;
    let seat = hub.seat()?;
    Ok(LineDesk {
        desk: HubDesk { hub, seat },
        outbound,
        alloc,
    })
}

// A gate over such a desk, and its two passes.
fn gate_over<D: Yard + Drop>(
    alloc: Global,
    desk: Roamer<D>,
) -> Option<(Gate<Roamer<D>>, Vec<Pass<Roamer<D>>>)>
    requires rests { (k : ℕ) → k < 2 → Rests (line_sight D.tells D.content D.fault_count D.moment D.images) k (Some (desk.desk.hub, desk.outbound)) }
    ensures { IfSome result (λ r. All (IsFresh (line_sight D.tells D.content D.fault_count D.moment D.images) r.0) r.1.items) }
{
    match Gate::new(alloc, desk, 2) {
        Ok(made) => Some(made),
        Err(_) => None,
    }
}

/// A gate over a hub of two seats over the store of a disk, and the passes of both; where there is memory.
pub fn shared_hub<D: Yard + Drop>(
    alloc: Global,
    disk: D,
) -> Option<(Gate<Roamer<D>>, Pass<Roamer<D>>, Pass<Roamer<D>>)>
    requires ready { D.tells ≡ true → Every (Now D.moment D.images disk) (IsReady (D.content disk)) }
    ensures { IfSome result (λ r. IsFresh (line_sight D.tells D.content D.fault_count D.moment D.images) r.0 r.1 × IsFresh (line_sight D.tells D.content D.fault_count D.moment D.images) r.0 r.2) }
{
    let conf = HubConf {
        max_servers: 100,
        refuse_names: Vec::new(alloc),
        refuse_over: u64::MAX,
    };
    let Ok(outbound) = outbound_of(alloc) else {
        return None;
    };
    let store = store_of(alloc, disk, &outbound.home)?;
    let Ok(desk) = desk_over(alloc, conf, outbound, store) else {
        return None;
    };
    let (gate, mut passes) = gate_over(alloc, desk)?;
    let second = passes.pop()?;
    let first = passes.pop()?;
    Some((gate, first, second))
}

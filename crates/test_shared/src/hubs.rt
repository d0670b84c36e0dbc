ghost use Rattle.std.specs.Prelude.{◌≡◌, ◌≤◌, ◌<◌, ◌∷◌, [], ℕ, Some, IfOk, IfSome, slice_index_or, vec_len};
ghost use Rattle.ftn_addr.specs.Address.{address};
ghost use Rattle.ftn_addr.specs.Limits.{IsAddress};
ghost use Rattle.hub_core.specs.Hubs.{hub_state};
ghost use Rattle.mem_store.specs.ListStates.{stand_of};
ghost use Rattle.node_model.specs.StoreWords.{FitsQueue, entry_of};
ghost use Rattle.test_shared.specs.Fitting.{FitsHub, StaysFit};
ghost use Rattle.test_shared.specs.Resting.{IsFresh, Rests};
ghost use Rattle.mem_shared.specs.Sights.{sight_by};

use ftn_addr::{Action, Addr, Bytes, FileKey, NoMemory};
use hub_core::{Hub, HubConf, HubDesk};
use mem_shared::RoundDesk;
use mem_store::ListStore;
use node_model::{Flavour, NewFile, Slot, Store, StoreFault};
use std::alloc::Global;
use std::slice;
use turn_gate::{Gate, Pass};

// The one peer of the tests.
pub fn peer(alloc: Global) -> Result<Addr, NoMemory>
    ensures { IfOk result (λ addr. IsAddress (address addr)) }
{
    Ok(Addr {
        zone: 2,
        net: 5020,
        node: 1042,
        point: 0,
        domain: Bytes::from_slice(alloc, b"fidonet")?,
    })
}

// A file of five bytes for it.
fn new_file(alloc: Global) -> Result<NewFile, NoMemory>
    ensures { IfOk result (λ file. FitsQueue (entry_of file)) }
{
    Ok(NewFile {
        number: 1,
        dest: peer(alloc)?,
        key: FileKey {
            name: Bytes::from_slice(alloc, b"a.txt")?,
            size: 5,
            time: 1_000_000_000,
        },
        source: Bytes::new(alloc),
        action: Action::Leave,
        flavour: Flavour::Crash,
    })
}

// Queues a staged file; none where the conditions of the call aren't met.
fn queue_staged(
    alloc: Global,
    store: &mut ListStore,
    file: &NewFile,
) -> Result<Option<Vec<Slot>>, StoreFault>
    requires { FitsQueue (entry_of file.now) }
    ensures { IfOk result (λ slots. file.now.number ≤ (stand_of store.old).state.staged → StaysFit store.old store.new) }
{
    if store.broken().is_some() || !store.is_batch(file) {
        return Ok(None);
    }
    let slots = store.queue_all(alloc, None, None, slice::from_ref(file))?;
    Ok(Some(slots))
}

// Stages the file's bytes, and queues it.
fn queue_bytes(
    alloc: Global,
    store: &mut ListStore,
    file: &mut NewFile,
) -> Result<Option<Vec<Slot>>, StoreFault>
    requires { FitsQueue (entry_of file.old) }
    ensures { IfOk result (λ slots. StaysFit store.old store.new) }
{
    if store.broken().is_some() {
        return Ok(None);
    }
    file.number = store.stage(alloc, b"hello")?;
    queue_staged(alloc, store, file)
}

// A store that has the file queued, where there is memory.
fn queued_store(alloc: Global) -> Option<ListStore>
    ensures { IfSome result FitsHub }
{
    let mut file = new_file(alloc).ok()?;
    let mut store = ListStore::new(alloc);
    match queue_bytes(alloc, &mut store, &mut file) {
        Ok(_) => Some(store),
        Err(_) => None,
    }
}

// The second of two seats of a hub over that store.
fn round_over(alloc: Global, conf: HubConf, store: ListStore) -> Result<RoundDesk, NoMemory>
    requires { FitsHub store }
    ensures { IfOk result (λ d. (k : ℕ) → k < 2 → Rests (sight_by (λ h. stand_of h.store) (λ h. hub_state h.seats)) k (Some d.desk.hub)) }
{
    let mut hub = Hub::new(alloc, store, conf);
    let _first = hub.seat()?;
    let seat = hub.seat()?;
    Ok(RoundDesk {
        desk: HubDesk { hub, seat },
    })
}

// A gate over a hub of two seats, which has a file queued for the peer, and both passes; where there is memory.
pub fn shared_hub(alloc: Global) -> Option<(Gate<RoundDesk>, Vec<Pass<RoundDesk>>)>
    ensures { IfSome result (λ r. (vec_len r.1 ≡ 2) × ((k : ℕ) (d : _) → k < 2 → IsFresh (sight_by (λ h. stand_of h.store) (λ h. hub_state h.seats)) r.0 (slice_index_or r.1.items k d))) }
{
    let conf = HubConf {
        max_servers: 100,
        refuse_names: Vec::new(alloc),
        refuse_over: u64::MAX,
    };
    let store = queued_store(alloc)?;
    let Ok(desk) = round_over(alloc, conf, store) else {
        return None;
    };
    match Gate::new(alloc, desk, 2) {
        Ok(made) => Some(made),
        Err(_) => None,
    }
}

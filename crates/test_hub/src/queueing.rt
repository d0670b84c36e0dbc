//! Files are staged and queued.
ghost use Rattle.std.specs.Prelude.{◌≡◌, ◌≤◌, ◌∷◌, [], IfOk};
ghost use Rattle.node_model.specs.StoreWords.{FitsQueue, entry_of};
ghost use Rattle.mem_store.specs.ListStates.{stand_of};
ghost use Rattle.test_hub.specs.Fitting.{StaysFit};

use mem_store::ListStore;
use node_model::{NewFile, Slot, Staged, Store, StoreFault};
use std::alloc::Global;
use std::slice;

/// How files were queued; none where the conditions of the call aren't met.
pub type Queued = Result<Option<Vec<Slot>>, StoreFault>;

// Queues a staged file.
fn queue_staged(alloc: Global, store: &mut ListStore, file: &NewFile) -> Queued
    requires { FitsQueue (entry_of file.now) }
    ensures { IfOk result (λ slots. file.now.number ≤ (stand_of store.old).state.staged → StaysFit store.old store.new) }
{
    if store.broken().is_some() || !store.is_batch(file) {
        return Ok(None);
    }
    let slots = store.queue_all(alloc, None, None, slice::from_ref(file))?;
    Ok(Some(slots))
}

/// Stages these bytes, and queues them as that file.
pub fn queue_bytes(alloc: Global, store: &mut ListStore, file: &mut NewFile, bytes: &[u8]) -> Queued
    requires { FitsQueue (entry_of file.old) }
    ensures { IfOk result (λ slots. StaysFit store.old store.new) }
{
    if store.broken().is_some() {
        return Ok(None);
    }
    file.number = store.stage(alloc, bytes)?;
    queue_staged(alloc, store, file)
}

/// Copies the file's source in, and queues that.
pub fn queue_copy(alloc: Global, store: &mut ListStore, file: &mut NewFile) -> Queued
    requires { FitsQueue (entry_of file.old) }
{
    if store.broken().is_some() {
        return Ok(None);
    }
    let Staged::Copied(number, _) = store.stage_copy(alloc, &file.source)? else {
        return Ok(None);
    };
    file.number = number;
    queue_staged(alloc, store, file)
}

//! Reading a take whole.
ghost use Rattle.std.specs.Prelude.{◌≡◌, IfOk, IsSome, None, true};
ghost use Rattle.node_model.specs.StoreStates.{IfTold};
ghost use Rattle.node_store.specs.Asking.{Asks};
ghost use Rattle.node_store.specs.Names.{take_number};
ghost use Rattle.node_store.specs.Stored.{stand_of};
ghost use Rattle.node_store.specs.Worlds.{bytes_of};

use disk_model::{Name, Yard};
use ftn_addr::Bytes;
use node_model::StoreFault;
use node_store::NodeStore;
use std::alloc::Global;

/// How many bytes of a take are read at once.
const PIECE: usize = 4_096;

/// The bytes of a take, from its first to its last.
pub(crate) fn read_whole<D: Yard>(
    store: &mut NodeStore<D>,
    alloc: Global,
    own: &Name,
) -> Result<Bytes, StoreFault>
    requires whole { store.old.memory.broken ≡ None }
    requires take { IsSome (take_number own.now) }
    ensures asks { Asks true result (stand_of D.tells D.content D.fault_count D.moment D.images store.old) (stand_of D.tells D.content D.fault_count D.moment D.images store.new) }
    ensures told { IfOk result (λ bytes. IfTold (stand_of D.tells D.content D.fault_count D.moment D.images store.old).state.content (λ s. bytes.list ≡ bytes_of (s.takes own.now))) }
    ensures takes { store.new.takes ≡ store.old.takes }
{
    store.now_is_told();
    let mut bytes = Bytes::new(alloc);
    let mut piece = [0; PIECE];
    'pieces: loop {
        let count = match store.read_take(own, bytes.len() as u64, &mut piece) {
            Ok(count) => count,
            Err(fault) => return Err(fault),
        };
        if let Err(_) = bytes.push_slice(&piece[..count]) {
            return Err(StoreFault::NoMemory);
        }
        if count < PIECE {
            return Ok(bytes);
        }
    }
}

//! The store of a node over a disk in memory.
ghost use Rattle.std.specs.Prelude.{◌≡◌, ◌≤◌, IfOk, None};
ghost use Rattle.ftn_addr.specs.Address.{address};
ghost use Rattle.ftn_addr.specs.Limits.{IsAddress};
ghost use Rattle.node_store.specs.Finding.{IsNewMemory};

use crate::resting::Resting;
use ftn_addr::{Addr, Bytes, Failed, NoMemory};
use mem_disk::MemDisk;
use node_store::{NodeStore, Recovery, StoreOpenFault};
use std::alloc::Global;
use std::test::Fail;

/// What an opening answers. The store stands in a box: proofs about a value that is handed on are much shorter then.
pub(crate) type Opening = Result<(Box<NodeStore<MemDisk>>, Recovery), (MemDisk, StoreOpenFault)>;

/// The address of a node of fidonet, or of a point of it.
pub(crate) fn addr(
    alloc: Global,
    zone: u16,
    net: u16,
    node: u16,
    point: u16,
) -> Result<Addr, NoMemory>
    requires zone { zone ≤ 32767 }
    requires net { net ≤ 32767 }
    requires node { node ≤ 32767 }
    requires point { point ≤ 32767 }
    ensures { IfOk result (λ addr. IsAddress (address addr)) }
{
    Ok(Addr {
        zone,
        net,
        node,
        point,
        domain: Bytes::from_slice(alloc, b"fidonet")?,
    })
}

/// The address of the node: 2:5020/1042@fidonet.
pub(crate) fn home(alloc: Global) -> Result<Addr, NoMemory>
    ensures { IfOk result (λ addr. IsAddress (address addr)) }
{
    addr(alloc, 2, 5020, 1042, 0)
}

/// The address of its peer: 2:5047/13@fidonet.
pub(crate) fn peer(alloc: Global) -> Result<Addr, NoMemory>
    ensures { IfOk result (λ addr. IsAddress (address addr)) }
{
    addr(alloc, 2, 5047, 13, 0)
}

/// The store of the node over a disk that rests, and what its opening found. A fault gives the disk back.
#[tactic(auto, using(crate::proofs::Whole::new_whole))]
pub(crate) fn open_store(alloc: Global, disk: Resting) -> Result<Opening, NoMemory>
    ensures new { IfOk result (λ opening. IfOk opening (λ x. IsNewMemory x.0.value.memory)) }
    ensures whole { IfOk result (λ opening. IfOk opening (λ x. x.0.value.memory.broken ≡ None)) }
{
    let home = home(alloc)?;
    match NodeStore::open(alloc, disk.into_ready(), &home) {
        Ok((store, recovery)) => Ok(Ok((Box::new(alloc, store)?, recovery))),
        Err(fault) => Ok(Err(fault)),
    }
}

/// The store of the node over a disk that rests.
pub(crate) fn opened(alloc: Global, disk: Resting) -> Result<Box<NodeStore<MemDisk>>, Fail>
    ensures new { IfOk result (λ store. IsNewMemory store.value.memory) }
    ensures whole { IfOk result (λ store. store.value.memory.broken ≡ None) }
{
    match open_store(alloc, disk)? {
        Ok((store, _recovery)) => Ok(store),
        Err(_) => Err(Failed.into()),
    }
}

//! Outside files that a store takes, over a disk in memory.
ghost use Rattle.std.specs.Prelude.{◌≡◌, ◌≤◌, IfOk, None, OnOk, Some};
ghost use Rattle.ftn_addr.specs.Address.{address};
ghost use Rattle.ftn_addr.specs.Limits.{IsAddress};
ghost use Rattle.node_store.specs.Names.{take_number};

use crate::resting::Resting;
use crate::store::{home, open_store, opened};
use disk_model::{Moved, Name, OutStat};
use ftn_addr::{Addr, Bytes, Failed, NoMemory};
use mem_disk::MemDisk;
use node_model::{Flavour, StoreFault};
use node_store::{NodeStore, TakeKind, TakeName, take_file, take_is_read};
use std::alloc::Global;
use std::test::Fail;

// The name of a take: a normal flow file for a node.
fn own_of(take: u32, addr: &Addr) -> Name
    requires one { 1 ≤ take }
    requires addr { IsAddress (address addr.now) }
    ensures { take_number result ≡ Some take }
{
    take_is_read();
    take_file(take, addr, TakeKind::Flow(Flavour::Normal))
}

// Takes an outside file under the next number, as a normal flow file for a node, and answers that number and whether there was one.
fn take_next(
    store: &mut NodeStore<MemDisk>,
    path: &Bytes,
    addr: &Addr,
) -> Result<(u32, Moved), StoreFault>
    requires whole { store.old.memory.broken ≡ None }
    requires addr { IsAddress (address addr.now) }
    ensures whole { OnOk result (store.new.memory.broken ≡ None) }
    ensures one { IfOk result (λ taken. 1 ≤ taken.0) }
{
    let take = store.next_take()?;
    let own = own_of(take, addr);
    let moved = store.take_file(path, &own)?;
    Ok((take, moved))
}

/// The takes that stand.
pub(crate) fn left_of(
    alloc: Global,
    store: &NodeStore<MemDisk>,
) -> Result<Vec<TakeName>, NoMemory> {
    Ok(Vec::from_slice(alloc, store.takes_left())?)
}

/// What was taken of an outside file: the number drawn, whether there was one, and the takes that stand then.
pub type Took = (u32, Moved, Vec<TakeName>);

// Takes an outside file in a store. None where the store doesn't take it.
fn take_in_store(
    alloc: Global,
    store: &mut NodeStore<MemDisk>,
    path: &Bytes,
) -> Result<Option<Took>, NoMemory>
    requires { store.old.memory.broken ≡ None }
{
    let home = home(alloc)?;
    let Ok((take, moved)) = take_next(store, path, &home) else {
        return Ok(None);
    };
    let left = left_of(alloc, store)?;
    Ok(Some((take, moved, left)))
}

/// Takes the outside file of that path, as a normal flow file for 2:5020/1042, and gives the disk back. Nothing is told where the
/// store isn't opened or doesn't take it.
pub fn take_once(
    alloc: Global,
    disk: Resting,
    path: &[u8],
) -> Result<(Option<Took>, MemDisk), NoMemory> {
    let path = Bytes::from_slice(alloc, path)?;
    match open_store(alloc, disk)? {
        Ok((mut store, _recovery)) => {
            let took = take_in_store(alloc, &mut store, &path)?;
            Ok((took, Box::into_inner(store).into_disk()))
        }
        Err((disk, _fault)) => Ok((None, disk)),
    }
}

/// How many takes an opening finds that wait, and how many files it removes; the takes that stand; and the disk.
pub fn found(alloc: Global, disk: Resting) -> Result<((u32, u32), Vec<TakeName>, MemDisk), Fail> {
    let Ok((store, recovery)) = open_store(alloc, disk)? else {
        return Err(Failed.into());
    };
    let counts = (recovery.takes, recovery.removed);
    let left = left_of(alloc, &store)?;
    Ok((counts, left, Box::into_inner(store).into_disk()))
}

/// What the store says of an outside file.
pub fn seen(alloc: Global, disk: Resting, path: &[u8]) -> Result<Option<OutStat>, Fail> {
    let path = Bytes::from_slice(alloc, path)?;
    let mut store = opened(alloc, disk)?;
    match store.look(&path) {
        Ok(stat) => Ok(stat),
        Err(_) => Err(Failed.into()),
    }
}

/// The names that the store tells of an outside folder.
pub fn listed(alloc: Global, disk: Resting, folder: &[u8]) -> Result<Vec<Bytes>, Fail> {
    let folder = Bytes::from_slice(alloc, folder)?;
    let mut store = opened(alloc, disk)?;
    match store.names(&folder) {
        Ok(names) => Ok(names),
        Err(_) => Err(Failed.into()),
    }
}

// Takes an outside file in a store, and reads it from a place on, as many bytes as there is room for: how many came. None where the
// store doesn't take or read it.
fn read_in_store(
    store: &mut NodeStore<MemDisk>,
    path: &Bytes,
    addr: &Addr,
    at: u64,
    bytes: &mut [u8],
) -> Option<usize>
    requires whole { store.old.memory.broken ≡ None }
    requires addr { IsAddress (address addr.now) }
{
    let Ok((take, Moved::Done)) = take_next(store, path, addr) else {
        return None;
    };
    let own = own_of(take, addr);
    store.read_take(&own, at, bytes).ok()
}

/// Takes the outside file of that path, and reads it from a place on, as many bytes as there is room for.
pub fn read_once(
    alloc: Global,
    disk: Resting,
    path: &[u8],
    at: u64,
    room: usize,
) -> Result<Vec<u8>, Fail> {
    let path = Bytes::from_slice(alloc, path)?;
    let home = home(alloc)?;
    let mut bytes = vec![in alloc; 0u8; room]?;
    let mut store = opened(alloc, disk)?;
    let count = read_in_store(&mut store, &path, &home, at, &mut bytes).ok_or(Failed)?;
    bytes.truncate(count);
    Ok(bytes)
}

//! The take-in of one address, over the store of a disk in memory.
ghost use Rattle.std.specs.Prelude.{◌≡◌, ◌≤◌, IfOk, None};
ghost use Rattle.ftn_addr.specs.Address.{address};
ghost use Rattle.ftn_addr.specs.Limits.{IsAddress};

use crate::resting::Resting;
use crate::store::{addr, home, open_store, opened};
use ftn_addr::{Addr, Bytes, NoMemory};
use mem_disk::MemDisk;
use node_store::NodeStore;
use outbound_intake::{OutboundAt, take_in};
use outbound_lines::list_lines;
use outbound_store::TakingStore;
use outbound_take::{TakeFault, Taken};
use std::alloc::Global;
use std::test::Fail;

/// What a take-in answered, and the disk behind it.
pub type Intake = (Result<Taken, TakeFault>, MemDisk);

// The take-in of an address in a store.
fn take_in_store(
    alloc: Global,
    store: Box<NodeStore<MemDisk>>,
    dest: &Addr,
) -> Result<Intake, NoMemory>
    requires whole { store.value.memory.broken ≡ None }
    requires address { IsAddress (address dest.now) }
{
    let home = home(alloc)?;
    let base = Bytes::from_slice(alloc, b"out")?;
    let mut taking = TakingStore::new(Box::into_inner(store));
    taking.now_is_told();
    let outbound = OutboundAt {
        home: &home,
        base: &base,
        zone: 2,
    };
    let taken = take_in(&mut taking, alloc, &outbound, dest, 1_000_000_000);
    Ok((taken, taking.into_store().into_disk()))
}

/// Takes in the outbound `out` for the node 5047/13 of that zone, or for a point of it. None where no store is opened.
pub fn take_in_once(
    alloc: Global,
    disk: Resting,
    zone: u16,
    point: u16,
) -> Result<Option<Intake>, NoMemory>
    requires zone { zone ≤ 32767 }
    requires point { point ≤ 32767 }
{
    let dest = addr(alloc, zone, 5047, 13, point)?;
    let Ok((store, _recovery)) = open_store(alloc, disk)? else {
        return Ok(None);
    };
    Ok(Some(take_in_store(alloc, store, &dest)?))
}

/// How many files the store has queued.
pub fn queue_of(alloc: Global, disk: Resting) -> Result<usize, Fail> {
    let store = opened(alloc, disk)?;
    Ok(store.state().queue().len())
}

/// What `list` tells of the store.
pub(crate) fn list_of(alloc: Global, disk: Resting) -> Result<Bytes, Fail> {
    let store = opened(alloc, disk)?;
    Ok(list_lines(alloc, store.state())?)
}

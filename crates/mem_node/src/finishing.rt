//! Takes that stand: they are staged, recorded and removed, over a disk in memory.
ghost use Rattle.std.specs.Prelude.{◌≡◌, IfSome, None, OnOk};
ghost use Rattle.mem_node.specs.Left.{IsOneLeft, told_state};

use crate::resting::Resting;
use crate::store::{open_store, opened};
use crate::takes::left_of;
use ftn_addr::{Failed, NoMemory};
use mem_disk::MemDisk;
use node_model::StoreFault;
use node_store::{NodeStore, TakeName};
use std::alloc::Global;
use std::test::Fail;

// The first take that stands.
fn first_left(store: &NodeStore<MemDisk>) -> Option<TakeName>
    requires { store.now.memory.broken ≡ None }
    ensures { IfSome result (λ take. IsOneLeft take (told_state store.now)) }
{
    store.takes_left().first().copied()
}

// Stages the first take that stands.
fn stage_first(store: &mut NodeStore<MemDisk>) -> Result<Option<(u32, u64)>, StoreFault>
    requires { store.old.memory.broken ≡ None }
{
    let Some(first) = first_left(store) else {
        return Ok(None);
    };
    let staged = store.stage_own(&first.own)?;
    Ok(Some(staged))
}

/// The number and the length under which the first take that stands is staged, and the disk.
pub fn staged(alloc: Global, disk: Resting) -> Result<((u32, u64), MemDisk), Fail> {
    let mut store = opened(alloc, disk)?;
    let Ok(Some(staged)) = stage_first(&mut store) else {
        return Err(Failed.into());
    };
    Ok((staged, Box::into_inner(store).into_disk()))
}

// Records the first take that stands, without a file. Answers whether it wasn't recorded yet.
fn record_first(alloc: Global, store: &mut NodeStore<MemDisk>) -> Result<bool, StoreFault>
    requires { store.old.memory.broken ≡ None }
    ensures { OnOk result (store.new.memory.broken ≡ None) }
{
    let Some(first) = first_left(store) else {
        return Ok(false);
    };
    if first.recorded || first.take == 0 {
        return Ok(false);
    }
    store.queue_all(alloc, Some(first.take), None, &[])?;
    Ok(true)
}

// Removes the first take that stands. Answers whether it was recorded.
fn finish_first(store: &mut NodeStore<MemDisk>) -> Result<bool, StoreFault>
    requires { store.old.memory.broken ≡ None }
{
    let Some(first) = first_left(store) else {
        return Ok(false);
    };
    if !first.recorded {
        return Ok(false);
    }
    store.finish_take(&first.own)?;
    Ok(true)
}

/// The takes that stand once the first of them is recorded, and those once it is removed.
pub type Finished = (Vec<TakeName>, Vec<TakeName>);

fn finish_in_store(
    alloc: Global,
    store: &mut NodeStore<MemDisk>,
) -> Result<Option<Finished>, NoMemory>
    requires { store.old.memory.broken ≡ None }
{
    let Ok(true) = record_first(alloc, store) else {
        return Ok(None);
    };
    let recorded = left_of(alloc, store)?;
    let Ok(true) = finish_first(store) else {
        return Ok(None);
    };
    let left = left_of(alloc, store)?;
    Ok(Some((recorded, left)))
}

/// Records the first take that stands, without a file, and then removes it. It gives the disk back. Nothing is told where the store
/// isn't opened, or doesn't do both.
pub fn finish_once(alloc: Global, disk: Resting) -> Result<(Option<Finished>, MemDisk), NoMemory> {
    match open_store(alloc, disk)? {
        Ok((mut store, _recovery)) => {
            let finished = finish_in_store(alloc, &mut store)?;
            Ok((finished, Box::into_inner(store).into_disk()))
        }
        Err((disk, _fault)) => Ok((None, disk)),
    }
}

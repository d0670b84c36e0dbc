//! Sources of queued files, and what is done to them once those are sent, over a disk in memory.
ghost use Rattle.std.specs.Prelude.{◌≡◌, ◌≤◌, length};
ghost use Rattle.ftn_addr.specs.Address.{address};
ghost use Rattle.ftn_addr.specs.Limits.{IsAddress};
ghost use Rattle.node_store.specs.Finding.{IsNewMemory};

use crate::resting::{Resting, reopened};
use crate::store::{opened, peer};
use ftn_addr::{Action, Addr, Bytes, Failed, FileKey};
use mem_disk::MemDisk;
use node_model::{Flavour, NewFile, Staged, StoreFault};
use node_store::NodeStore;
use std::alloc::Global;
use std::test::Fail;

/// What the store answers where it is to act on the next source of a file for 2:5047/13; and the disk.
pub fn act_once(
    alloc: Global,
    disk: Resting,
) -> Result<(Result<Option<u32>, StoreFault>, MemDisk), Fail> {
    let dest = peer(alloc)?;
    let mut store = opened(alloc, disk)?;
    let acted = store.act_next(&dest);
    Ok((acted, Box::into_inner(store).into_disk()))
}

// Stages a copy of an outside file in a store that was just opened, and queues it with that action on its source.
fn queue_copy(
    alloc: Global,
    store: &mut NodeStore<MemDisk>,
    dest: Addr,
    path: Bytes,
    action: Action,
) -> Result<bool, StoreFault>
    requires new { IsNewMemory store.old.memory }
    requires dest { IsAddress (address dest) }
    requires path { length path.list ≤ 200 }
{
    store.opens_soundly();
    let Staged::Copied(number, stat) = store.stage_copy(&path)? else {
        return Ok(false);
    };
    if path.is_empty() {
        return Ok(false);
    }
    let file = NewFile {
        number,
        dest,
        key: FileKey {
            name: path.copy(alloc)?,
            size: stat.size,
            time: stat.time,
        },
        source: path,
        action,
        flavour: Flavour::Normal,
    };
    store.queue_all(alloc, None, None, &[file])?;
    Ok(true)
}

/// A disk on which the outside file of that path is queued for 2:5047/13 under its path, with that action on it.
pub fn with_source(
    alloc: Global,
    disk: Resting,
    path: &[u8],
    action: Action,
) -> Result<Resting, Fail> {
    if 200 < path.len() {
        return Err(Failed.into());
    }
    let dest = peer(alloc)?;
    let path = Bytes::from_slice(alloc, path)?;
    let mut store = opened(alloc, disk)?;
    let Ok(true) = queue_copy(alloc, &mut store, dest, path, action) else {
        return Err(Failed.into());
    };
    Ok(reopened(Box::into_inner(store).into_disk())?)
}

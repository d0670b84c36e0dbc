//! Busy marks of 2:5047/13 in an outbound (FTS-5005), made and taken away through a store over a disk in memory.
ghost use Rattle.std.specs.Prelude.{◌≡◌, None, true};
ghost use Rattle.node_store.specs.Names.{is_note};

use crate::resting::Resting;
use crate::store::{opened, peer};
use disk_model::{Marking, Name};
use ftn_addr::{Bytes, Failed};
use mem_disk::MemDisk;
use node_model::StoreFault;
use node_store::{MarkKind, NodeStore, mark_file};
use std::alloc::Global;
use std::test::Fail;

/// What the store answers where it is to make the mark at that path with that text; and the disk.
pub fn mark_once(
    alloc: Global,
    disk: Resting,
    path: &[u8],
    text: &[u8],
) -> Result<(Result<Marking, StoreFault>, MemDisk), Fail> {
    let own = mark_file(&peer(alloc)?, MarkKind::Busy);
    let path = Bytes::from_slice(alloc, path)?;
    let text = Bytes::from_slice(alloc, text)?;
    let mut store = opened(alloc, disk)?;
    let marked = store.mark(&path, &own, &text);
    Ok((marked, Box::into_inner(store).into_disk()))
}

// Makes a mark in a store and takes it away.
fn mark_in_store(
    store: &mut NodeStore<MemDisk>,
    path: &Bytes,
    own: &Name,
    text: &Bytes,
) -> Result<(), StoreFault>
    requires whole { store.old.memory.broken ≡ None }
    requires note { is_note own.now ≡ true }
{
    store.mark(path, own, text)?;
    store.unmark(path, own, text)
}

/// The disk of a store that made that mark and took it away.
pub fn mark_and_unmark(
    alloc: Global,
    disk: Resting,
    path: &[u8],
    text: &[u8],
) -> Result<MemDisk, Fail> {
    let own = mark_file(&peer(alloc)?, MarkKind::Busy);
    let path = Bytes::from_slice(alloc, path)?;
    let text = Bytes::from_slice(alloc, text)?;
    let mut store = opened(alloc, disk)?;
    match mark_in_store(&mut store, &path, &own, &text) {
        Ok(()) => Ok(Box::into_inner(store).into_disk()),
        Err(_) => Err(Failed.into()),
    }
}

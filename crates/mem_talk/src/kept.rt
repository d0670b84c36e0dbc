//! What a node keeps: the files that it received, and those that it has to send.
ghost use Rattle.std.specs.Prelude.{◌≡◌, IfOk};
ghost use Rattle.ftn_addr.specs.Key.{key_of};
ghost use Rattle.ftn_addr.specs.Limits.{IsKey};

use crate::offered::Offered;
use ftn_addr::{Addr, Bytes, FileKey, NoMemory, is_same_address, is_same_key};
use mem_store::{ListStore, Received};
use node_model::Store;
use std::alloc::Global;

/// Whether its receipts are these files of that node, each once and whole, and no others.
pub fn has_each(
    alloc: Global,
    store: &ListStore,
    from: &Addr,
    files: &[Offered],
) -> Result<bool, NoMemory> {
    for file in files {
        if count_of(alloc, store, from, *file)? != 1 {
            return Ok(false);
        }
    }
    Ok(store.receipts().len() == files.len())
}

// How many of its receipts are of that file of that node, with all its bytes.
fn count_of(
    alloc: Global,
    store: &ListStore,
    from: &Addr,
    file: Offered,
) -> Result<usize, NoMemory> {
    let key = file.key(alloc)?;
    let bytes = file.content(alloc)?;
    Ok(count_in(store.receipts(), from, &key, &bytes))
}

fn count_in(receipts: &[Received], from: &Addr, key: &FileKey, bytes: &Bytes) -> usize {
    let mut count = 0;
    for receipt in receipts {
        if is_receipt(receipt, from, key, bytes) {
            count += 1;
        }
    }
    count
}

// Whether it is the receipt of that sender and key, with these bytes.
fn is_receipt(receipt: &Received, from: &Addr, key: &FileKey, bytes: &Bytes) -> bool {
    is_same_address(from, &receipt.from)
        && is_same_key(key, &receipt.key)
        && receipt.bytes.as_slice() == bytes.as_slice()
}

/// How many bytes of that file of that node it keeps, where that isn't whole.
pub fn kept_of(
    alloc: Global,
    store: &ListStore,
    from: &Addr,
    file: Offered,
) -> Result<u64, NoMemory> {
    let key = file.key(alloc)?;
    match store.mark_of(from, &key) {
        Some(at) => Ok(at.len),
        None => Ok(0),
    }
}

/// How many of the files that it queued aren't settled.
pub fn live(store: &ListStore) -> usize {
    let mut count = 0;
    for entry in store.entries() {
        if entry.content.is_some() {
            count += 1;
        }
    }
    count
}

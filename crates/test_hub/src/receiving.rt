//! Files come in part, are marked, and go on from there.
use crate::words::{key, node, quoted, said, unmet};
use anyhow::Result;
use mem_store::ListStore;
use node_model::{Known, Store, StoreFault};
use std::alloc::Global;
use test_script::{bytes, number, word};

// Opens a part of a file.
fn open(alloc: Global, store: &mut ListStore, words: &[&str]) -> Result<String> {
    let from = node(alloc, words, 1)?;
    let key = key(alloc, words, 2, 3)?;
    match (store.broken(), store.known(&from, &key)) {
        (None, Known::New) => {
            let opened = store.part_open(alloc, &from, &key);
            said(alloc, opened)
        }
        _ => unmet(alloc),
    }
}

// Refuses a file for its size in session 7.
fn refuse(alloc: Global, store: &mut ListStore, words: &[&str]) -> Result<String> {
    let from = node(alloc, words, 1)?;
    let key = key(alloc, words, 2, 3)?;
    if store.reserved() == 0 {
        return unmet(alloc);
    }
    match (store.broken(), store.known(&from, &key)) {
        (None, Known::New) => {
            let refused = store.refuse(alloc, &from, &key, 7, 2);
            said(alloc, refused)
        }
        _ => unmet(alloc),
    }
}

fn put(alloc: Global, store: &mut ListStore, part: u32, words: &[&str]) -> Result<String> {
    let data = bytes(alloc, word(words, 2))?;
    if store.broken().is_some() || !store.is_open(part, data.len() as u64) {
        return unmet(alloc);
    }
    let put = store.part_put(part, data.as_slice());
    said(alloc, put)
}

fn mark(alloc: Global, store: &mut ListStore, part: u32) -> Result<String> {
    if store.broken().is_some() || store.reserved() == 0 || !store.is_open(part, 0) {
        return unmet(alloc);
    }
    let marked = store.part_mark(part);
    said(alloc, marked)
}

// Commits a part in session 7.
fn commit(alloc: Global, store: &mut ListStore, part: u32, secure: bool) -> Result<String> {
    if store.broken().is_some() || store.reserved() == 0 || !store.is_whole(part) {
        return unmet(alloc);
    }
    let committed = store.commit(part, 7, secure);
    said(alloc, committed)
}

// Reads at most eight bytes of a received file.
fn read_receipt(
    alloc: Global,
    store: &mut ListStore,
    receipt: u32,
    words: &[&str],
) -> Result<String> {
    let at = number(words, 2)?;
    if store.broken().is_some() || !store.is_kept(receipt) {
        return unmet(alloc);
    }
    let mut out = [0u8; 8];
    match store.part_read(receipt, at, &mut out) {
        Ok(count) => quoted(alloc, &out[..count]),
        Err(fault) => said(alloc, Err::<(), StoreFault>(fault)),
    }
}

// A call of a part, or of what it became.
fn of_part(alloc: Global, store: &mut ListStore, words: &[&str]) -> Result<String> {
    let part = word(words, 1).parse::<u32>()?;
    match word(words, 0) {
        "put" => put(alloc, store, part, words),
        "mark" => mark(alloc, store, part),
        "commit" => commit(alloc, store, part, word(words, 2) == "secure"),
        _ => read_receipt(alloc, store, part, words),
    }
}

/// The words of the calls here.
pub const CALLS: [&str; 6] = ["open", "refuse", "put", "mark", "commit", "read_receipt"];

/// What the call of these words answers, which is one of a received file.
pub fn receive(alloc: Global, store: &mut ListStore, words: &[&str]) -> Result<String> {
    match word(words, 0) {
        "open" => open(alloc, store, words),
        "refuse" => refuse(alloc, store, words),
        _ => of_part(alloc, store, words),
    }
}

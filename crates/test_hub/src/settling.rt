//! Queued files are read and settled, takes and answers are recorded, and places are given back.
ghost use Rattle.std.specs.Prelude.{Some, IsTrue};
ghost use Rattle.node_model.specs.StoreWords.{IsNewTake};

use crate::words::{quoted, said, unmet};
use anyhow::Result;
use mem_store::ListStore;
use node_model::{NewFile, Store, StoreFault};
use std::alloc::Global;
use test_script::{number, word};

// Reads at most eight bytes of a queued file.
fn read(alloc: Global, store: &mut ListStore, entry: u32, words: &[&str]) -> Result<String> {
    let at = number(words, 2)?;
    if store.broken().is_some() || !store.is_live(entry) {
        return unmet(alloc);
    }
    let mut out = [0u8; 8];
    match store.read_source(entry, at, &mut out) {
        Ok(count) => quoted(alloc, &out[..count]),
        Err(fault) => said(alloc, Err::<(), StoreFault>(fault)),
    }
}

// Settles an entry in a session.
fn done(alloc: Global, store: &mut ListStore, entry: u32, words: &[&str]) -> Result<String> {
    let session = word(words, 2).parse::<u32>()?;
    if store.broken().is_some() || store.reserved() == 0 || session == 0 {
        return unmet(alloc);
    }
    if !store.is_live(entry) {
        return unmet(alloc);
    }
    let settled = store.done(entry, session);
    said(alloc, settled)
}

// Whether a take with that number may be recorded.
fn is_new_take(takes: &[u32], number: u32) -> bool
    ensures { IsTrue result → IsNewTake (Some number) takes.now }
{
    number != 0 && !takes.contains(&number)
}

// Records a take that brought no file.
fn take(alloc: Global, store: &mut ListStore, number: u32) -> Result<String> {
    if store.broken().is_some() || !is_new_take(store.takes(), number) {
        return unmet(alloc);
    }
    let files: [NewFile; 0] = [];
    let slots = store.queue_all(alloc, Some(number), None, &files);
    said(alloc, slots)
}

// Answers a request with no file.
fn answer_request(alloc: Global, store: &mut ListStore, receipt: u32) -> Result<String> {
    if store.broken().is_some() || !store.is_open_request(receipt) {
        return unmet(alloc);
    }
    let files: [NewFile; 0] = [];
    let slots = store.queue_all(alloc, None, Some(receipt), &files);
    said(alloc, slots)
}

// Gives places back.
fn release(alloc: Global, store: &mut ListStore, places: u32) -> Result<String> {
    if store.broken().is_some() || store.reserved() < places {
        return unmet(alloc);
    }
    store.release(places);
    Ok(String::from_str(alloc, "released")?)
}

/// The words of the calls here.
pub const CALLS: [&str; 5] = ["read", "done", "take", "answer", "release"];

/// What the call of these words answers, which is one of a queued file, a take, an answer or places.
pub fn settle(alloc: Global, store: &mut ListStore, words: &[&str]) -> Result<String> {
    let first = word(words, 1).parse::<u32>()?;
    match word(words, 0) {
        "read" => read(alloc, store, first, words),
        "done" => done(alloc, store, first, words),
        "take" => take(alloc, store, first),
        "answer" => answer_request(alloc, store, first),
        _ => release(alloc, store, first),
    }
}

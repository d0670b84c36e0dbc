//! The calls of a store that no hub has. One whose conditions aren't met isn't made.
use crate::receiving::{self, receive};
use crate::settling::{self, settle};
use crate::words::{node, said, unmet};
use anyhow::{Result, bail};
use ftn_addr::Bytes;
use mem_store::ListStore;
use node_model::Store;
use std::alloc::Global;
use test_script::{bytes, number, word};

// Gives the next received file: to `in` where its session was secure, else to `new`.
fn give(alloc: Global, store: &mut ListStore) -> Result<String> {
    if store.broken().is_some() {
        return unmet(alloc);
    }
    let inbound = Bytes::from_slice(alloc, b"in")?;
    let nonsecure = Bytes::from_slice(alloc, b"new")?;
    let gave = store.give_next(alloc, &inbound, &nonsecure);
    said(alloc, gave)
}

fn reserve(alloc: Global, store: &mut ListStore, words: &[&str]) -> Result<String> {
    let places = word(words, 1).parse::<u32>()?;
    if store.broken().is_some() {
        return unmet(alloc);
    }
    let reserved = store.reserve(places);
    said(alloc, reserved)
}

fn copy(alloc: Global, store: &mut ListStore, words: &[&str]) -> Result<String> {
    let path = bytes(alloc, word(words, 1))?;
    if store.broken().is_some() {
        return unmet(alloc);
    }
    let copied = store.stage_copy(alloc, &path);
    said(alloc, copied)
}

fn act(alloc: Global, store: &mut ListStore, words: &[&str]) -> Result<String> {
    let dest = node(alloc, words, 1)?;
    if store.broken().is_some() {
        return unmet(alloc);
    }
    let acted = store.act_next(alloc, &dest);
    said(alloc, acted)
}

fn by(alloc: Global, store: &mut ListStore, words: &[&str]) -> Result<String> {
    store.by(word(words, 1).parse::<u32>()?);
    Ok(String::new(alloc))
}

fn no_such_call() -> Result<String> {
    bail!("no such call of the store")
}

// Another program puts a file.
fn put_out(alloc: Global, store: &mut ListStore, words: &[&str]) -> Result<String> {
    let path = bytes(alloc, word(words, 1))?;
    let file = bytes(alloc, word(words, 2))?;
    store.put_out(&path, file.as_slice(), number(words, 3)?)?;
    Ok(String::new(alloc))
}

/// What the call of these words answers; nothing where it only changes what stands outside, or the seat.
pub fn call(alloc: Global, store: &mut ListStore, words: &[&str]) -> Result<String> {
    match word(words, 0) {
        first if receiving::CALLS.contains(&first) => receive(alloc, store, words),
        first if settling::CALLS.contains(&first) => settle(alloc, store, words),
        "put_out" => put_out(alloc, store, words),
        "give" => give(alloc, store),
        "by" => by(alloc, store, words),
        "reserve" => reserve(alloc, store, words),
        "copy" => copy(alloc, store, words),
        "act" => act(alloc, store, words),
        _ => no_such_call(),
    }
}

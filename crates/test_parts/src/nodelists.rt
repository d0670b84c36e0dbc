//! What the text of a nodelist and its index hold, and the list of an own folder.
use crate::own::{file, name, pieces};
use crate::saying::{no_such, say, say_bytes, say_count, say_text};
use anyhow::Result;
use disk_model::{Copied, Yard};
use ftn_addr::{Addr, Bytes};
use mem_disk::MemDisk;
use nodelist_comp::{Listed, compile, index_bytes};
use nodelist_files::{compile_list, direct_node, read_index};
use nodelist_find::{Index, Route};
use std::alloc::Global;
use test_script::{number, word, words_from};

// A node.
fn say_node(alloc: Global, node: &Listed, out: &mut String) -> Result<()> {
    say_count(out, " ", u64::from(node.zone), ":")?;
    say_count(out, "", u64::from(node.net), "/")?;
    say_count(out, "", u64::from(node.node), " ")?;
    say(out, node.kind)?;
    say_text(out, " \"")?;
    say_bytes(alloc, out, node.host.as_slice())?;
    say_count(out, "\" ", u64::from(node.port), "")
}

fn say_count_of_nodes(out: &mut String, count: usize) -> Result<()> {
    say_count(out, "", count as u64, " nodes")
}

fn say_first(alloc: Global, nodes: &[Listed], out: &mut String) -> Result<()> {
    say_count_of_nodes(out, nodes.len())?;
    for node in nodes.iter().take(10) {
        say_node(alloc, node, out)?;
    }
    Ok(())
}

// How many nodes a list has, and its first ten, or its first bad line.
fn nodes(alloc: Global, words: &[&str], out: &mut String) -> Result<()> {
    let list = pieces(alloc, words)?;
    match compile(alloc, list.as_slice()) {
        Ok(nodes) => say_first(alloc, nodes.as_slice(), out),
        Err(fault) => say(out, fault),
    }
}

// The bytes of the index of a list.
fn index_of(alloc: Global, list: &[u8]) -> Result<Bytes> {
    let nodes = compile(alloc, list)?;
    Ok(index_bytes(alloc, nodes.as_slice())?)
}

fn index(alloc: Global, words: &[&str], out: &mut String) -> Result<()> {
    let list = pieces(alloc, words)?;
    let index = index_of(alloc, list.as_slice())?;
    say_bytes(alloc, out, index.as_slice())
}

// How many nodes an index has, or where it is none.
fn opens(alloc: Global, words: &[&str], out: &mut String) -> Result<()> {
    let index = pieces(alloc, words)?;
    match Index::open(alloc, index.as_slice()) {
        Ok(index) => say_count_of_nodes(out, index.len()),
        Err(fault) => say(out, fault),
    }
}

// The same of the index of the own folder.
fn read(alloc: Global, disk: &mut MemDisk, out: &mut String) -> Result<()> {
    match read_index(alloc, disk) {
        Ok(Some(index)) => say_count_of_nodes(out, index.len()),
        Ok(None) => say_text(out, "none"),
        Err(fault) => say(out, fault),
    }
}

fn compile_call(alloc: Global, disk: &mut MemDisk, words: &[&str], out: &mut String) -> Result<()> {
    let path = pieces(alloc, words)?;
    say(out, compile_list(alloc, disk, &path))
}

// The word for a way to a node, with the node at that place.
fn way(alloc: Global, index: &Index, word: &str, place: usize, out: &mut String) -> Result<()> {
    say_text(out, word)?;
    if place < index.len() {
        say_node(alloc, index.node(place), out)?;
    }
    Ok(())
}

fn route(alloc: Global, index: &Index, addr: &Addr, out: &mut String) -> Result<()> {
    match index.route(addr) {
        Route::Direct(place) => way(alloc, index, "direct", place, out),
        Route::ViaHost(place) => way(alloc, index, "by the host", place, out),
        Route::Down => say_text(out, "down"),
        Route::Unknown => say_text(out, "unknown"),
    }
}

// How an address is reached, where it stands among the nodes, and the node that is called itself.
fn say_route(alloc: Global, index: &Index, addr: &Addr, out: &mut String) -> Result<()> {
    route(alloc, index, addr, out)?;
    say_text(out, ", found at ")?;
    say(out, index.find(addr))?;
    if let Some(node) = direct_node(index, addr) {
        say_text(out, ", called")?;
        say_node(alloc, node, out)?;
    }
    Ok(())
}

fn node_of(alloc: Global, net: u64, node: u64) -> Result<Addr> {
    Ok(Addr {
        zone: 2,
        net: u16::try_from(net)?,
        node: u16::try_from(node)?,
        point: 3,
        domain: Bytes::new(alloc),
    })
}

fn is_found(alloc: Global, index: &Index, node: u64) -> Result<bool> {
    let addr = node_of(alloc, 5020, node)?;
    Ok(index.find(&addr).is_some())
}

// The nodes of 2:5020 below a number that are found.
fn found(alloc: Global, index: &Index, below: u64, out: &mut String) -> Result<()> {
    say_text(out, "found")?;
    for node in 0..below {
        if is_found(alloc, index, node)? {
            say_count(out, " ", node, "")?;
        }
    }
    Ok(())
}

// What is looked up in an index.
fn look_up(alloc: Global, index: &Index, words: &[&str], out: &mut String) -> Result<()> {
    let first = number(words, 1)?;
    if word(words, 0) == "found" {
        return found(alloc, index, first, out);
    }
    let addr = node_of(alloc, first, number(words, 2)?)?;
    say_route(alloc, index, &addr, out)
}

// The same in that of the own folder.
fn look_up_own(alloc: Global, disk: &mut MemDisk, words: &[&str], out: &mut String) -> Result<()> {
    match read_index(alloc, disk)? {
        Some(index) => look_up(alloc, &index, words, out),
        None => no_such("index"),
    }
}

// Whether the own file of that name has these bytes, none where it doesn't stand.
fn has_own(alloc: Global, disk: &mut MemDisk, own: &str, wanted: &[u8]) -> Result<bool> {
    match file(alloc, disk, &name(&[own], 0)?)? {
        Some(found) => Ok(found.as_slice() == wanted),
        None => Ok(wanted.is_empty()),
    }
}

// Whether the own list has these bytes, and the own index is that of these bytes.
fn say_pair(alloc: Global, disk: &mut MemDisk, list: &[u8], out: &mut String) -> Result<()> {
    say_text(out, "list ")?;
    say(out, has_own(alloc, disk, "nodelist.txt", list)?)?;
    say_text(out, ", index ")?;
    let index = index_of(alloc, list)?;
    say(out, has_own(alloc, disk, "nodelist.idx", index.as_slice())?)
}

fn copied_pair(alloc: Global, disk: &mut MemDisk, out: &mut String) -> Result<()> {
    match file(alloc, disk, &name(&["copy"], 0)?)? {
        Some(list) => say_pair(alloc, disk, list.as_slice(), out),
        None => no_such("copy"),
    }
}

// The same of the bytes of an outside file.
fn pair(alloc: Global, disk: &mut MemDisk, words: &[&str], out: &mut String) -> Result<()> {
    let path = pieces(alloc, words)?;
    match disk.copy(&path, &name(&["copy"], 0)?, 10_000)? {
        Copied::Copied(_) => copied_pair(alloc, disk, out),
        _ => no_such("list"),
    }
}

/// A call on nodelists, by its words.
pub fn list_call(
    alloc: Global,
    disk: &mut MemDisk,
    words: &[&str],
    out: &mut String,
) -> Result<()> {
    let more = words_from(words, 1);
    match word(words, 0) {
        "nodes" => nodes(alloc, more, out),
        "index" => index(alloc, more, out),
        "opens" => opens(alloc, more, out),
        "compile" => compile_call(alloc, disk, more, out),
        "read" => read(alloc, disk, out),
        "pair" => pair(alloc, disk, more, out),
        _ => look_up_own(alloc, disk, words, out),
    }
}

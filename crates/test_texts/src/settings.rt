//! Settings, and why they are refused.
use crate::addresses::{address_of, address_text, addresses_text};
use crate::shown::{listed, lists};
use anyhow::Result;
use ftn_addr::NoMemory;
use mail_conf::{Conf, ConfFault, Node, read_conf};
use std::alloc::Global;
use test_script::shown;

fn fault_of(alloc: Global, text: &[u8]) -> Option<ConfFault> {
    read_conf(alloc, text).err()
}

/// Why a text is refused: its line, the cause, and how the two are told.
pub fn fault(alloc: Global, text: &[u8]) -> Result<String> {
    let Some(fault) = fault_of(alloc, text) else {
        return Ok(String::from_str(alloc, "none")?);
    };
    let (line, cause) = (fault.line, fault.cause);
    Ok(format!(in alloc; "{line} {cause:?} \"{fault}\"")?)
}

// The settings of a text, in a box, since each step of a function carries every field of what it holds itself.
fn conf_of(alloc: Global, text: &[u8]) -> Result<Box<Conf>> {
    Ok(Box::new(alloc, read_conf(alloc, text)?)?)
}

// What the node tells of itself, its domain and its folders.
fn texts(alloc: Global, conf: &Conf) -> Result<String, NoMemory> {
    let texts = [
        conf.sysname.as_slice(),
        conf.sysop.as_slice(),
        conf.location.as_slice(),
        conf.nodeinfo.as_slice(),
        conf.domain.as_slice(),
        conf.base.as_slice(),
        conf.inbound.as_slice(),
        conf.inbound_nonsecure.as_slice(),
    ];
    listed(alloc, &texts)
}

fn numbers(alloc: Global, conf: &Conf) -> Result<String, NoMemory> {
    let (zone, port, block) = (conf.zone, conf.port, conf.block);
    let (servers, clients) = (conf.max_servers, conf.max_clients);
    let (over, limit) = (conf.refuse_over, conf.session_limit);
    Ok(format!(in alloc;
        "zone {zone} port {port} servers {servers} clients {clients} block {block} over {over} limit {limit}"
    )?)
}

fn push_node(alloc: Global, node: &Node, out: &mut String) -> Result<(), NoMemory> {
    let addr = address_text(alloc, &node.addr)?;
    let host = shown(alloc, node.host.as_slice())?;
    let password = shown(alloc, node.password.as_slice())?;
    let node = format!(in alloc;
        "[{addr} host \"{host}\" port {} password \"{password}\"]",
        node.port
    )?;
    out.push_str(node.as_str())?;
    Ok(())
}

fn nodes(alloc: Global, nodes: &[Node]) -> Result<String, NoMemory> {
    let mut out = String::new(alloc);
    for node in nodes {
        push_node(alloc, node, &mut out)?;
    }
    Ok(out)
}

// The node of an address.
fn node(alloc: Global, conf: &Conf, text: &str) -> Result<String> {
    let addr = address_of(alloc, text.as_bytes())?;
    let mut out = String::new(alloc);
    match conf.node(&addr) {
        Some(node) => push_node(alloc, node, &mut out)?,
        None => out.push_str("none")?,
    }
    Ok(out)
}

/// What the settings of a text have: what is asked for, or the node of that address.
pub fn settings(alloc: Global, text: &[u8], asked: &str) -> Result<String> {
    let conf = conf_of(alloc, text)?;
    Ok(match asked {
        "texts" => texts(alloc, &conf),
        "numbers" => numbers(alloc, &conf),
        "addresses" => addresses_text(alloc, conf.addresses.as_slice()),
        "nodes" => nodes(alloc, conf.nodes.as_slice()),
        "names" => lists(alloc, conf.refuse_names.as_slice()),
        "shares" => lists(alloc, conf.shares.as_slice()),
        _ => return node(alloc, &conf, asked),
    }?)
}

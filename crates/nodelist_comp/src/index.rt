//! The bytes of an index.
ghost use Rattle.std.specs.Prelude.{◌≡◌, ◌-◌, ◌^◌, ◌++◌, min, map, IfOk, OnOk};
ghost use Rattle.std.specs.Int.{w16, to_be_bytes};
ghost use Rattle.std.specs.List.{flat_map};
ghost use Rattle.nodelist_comp.specs.Index.{host_bytes, in_order, index_of, kind_byte, node_bytes, with_node};
ghost use Rattle.nodelist_comp.specs.Keyed.{Keyed, seen};
ghost use Rattle.nodelist_comp.specs.Views.{listed};

use crate::{Listed, NodeKind};
use ftn_addr::{Bytes, NoMemory};
use std::alloc::Global;
use std::collections::BTreeMap;

/// Puts a node under its address, unless there is one already.
fn put<'a>(nodes: &mut BTreeMap<u64, &'a Listed>, node: &'a Listed) -> Result<(), NoMemory>
    requires { Keyed nodes.old.entries }
    ensures nodes { OnOk result (seen nodes.new.entries ≡ with_node (seen nodes.old.entries) (listed node.now)) }
    ensures keyed { OnOk result (Keyed nodes.new.entries) }
{
    let place = node.place();
    if !nodes.contains_key(&place) {
        nodes.insert(place, node)?;
    }
    Ok(())
}

/// The nodes by their addresses. Of nodes with one address it has the first.
fn in_order(alloc: Global, list: &[Listed]) -> Result<BTreeMap<u64, &Listed>, NoMemory>
    ensures { IfOk result (λ nodes. seen nodes.entries ≡ in_order (map listed list.now)) }
{
    let mut nodes = BTreeMap::new(alloc);
    for node in list {
        put(&mut nodes, node)?;
    }
    Ok(nodes)
}

fn kind_byte(kind: NodeKind) -> u8
    ensures { result ≡ kind_byte kind }
{
    match kind {
        NodeKind::Zone => 0,
        NodeKind::Region => 1,
        NodeKind::Host => 2,
        NodeKind::Hub => 3,
        NodeKind::Pvt => 4,
        NodeKind::Hold => 5,
        NodeKind::Down => 6,
        NodeKind::Plain => 7,
    }
}

/// Adds the length of a host in one byte, and the host. One of more than 255 bytes is taken as empty.
fn push_host(host: &[u8], out: &mut Bytes) -> Result<(), NoMemory>
    ensures { OnOk result (out.new.list ≡ out.old.list ++ host_bytes host.now) }
{
    match u8::try_from(host.len()) {
        Ok(len) => {
            out.push_slice(&[len])?;
            out.push_slice(host)
        }
        Err(_) => out.push_slice(&[0]),
    }
}

fn push_number(number: u16, out: &mut Bytes) -> Result<(), NoMemory>
    ensures { OnOk result (out.new.list ≡ out.old.list ++ to_be_bytes w16 number) }
{
    out.push_slice(number.to_be_bytes().as_slice())
}

fn push_node(node: &Listed, out: &mut Bytes) -> Result<(), NoMemory>
    ensures { OnOk result (out.new.list ≡ out.old.list ++ node_bytes (listed node.now)) }
{
    push_number(node.zone, out)?;
    push_number(node.net, out)?;
    push_number(node.node, out)?;
    out.push_slice(&[kind_byte(node.kind)])?;
    push_host(node.host.as_slice(), out)?;
    push_number(node.port, out)
}

fn push_nodes(nodes: &BTreeMap<u64, &Listed>, out: &mut Bytes) -> Result<(), NoMemory>
    ensures { OnOk result (out.new.list ≡ out.old.list ++ flat_map node_bytes (seen nodes.now.entries)) }
{
    for node in nodes.values() {
        push_node(*node, out)?;
    }
    Ok(())
}

/// A count in four bytes, whose greatest stands for all from there on.
fn count_of(len: usize) -> u32
    ensures { result ≡ min len (2 ^ 32 - 1) }
{
    u32::try_from(len).unwrap_or(u32::MAX)
}

/// The index of a list of nodes, which `nodelist_find` reads (own).
///
/// It has `nodeidx1`, the count in four bytes, and the nodes rising by zone, net and node: these three in
/// two bytes each, the kind in one, from 0 on in the order of [`NodeKind`], the host's length in one, the
/// host, and the port in two. All numbers have their high byte first. Of nodes with one address it has
/// the first, and a host of more than 255 bytes is taken as empty.
pub fn index_bytes(alloc: Global, list: &[Listed]) -> Result<Bytes, NoMemory>
    ensures { IfOk result (λ bytes. bytes.list ≡ index_of (map listed list.now)) }
{
    let nodes = in_order(alloc, list)?;
    let mut out = Bytes::from_slice(alloc, b"nodeidx1")?;
    out.push_slice(count_of(nodes.len()).to_be_bytes().as_slice())?;
    push_nodes(&nodes, &mut out)?;
    Ok(out)
}

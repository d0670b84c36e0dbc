//! The nodes of an index.
ghost use Rattle.std.specs.Prelude.{◌≡◌, ◌+◌, ◌<◌, ◌≤◌, ◌^◌, [], map, IfOk};
ghost use Rattle.nodelist_comp.specs.Views.{listed};
ghost use Rattle.ftn_addr.specs.Outcomes.{Gives, GivesExactly};
ghost use Rattle.nodelist_find.specs.Nodes.{IsAmong, IsBounds, address_in, address_of, bounds_for, count_at, host_at, kind_at, kind_of, nets_in, node_at, nodes_from, nodes_in, ordinal, read_index, spot_at, zones_in};
ghost use Rattle.nodelist_find.specs.Rising.{Rising};
ghost use Rattle.nodelist_find.specs.Views.{bounds, seen, span_of, spot};

use crate::IndexFault;
use crate::cursor::{Cursor, Span};
use ftn_addr::{Bytes, MAX_ADDRESS_NUMBER};
use nodelist_comp::{Listed, NodeKind};
use std::alloc::Global;

/// How many addresses have numbers up to [`MAX_ADDRESS_NUMBER`].
const ADDRESSES: u64 = 0x2000_0000_0000;

/// The address of a node.
#[derive(Clone, Copy)]
pub(crate) struct Spot {
    zone: u16,
    net: u16,
    node: u16,
}

impl Spot {
    ghost use Rattle.nodelist_find.specs.Views.{spot};

    /// The address with a number among all.
    fn at(number: u64) -> Spot
        requires { number < 2 ^ 45 }
        ensures { spot result ≡ spot_at number }
    {
        Spot {
            zone: (number / 0x4000_0000) as u16,
            net: (number / 0x8000 % 0x8000) as u16,
            node: (number % 0x8000) as u16,
        }
    }

    /// The number of the address among all.
    fn ordinal(self) -> u64
        ensures { result ≡ ordinal (spot self) }
    {
        u64::from(self.zone) * 0x4000_0000 + u64::from(self.net) * 0x8000 + u64::from(self.node)
    }
}

/// The addresses from one to another.
#[derive(Clone, Copy)]
pub(crate) struct Bounds {
    low: Spot,
    high: Spot,
}

impl Bounds {
    ghost use Rattle.nodelist_find.specs.Views.{bounds, spot};

    /// The addresses from the next number on, but for the last of all, which further nodes need: so many
    /// are to come.
    fn of(next: u64, left: u32) -> Bounds
        requires some { 0 < left }
        requires room { next + left ≤ 2 ^ 45 }
        ensures of { bounds result ≡ bounds_for next left }
        ensures good { IsBounds (bounds result) }
    {
        Bounds {
            low: Spot::at(next),
            high: Spot::at(ADDRESSES - u64::from(left)),
        }
    }

    fn zones(self) -> Span
        ensures { span_of result ≡ zones_in (bounds self) }
    {
        Span {
            low: self.low.zone,
            high: self.high.zone,
        }
    }

    /// The nets in a zone.
    fn nets(self, zone: u16) -> Span
        ensures { span_of result ≡ nets_in (bounds self) zone }
    {
        let Bounds { low, high } = self;
        Span {
            low: if zone == low.zone { low.net } else { 0 },
            high: if zone == high.zone {
                high.net
            } else {
                MAX_ADDRESS_NUMBER
            },
        }
    }

    /// The nodes in a net.
    fn nodes(self, zone: u16, net: u16) -> Span
        ensures { span_of result ≡ nodes_in (bounds self) zone net }
    {
        let Bounds { low, high } = self;
        Span {
            low: if zone == low.zone && net == low.net {
                low.node
            } else {
                0
            },
            high: if zone == high.zone && net == high.net {
                high.node
            } else {
                MAX_ADDRESS_NUMBER
            },
        }
    }
}

/// An address of these.
#[tactic(auto, unfolding(crate::specs::Nodes::address_in))]
fn address_in(at: Cursor<'_>, of: Bounds) -> Result<(Spot, Cursor<'_>), IndexFault>
    requires { IsBounds (bounds of) }
    ensures gives { GivesExactly (λ x. (spot x.0, seen x.1)) result (address_in (bounds of) (seen at.entry)) }
    ensures inside { IfOk result (λ x. IsAmong (bounds of) (spot x.0)) }
{
    let (zone, rest) = at.number_in(of.zones())?;
    let (net, rest) = rest.number_in(of.nets(zone))?;
    let (node, rest) = rest.number_in(of.nodes(zone, net))?;
    Ok((Spot { zone, net, node }, rest))
}

fn kind_of(byte: u8) -> Option<NodeKind>
    ensures { result ≡ kind_of byte }
{
    match byte {
        0 => Some(NodeKind::Zone),
        1 => Some(NodeKind::Region),
        2 => Some(NodeKind::Host),
        3 => Some(NodeKind::Hub),
        4 => Some(NodeKind::Pvt),
        5 => Some(NodeKind::Hold),
        6 => Some(NodeKind::Down),
        7 => Some(NodeKind::Plain),
        _ => None,
    }
}

#[tactic(auto, unfolding(crate::specs::Nodes::kind_at))]
fn kind_at(at: Cursor<'_>) -> Result<(NodeKind, Cursor<'_>), IndexFault>
    ensures { GivesExactly (λ x. (x.0, seen x.1)) result (kind_at (seen at.entry)) }
{
    let place = at.place as u64;
    let (byte, rest) = at.byte()?;
    match kind_of(byte) {
        Some(kind) => Ok((kind, rest)),
        None => Err(IndexFault::Bad(place)),
    }
}

#[tactic(auto, unfolding(crate::specs::Nodes::host_at))]
fn host_at<'a>(at: Cursor<'a>) -> Result<(&'a [u8], Cursor<'a>), IndexFault>
    ensures { GivesExactly (λ x. (x.0.now, seen x.1)) result (host_at (seen at.entry)) }
{
    let (len, rest) = at.byte_in(Span::BYTES)?;
    rest.bytes(usize::from(len))
}

fn spot_of(node: &Listed) -> Spot
    ensures { spot result ≡ address_of (listed node.now) }
{
    Spot {
        zone: node.zone,
        net: node.net,
        node: node.node,
    }
}

/// A node whose address is one of these.
#[tactic(auto, unfolding(crate::specs::Nodes::node_at))]
fn node_at<'a>(
    alloc: Global,
    at: Cursor<'a>,
    of: Bounds,
) -> Result<(Listed, Cursor<'a>), IndexFault>
    requires { IsBounds (bounds of) }
    ensures gives { Gives IndexFault.NoMemory (λ x. (listed x.0, seen x.1)) result (node_at (bounds of) (seen at.entry)) }
    ensures inside { IfOk result (λ x. IsAmong (bounds of) (address_of (listed x.0))) }
{
    let (Spot { zone, net, node }, rest) = address_in(at, of)?;
    let (kind, rest) = kind_at(rest)?;
    let (host, rest) = host_at(rest)?;
    let (port, rest) = rest.number_in(Span::NUMBERS)?;
    let node = Listed {
        zone,
        net,
        node,
        kind,
        host: Bytes::from_slice(alloc, host)?,
        port,
    };
    Ok((node, rest))
}

/// A count of at most 65,536 in four bytes.
#[tactic(auto, unfolding(crate::specs::Nodes::count_at))]
fn count_at(at: Cursor<'_>) -> Result<(u32, Cursor<'_>), IndexFault>
    ensures gives { GivesExactly (λ x. (x.0, seen x.1)) result (count_at (seen at.entry)) }
    ensures most { IfOk result (λ x. x.0 ≤ 65536) }
{
    let (high, rest) = at.number_in(Span { low: 0, high: 1 })?;
    let most = if high == 1 { 0 } else { 65_535 };
    let (low, rest) = rest.number_in(Span { low: 0, high: most })?;
    Ok((u32::from(high) * 65_536 + u32::from(low), rest))
}

fn nodes_from<'a>(
    alloc: Global,
    at: Cursor<'a>,
    count: u32,
) -> Result<(Vec<Listed>, Cursor<'a>), IndexFault>
    requires { count ≤ 65536 }
    ensures gives { Gives IndexFault.NoMemory (λ x. (map listed x.0.items, seen x.1)) result (nodes_from count 0 [] (seen at.entry)) }
    ensures rising { IfOk result (λ x. Rising (map listed x.0.items)) }
{
    let mut nodes = Vec::new(alloc);
    let mut rest = at;
    let mut next = 0;
    let mut left = count;
    while left > 0 {
        let (node, after) = node_at(alloc, rest, Bounds::of(next, left))?;
        next = spot_of(&node).ordinal() + 1;
        nodes.push(node)?;
        rest = after;
        left -= 1;
    }
    Ok((nodes, rest))
}

/// The nodes of an index.
#[tactic(auto, unfolding(crate::specs::Nodes::read_index))]
pub(crate) fn read_index(alloc: Global, bytes: &[u8]) -> Result<Vec<Listed>, IndexFault>
    ensures gives { Gives IndexFault.NoMemory (λ nodes. map listed nodes.items) result (read_index bytes.now) }
    ensures rising { IfOk result (λ nodes. Rising (map listed nodes.items)) }
{
    let at = Cursor::behind_magic(bytes)?;
    let (count, at) = count_at(at)?;
    let (nodes, at) = nodes_from(alloc, at, count)?;
    if at.rest.is_empty() {
        Ok(nodes)
    } else {
        Err(IndexFault::Bad(at.place as u64))
    }
}

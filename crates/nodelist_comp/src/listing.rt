//! The nodes of a text.
ghost use Rattle.std.specs.Prelude.{◌≡◌, ◌==◌, map, option_map, position, OnOk};
ghost use Rattle.ftn_addr.specs.Outcomes.{Gives};
ghost use Rattle.nodelist_comp.specs.Fields.{area};
ghost use Rattle.nodelist_comp.specs.List.{Compiles, added, before_end, compiled, is_passed, line_taken};
ghost use Rattle.nodelist_comp.specs.Tracks.{Tracks};
ghost use Rattle.nodelist_comp.specs.Views.{listed};

use crate::fields::{Area, node_of};
use crate::{ListCause, ListTextFault, Listed};
use ftn_addr::first_line;
use std::alloc::Global;
use std::collections::BTreeSet;

/// The most nodes of a list.
const MAX_NODES: usize = 65_536;

/// Adds a node at the end, unless its address is in the list already.
fn add(nodes: &mut Vec<Listed>, places: &mut BTreeSet<u64>, node: Listed) -> Result<(), ListCause>
    requires { Tracks nodes.old.items places.old }
    ensures nodes { Gives ListCause.NoMemory (λ _. map listed nodes.new.items) result
        (added (map listed nodes.old.items) (listed node)) }
    ensures tracks { OnOk result (Tracks nodes.new.items places.new) }
{
    if !places.insert(node.place())? {
        return Ok(());
    }
    if nodes.len() >= MAX_NODES {
        return Err(ListCause::TooMany);
    }
    nodes.push(node)?;
    Ok(())
}

/// A line that is passed over: an empty one, or a comment.
fn is_passed(line: &[u8]) -> bool
    ensures { result ≡ is_passed line.now }
{
    line.is_empty() || line.starts_with(b";")
}

/// Takes a line, and gives the zone and the net that hold below it.
#[tactic(auto, unfolding(crate::specs::List::line_taken))]
fn take_line(
    alloc: Global,
    above: Option<Area>,
    line: &[u8],
    nodes: &mut Vec<Listed>,
    places: &mut BTreeSet<u64>,
) -> Result<Option<Area>, ListCause>
    requires { Tracks nodes.old.items places.old }
    ensures nodes { Gives ListCause.NoMemory (λ below. (map listed nodes.new.items, option_map area below)) result
        (line_taken (map listed nodes.old.items) (option_map area above) line.now) }
    ensures tracks { OnOk result (Tracks nodes.new.items places.new) }
{
    if is_passed(line) {
        return Ok(above);
    }
    let node = node_of(alloc, above, line)?;
    let below = Area {
        zone: node.zone,
        net: node.net,
    };
    add(nodes, places, node)?;
    Ok(Some(below))
}

fn end_mark(text: &[u8]) -> Option<usize>
    ensures { result ≡ position (λ byte. byte == 26) text.now }
{
    text.iter().position(|byte| *byte == 0x1a)
}

/// The text before its end mark, the byte 0x1A.
fn before_end(text: &[u8]) -> &[u8]
    ensures { result.now ≡ before_end text.now }
{
    match end_mark(text) {
        Some(end) => &text[..end],
        None => text,
    }
}

/// The nodes of a nodelist's text, in the order of the lines, or the first line that can't be taken with
/// its cause (FTS-5000).
///
/// A line of an address that is in the list already is passed over as a node, but a zone's, region's or
/// host's line still sets the zone and the net.
pub fn compile(alloc: Global, text: &[u8]) -> Result<Vec<Listed>, ListTextFault>
    ensures { Compiles (λ nodes. map listed nodes.items) result (compiled text.now) }
{
    let mut nodes = Vec::new(alloc);
    let mut places = BTreeSet::new(alloc);
    let mut above = None;
    let mut number = 0u32;
    let mut rest = before_end(text);
    while let Some((line, after)) = first_line(rest) {
        number = number.saturating_add(1);
        match take_line(alloc, above, line, &mut nodes, &mut places) {
            Ok(below) => above = below,
            Err(cause) => {
                return Err(ListTextFault {
                    line: number,
                    cause,
                });
            }
        }
        rest = after;
    }
    Ok(nodes)
}

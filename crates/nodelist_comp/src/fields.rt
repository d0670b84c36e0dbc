//! The fields of a line, and the node that it stands for.
ghost use Rattle.std.specs.Prelude.{◌≡◌, ◌==◌, option_map, slice_get};
ghost use Rattle.std.specs.List.{slice_split};
ghost use Rattle.ftn_addr.specs.Outcomes.{Gives, GivesExactly};
ghost use Rattle.nodelist_comp.specs.Fields.{area, area_for, fields_left, kind_of, node_of, number_of, placed};
ghost use Rattle.nodelist_comp.specs.Views.{listed};

use crate::comma::{behind_fields, first_field};
use crate::flags::endpoint;
use crate::{ListCause, Listed, NodeKind};
use ftn_addr::{Bytes, MAX_ADDRESS_NUMBER, is_same_word, read_digits};
use std::alloc::Global;

/// The zone and the net that hold for a line.
#[derive(Clone, Copy, Debug)]
pub(crate) struct Area {
    pub zone: u16,
    pub net: u16,
}

fn kind_of(word: &[u8]) -> Option<NodeKind>
    ensures { result ≡ kind_of word.now }
{
    if word.is_empty() {
        Some(NodeKind::Plain)
    } else if is_same_word(word, b"Zone") {
        Some(NodeKind::Zone)
    } else if is_same_word(word, b"Region") {
        Some(NodeKind::Region)
    } else if is_same_word(word, b"Host") {
        Some(NodeKind::Host)
    } else if is_same_word(word, b"Hub") {
        Some(NodeKind::Hub)
    } else if is_same_word(word, b"Pvt") {
        Some(NodeKind::Pvt)
    } else if is_same_word(word, b"Hold") {
        Some(NodeKind::Hold)
    } else if is_same_word(word, b"Down") {
        Some(NodeKind::Down)
    } else {
        None
    }
}

/// The number of a field, from 0 to 32,767.
fn number_of(digits: Option<&[u8]>) -> Result<u16, ListCause>
    ensures { GivesExactly (λ number. number) result (number_of (option_map (λ digits. digits.now) digits.entry)) }
{
    match read_digits(digits.ok_or(ListCause::BadNumber)?) {
        Some(number) if number <= u64::from(MAX_ADDRESS_NUMBER) => Ok(number as u16),
        _ => Err(ListCause::BadNumber),
    }
}

/// The zone and the net above a line, which a zone's line needs not.
fn area_for(kind: NodeKind, above: Option<Area>) -> Result<Area, ListCause>
    ensures { GivesExactly area result (area_for kind (option_map area above)) }
{
    match (kind, above) {
        (NodeKind::Zone, _) => Ok(Area { zone: 0, net: 0 }),
        (_, Some(above)) => Ok(above),
        (_, None) => Err(ListCause::NoZone),
    }
}

/// Zone, net and node of a line of this kind with this number.
fn placed(kind: NodeKind, above: Area, number: u16) -> (u16, u16, u16)
    ensures { result ≡ placed kind (area above) number }
{
    match kind {
        NodeKind::Zone => (number, number, 0),
        NodeKind::Region | NodeKind::Host => (above.zone, number, 0),
        NodeKind::Hub | NodeKind::Pvt | NodeKind::Hold | NodeKind::Down | NodeKind::Plain => {
            (above.zone, above.net, number)
        }
    }
}

/// The first of the fields that are left.
fn first_of(rest: Option<&[u8]>) -> Option<&[u8]>
    ensures { option_map (λ field. field.now) result
        ≡ slice_get (fields_left (option_map (λ rest. rest.now) rest.entry)) 0 }
{
    let (field, _) = first_field(rest?);
    Some(field)
}

/// The node that a line stands for, below an area. The fields are walked, and none is kept.
#[tactic(auto, unfolding(crate::specs::Fields::node_of, crate::specs::Fields::kind_at, crate::specs::Fields::number_at))]
pub(crate) fn node_of(alloc: Global, above: Option<Area>, line: &[u8]) -> Result<Listed, ListCause>
    ensures { Gives ListCause.NoMemory listed result
        (node_of (option_map area above) (slice_split (λ byte. byte == 44) line.now)) }
{
    let (keyword, rest) = first_field(line);
    let kind = kind_of(keyword).ok_or(ListCause::UnknownKeyword)?;
    let above = area_for(kind, above)?;
    let number = number_of(first_of(rest))?;
    let (zone, net, node) = placed(kind, above, number);
    let (host, port) = endpoint(behind_fields(rest, 6));
    Ok(Listed {
        zone,
        net,
        node,
        kind,
        host: Bytes::from_slice(alloc, host)?,
        port,
    })
}

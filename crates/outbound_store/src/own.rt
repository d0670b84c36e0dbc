//! What the own name of a take spells.
ghost use Rattle.std.specs.Prelude.{◌≡◌, ◌<◌, ◌≤◌, ◌^◌, length};
ghost use Rattle.std.specs.Str.{bytes_eq};
ghost use Rattle.ftn_addr.specs.Address.{address};
ghost use Rattle.node_model.specs.Lists.{first_that};
ghost use Rattle.node_store.specs.Names.{HasPlace, take_ending};
ghost use Rattle.bso_outbound.specs.Kinds.{ending};
ghost use Rattle.outbound_model.specs.OwnNames.{IsFor, digit_value, kind_of, kinds, spelled, value_behind};
ghost use Rattle.outbound_take.specs.Plans.{Answers};

use bso_outbound::{Kind, ending_of};
use disk_model::Name;
use ftn_addr::Addr;
use node_model::Flavour;
use node_store::TakeKind;

/// What outbound files are.
const KINDS: [Kind; 11] = [
    Kind::Flow(Flavour::Immediate),
    Kind::Flow(Flavour::Crash),
    Kind::Flow(Flavour::Direct),
    Kind::Flow(Flavour::Normal),
    Kind::Flow(Flavour::Hold),
    Kind::Mail(Flavour::Immediate),
    Kind::Mail(Flavour::Crash),
    Kind::Mail(Flavour::Direct),
    Kind::Mail(Flavour::Normal),
    Kind::Mail(Flavour::Hold),
    Kind::Request,
];

/// What such a file is to the store.
pub(crate) fn take_kind(kind: Kind) -> TakeKind
    ensures { take_ending result ≡ ending kind }
{
    match kind {
        Kind::Flow(flavour) => TakeKind::Flow(flavour),
        Kind::Mail(flavour) => TakeKind::Netmail(flavour),
        Kind::Request => TakeKind::Request,
    }
}

fn fits_two(number: u16)
    ensures { number < 2 ^ 16 }
{
    let _number = number;
}

/// The numbers of an address are of two bytes each. It does nothing.
pub(crate) fn has_place(addr: &Addr)
    ensures { HasPlace (address addr.now) }
{
    fits_two(addr.zone);
    fits_two(addr.net);
    fits_two(addr.node);
    fits_two(addr.point);
}

// Whether the files of a kind end so.
fn ends_so(end: &[u8], kind: Kind) -> bool
    ensures { result ≡ bytes_eq end.now (ending kind) }
{
    let ending = ending_of(kind);
    end == &ending[..]
}

// What a file is that ends so.
fn kind_ending(end: &[u8]) -> Option<Kind>
    ensures { result ≡ first_that (λ kind. bytes_eq end.now (ending kind)) kinds }
{
    for kind in &KINDS {
        if ends_so(end, *kind) {
            return Some(*kind);
        }
    }
    None
}

/// What a take was in the outbound.
pub(crate) fn kind_of(own: &Name) -> Option<Kind>
    ensures { result ≡ kind_of own.now }
{
    let bytes = own.as_slice();
    if bytes.len() < 26 {
        return None;
    }
    let (_, end) = bytes.split_at(26);
    kind_ending(end)
}

fn digit_value(byte: u8) -> u32
    ensures value { result ≡ digit_value byte }
    ensures low { result ≤ 168 }
{
    if byte <= b'9' {
        u32::from(byte.saturating_sub(48))
    } else {
        u32::from(byte.saturating_sub(87))
    }
}

fn value(digits: &[u8]) -> u32
    requires { length digits.now ≤ 4 }
    ensures { result ≡ value_behind 0 digits.now }
{
    let mut value = 0;
    for digit in digits {
        value = value * 16 + digit_value(*digit);
    }
    value
}

// The number that up to four digits spell, behind so many bytes.
fn spelled(at: usize, name: &[u8]) -> u32
    requires { at ≤ 26 }
    ensures { result ≡ spelled at 4 name.now }
{
    let start = at.min(name.len());
    let end = (at + 4).min(name.len());
    value(&name[start..end])
}

/// Whether a take is for an address, of which its name spells all but the domain.
pub(crate) fn is_for(dest: &Addr, own: &Name) -> bool
    ensures { Answers (IsFor (address dest.now) own.now) result }
{
    let name = own.as_slice();
    if spelled(10, name) != u32::from(dest.zone) {
        return false;
    }
    if spelled(14, name) != u32::from(dest.net) {
        return false;
    }
    if spelled(18, name) != u32::from(dest.node) {
        return false;
    }
    spelled(22, name) == u32::from(dest.point)
}

//! The names of a store's own files.
ghost use Rattle.std.specs.Prelude.{◌≡◌, ◌≤◌, ◌++◌, length, true};
ghost use Rattle.ftn_addr.specs.Address.{address};
ghost use Rattle.node_store.specs.Names.{HasPlace, NumberOf, eight_digits, in_name, is_mark_ending, is_note, is_one, is_take_ending, is_take_form, mark_ending, mark_name, out_name, place_digits, take_ending, take_name, take_number};

use crate::digits::{are_digits, eight, four, value};
use disk_model::Name;
use ftn_addr::Addr;
use node_model::Flavour;

/// What an outbound file is that is taken into the own folder (FTS-5005).
#[derive(Clone, Copy, Debug, PartialEq, Eq)]
pub enum TakeKind {
    /// A flow file: a list of files to send.
    Flow(Flavour),
    /// A packet of netmail.
    Netmail(Flavour),
    /// A file request.
    Request,
}

/// What a mark in the outbound says (FTS-5005).
#[derive(Clone, Copy, Debug, PartialEq, Eq)]
pub enum MarkKind {
    /// The outbound of an address is in use.
    Busy,
    /// An address is being called.
    Call,
}

/// The file of a queued file: `out.` and eight digits.
#[tactic(auto, unfolding(crate::specs::Names::out_name, crate::specs::Names::eight_digits))]
pub fn out_file(number: u32) -> Name
    ensures { result ≡ out_name number }
{
    let d = eight(number);
    let name = [
        b'o', b'u', b't', b'.', d[0], d[1], d[2], d[3], d[4], d[5], d[6], d[7],
    ];
    Name::new(&name).unwrap()
}

/// The file of a part or of a received file: `in.` and eight digits.
#[tactic(auto, unfolding(crate::specs::Names::in_name, crate::specs::Names::eight_digits))]
pub fn in_file(number: u32) -> Name
    ensures { result ≡ in_name number }
{
    let d = eight(number);
    let name = [
        b'i', b'n', b'.', d[0], d[1], d[2], d[3], d[4], d[5], d[6], d[7],
    ];
    Name::new(&name).unwrap()
}

// Zone, net, node and point, four digits each.
#[tactic(auto, unfolding(crate::specs::Names::place_digits, crate::specs::Names::four_digits))]
fn place(addr: &Addr) -> [u8; 16]
    ensures digits { result ≡ place_digits (address addr.now) }
    ensures numbers { HasPlace (address addr.now) }
{
    let (z, n, f, p) = (
        four(addr.zone),
        four(addr.net),
        four(addr.node),
        four(addr.point),
    );
    [
        z[0], z[1], z[2], z[3], n[0], n[1], n[2], n[3], f[0], f[1], f[2], f[3], p[0], p[1], p[2],
        p[3],
    ]
}

// The ending of an outbound file.
fn ending_of_take(kind: TakeKind) -> [u8; 4]
    ensures { result ≡ take_ending kind }
{
    match kind {
        TakeKind::Flow(Flavour::Immediate) => *b".ilo",
        TakeKind::Flow(Flavour::Crash) => *b".clo",
        TakeKind::Flow(Flavour::Direct) => *b".dlo",
        TakeKind::Flow(Flavour::Normal) => *b".flo",
        TakeKind::Flow(Flavour::Hold) => *b".hlo",
        TakeKind::Netmail(Flavour::Immediate) => *b".iut",
        TakeKind::Netmail(Flavour::Crash) => *b".cut",
        TakeKind::Netmail(Flavour::Direct) => *b".dut",
        TakeKind::Netmail(Flavour::Normal) => *b".out",
        TakeKind::Netmail(Flavour::Hold) => *b".hut",
        TakeKind::Request => *b".req",
    }
}

fn ending_of_mark(kind: MarkKind) -> [u8; 4]
    ensures { result ≡ mark_ending kind }
{
    match kind {
        MarkKind::Busy => *b".bsy",
        MarkKind::Call => *b".csy",
    }
}

#[tactic(auto, unfolding(crate::specs::Names::take_name))]
fn take_bytes(take: u32, addr: &Addr, kind: TakeKind) -> [u8; 30]
    ensures bytes { result ≡ take_name take (address addr.now) kind }
    ensures place { HasPlace (address addr.now) }
{
    let d = eight(take);
    let p = place(addr);
    let e = ending_of_take(kind);
    [
        b't', d[0], d[1], d[2], d[3], d[4], d[5], d[6], d[7], b'-', p[0], p[1], p[2], p[3], p[4],
        p[5], p[6], p[7], p[8], p[9], p[10], p[11], p[12], p[13], p[14], p[15], e[0], e[1], e[2],
        e[3],
    ]
}

/// An outbound file that was taken: `t`, eight digits of the take, `-`, for whom, and its ending.
pub fn take_file(take: u32, addr: &Addr, kind: TakeKind) -> Name
    ensures { result ≡ take_name take (address addr.now) kind }
{
    let name = take_bytes(take, addr, kind);
    Name::new(&name).unwrap()
}

#[tactic(auto, unfolding(crate::specs::Names::mark_name))]
fn mark_bytes(addr: &Addr, kind: MarkKind) -> [u8; 21]
    ensures bytes { result ≡ mark_name (address addr.now) kind }
    ensures place { HasPlace (address addr.now) }
{
    let p = place(addr);
    let e = ending_of_mark(kind);
    [
        b'm', p[0], p[1], p[2], p[3], p[4], p[5], p[6], p[7], p[8], p[9], p[10], p[11], p[12],
        p[13], p[14], p[15], e[0], e[1], e[2], e[3],
    ]
}

/// The note of a mark that may stand in the outbound: `m`, of whom, and its ending.
pub fn mark_file(addr: &Addr, kind: MarkKind) -> Name
    ensures name { result ≡ mark_name (address addr.now) kind }
    ensures note { is_note result ≡ true }
{
    let name = mark_bytes(addr, kind);
    Name::new(&name).unwrap()
}

// The number whose eight digits stand behind that front.
fn number_behind(front: &[u8], name: &[u8]) -> Option<u32>
    requires { length front.now ≤ 8 }
    ensures { NumberOf (λ number. front.now ++ eight_digits number) result name.now }
{
    if name.len() != front.len() + 8 {
        return None;
    }
    let (start, digits) = name.split_at(front.len());
    if !is_one(start, front) {
        return None;
    }
    value(digits)
}

/// The number of the queued file whose file has that name.
#[tactic(auto, unfolding(crate::specs::Names::out_name))]
pub fn queued_number(name: &Name) -> Option<u32>
    ensures { NumberOf out_name result name.now }
{
    number_behind(b"out.", name.as_slice())
}

/// The number of the part or received file whose file has that name.
#[tactic(auto, unfolding(crate::specs::Names::in_name))]
pub fn received_number(name: &Name) -> Option<u32>
    ensures { NumberOf in_name result name.now }
{
    number_behind(b"in.", name.as_slice())
}

fn is_one(bytes: &[u8], others: &[u8]) -> bool
    ensures { result ≡ is_one bytes.now others.now }
{
    bytes == others
}

fn is_ending(ending: &[u8]) -> bool
    ensures { result ≡ is_take_ending ending.now }
{
    is_one(ending, b".ilo")
        || is_one(ending, b".clo")
        || is_one(ending, b".dlo")
        || is_one(ending, b".flo")
        || is_one(ending, b".hlo")
        || is_one(ending, b".iut")
        || is_one(ending, b".cut")
        || is_one(ending, b".dut")
        || is_one(ending, b".out")
        || is_one(ending, b".hut")
        || is_one(ending, b".req")
}

// Whether bytes have that length, those bytes at two places, digits and an ending.
fn is_take_form(name: &[u8]) -> bool
    ensures { result ≡ is_take_form name.now }
{
    if name.len() != 30 {
        return false;
    }
    if !is_one(&name[..1], b"t") {
        return false;
    }
    if !is_one(&name[9..10], b"-") {
        return false;
    }
    if !are_digits(&name[10..26]) {
        return false;
    }
    is_ending(&name[26..30])
}

/// The number of the take whose name this is, from 1 on, if it is a take's.
#[tactic(auto, unfolding(crate::specs::Names::take_number))]
pub fn take_number(name: &Name) -> Option<u32>
    ensures { result ≡ take_number name.now }
{
    let bytes = name.as_slice();
    if !is_take_form(bytes) {
        return None;
    }
    match value(&bytes[1..9]) {
        Some(0) => None,
        number => number,
    }
}

// Whether those are the endings of marks.
fn is_mark_ending(ending: &[u8]) -> bool
    ensures { result ≡ is_mark_ending ending.now }
{
    is_one(ending, b".bsy") || is_one(ending, b".csy")
}

/// Whether it is the name of a mark's note.
#[tactic(auto, unfolding(crate::specs::Names::is_note))]
pub fn is_note(name: &Name) -> bool
    ensures { result ≡ is_note name.now }
{
    let bytes = name.as_slice();
    if bytes.len() != 21 {
        return false;
    }
    if !is_one(&bytes[..1], b"m") {
        return false;
    }
    if !are_digits(&bytes[1..17]) {
        return false;
    }
    is_mark_ending(&bytes[17..21])
}

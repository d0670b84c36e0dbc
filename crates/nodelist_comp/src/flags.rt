//! The flags of a node that say where it answers binkp (FTS-5001).
ghost use Rattle.std.specs.Prelude.{◌≡◌, ◌==◌, option_map, position};
ghost use Rattle.nodelist_comp.specs.Fields.{fields_left};
ghost use Rattle.nodelist_comp.specs.Flags.{after, endpoint, first_ibn, first_ina, host_and_port, ibn_value, plain_host, bracketed_host, port_of, port_behind};

use crate::comma::first_field;
use ftn_addr::read_digits;

/// The port of binkp where none is named.
pub(crate) const BINKP_PORT: u16 = 24_554;

/// What stands behind the front.
fn after<'a>(front: &[u8], text: &'a [u8]) -> Option<&'a [u8]>
    ensures { option_map (λ rest. rest.now) result ≡ after front.now text.now }
{
    text.strip_prefix(front)
}

/// The value of an `IBN` flag, which is empty without one.
fn ibn_value(flag: &[u8]) -> Option<&[u8]>
    ensures { option_map (λ value. value.now) result ≡ ibn_value flag.now }
{
    if flag == b"IBN".as_slice() {
        Some(&[])
    } else {
        after(b"IBN:", flag)
    }
}

/// The value of the first `IBN` flag.
fn first_ibn(flags: Option<&[u8]>) -> Option<&[u8]>
    ensures { option_map (λ value. value.now) result
        ≡ first_ibn (fields_left (option_map (λ flags. flags.now) flags.entry)) }
{
    let mut rest = flags;
    while let Some(flags) = rest {
        let (flag, after) = first_field(flags);
        if let Some(value) = ibn_value(flag) {
            return Some(value);
        }
        rest = after;
    }
    None
}

/// The value of the first `INA:` flag, or nothing.
fn first_ina(flags: Option<&[u8]>) -> &[u8]
    ensures { result.now ≡ first_ina (fields_left (option_map (λ flags. flags.now) flags.entry)) }
{
    let mut rest = flags;
    while let Some(flags) = rest {
        let (flag, more) = first_field(flags);
        if let Some(value) = after(b"INA:", flag) {
            return value;
        }
        rest = more;
    }
    &[]
}

/// The port that a text names: a number from 1 to 65,535, or that of binkp.
#[tactic(auto, unfolding(crate::specs::Flags::port_of))]
fn port_of(text: &[u8]) -> u16
    ensures { result ≡ port_of text.now }
{
    match read_digits(text) {
        Some(port) if port > 0 && port < 65_536 => port as u16,
        _ => BINKP_PORT,
    }
}

fn first_place(text: &[u8], byte: u8) -> Option<usize>
    ensures { result ≡ position (λ b. b == byte) text.now }
{
    text.iter().position(|b| *b == byte)
}

/// The port behind the first `:`.
#[tactic(auto, unfolding(crate::specs::Flags::port_behind))]
fn port_behind(text: &[u8]) -> u16
    ensures { result ≡ port_behind text.now }
{
    match first_place(text, b':') {
        Some(end) => port_of(&text[end + 1..]),
        None => BINKP_PORT,
    }
}

/// A host up to and with its `]`.
#[tactic(auto, unfolding(crate::specs::Flags::bracketed_host))]
fn bracketed_host(value: &[u8]) -> (&[u8], u16)
    ensures { (result.0.now, result.1) ≡ bracketed_host value.now }
{
    match first_place(value, b']') {
        Some(end) => (&value[..end + 1], port_behind(&value[end + 1..])),
        None => (value, BINKP_PORT),
    }
}

/// A host up to the first `:`.
#[tactic(auto, unfolding(crate::specs::Flags::plain_host))]
fn plain_host(value: &[u8]) -> (&[u8], u16)
    ensures { (result.0.now, result.1) ≡ plain_host value.now }
{
    match first_place(value, b':') {
        Some(end) => (&value[..end], port_of(&value[end + 1..])),
        None => (value, BINKP_PORT),
    }
}

/// The host and the port of the value of an `IBN` flag.
#[tactic(auto, unfolding(crate::specs::Flags::host_and_port))]
fn host_and_port(value: &[u8]) -> (&[u8], u16)
    ensures { (result.0.now, result.1) ≡ host_and_port value.now }
{
    if read_digits(value).is_some() {
        (&[], port_of(value))
    } else if value.starts_with(b"[") {
        bracketed_host(value)
    } else {
        plain_host(value)
    }
}

/// Where a node answers binkp whose flags are the fields of this rest of its line.
#[tactic(auto, unfolding(crate::specs::Flags::endpoint))]
pub(crate) fn endpoint(flags: Option<&[u8]>) -> (&[u8], u16)
    ensures { (result.0.now, result.1) ≡ endpoint (fields_left (option_map (λ flags. flags.now) flags.entry)) }
{
    let Some(value) = first_ibn(flags) else {
        return (&[], BINKP_PORT);
    };
    let (host, port) = host_and_port(value);
    if host.is_empty() {
        (first_ina(flags), port)
    } else {
        (host, port)
    }
}

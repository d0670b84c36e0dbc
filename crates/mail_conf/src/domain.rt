//! The `domain` line, and the home that addresses without a zone or a domain take.
ghost use Rattle.std.specs.Prelude.{◌≡◌, map, option_map, IfOk};
ghost use Rattle.std.specs.Str.Lines.{lines};
ghost use Rattle.ftn_addr.specs.Address.{address};
ghost use Rattle.ftn_addr.specs.Outcomes.{Gives};
ghost use Rattle.mail_conf.specs.Domain.{address_at, domain_line, domain_words, home_from, home_of, is_alias};
ghost use Rattle.mail_conf.specs.Views.{domain_text};

use crate::ConfCause;
use crate::values::{before_comment, number_in, once, word_at};
use ftn_addr::{
    Addr, AddrFault, Bytes, MAX_ADDRESS_NUMBER, NoMemory, first_line, is_domain, is_same_word,
    read_addr, words,
};
use std::alloc::Global;

/// What a `domain` line sets.
#[derive(Debug, Drop)]
pub(crate) struct DomainLine {
    pub name: Bytes,
    pub base: Bytes,
    pub zone: u16,
}

/// Whether the words behind `domain` only name another domain's alias.
pub(crate) fn is_alias(words: &[&[u8]]) -> bool
    ensures { result ≡ is_alias (map (λ word. word.now) words.now) }
{
    match words.get(1) {
        Some(word) => is_same_word(*word, b"alias-for"),
        None => false,
    }
}

/// What the words behind `domain` set: the name, the outbound's folder and the zone.
#[tactic(auto, unfolding(crate::specs::Domain::domain_line))]
pub(crate) fn domain_line(
    alloc: Global,
    given: bool,
    words: &[&[u8]],
) -> Result<DomainLine, ConfCause>
    ensures { Gives ConfCause.NoMemory domain_text result (domain_line given (map (λ word. word.now) words.now)) }
{
    let name = word_at(words, 0)?;
    let base = word_at(words, 1)?;
    let zone = word_at(words, 2)?;
    once(given)?;
    if !is_domain(name) {
        return Err(ConfCause::BadAddress);
    }
    let zone = number_in(zone, 0, u64::from(MAX_ADDRESS_NUMBER))?;
    Ok(DomainLine {
        name: Bytes::lower_case(alloc, name)?,
        base: Bytes::from_slice(alloc, base)?,
        zone: zone as u16,
    })
}

/// The words of a `domain` line that names no alias, without the first.
fn domain_words<'a, 'b>(words: &'b [&'a [u8]]) -> Option<&'b [&'a [u8]]>
    ensures { option_map (λ rest. map (λ word. word.now) rest.now) result
        ≡ domain_words (map (λ word. word.now) words.now) }
{
    match words {
        [word, rest @ ..] if is_same_word(*word, b"domain") && !is_alias(rest) => Some(rest),
        _ => None,
    }
}

fn home_at(zone: u16, domain: Bytes) -> Addr
    ensures { address result ≡ record { zone = zone; net = 0; node = 0; point = 0; domain = domain.list } }
{
    Addr {
        zone,
        net: 0,
        node: 0,
        point: 0,
        domain,
    }
}

/// A zone that no address has, for want of a `domain` line.
const NO_ZONE: u16 = 65_535;

/// The home that the words of a `domain` line give, be they good or bad.
fn home_from(alloc: Global, words: &[&[u8]]) -> Result<Addr, NoMemory>
    ensures { IfOk result (λ home. address home ≡ home_from (map (λ word. word.now) words.now)) }
{
    match domain_line(alloc, false, words) {
        Ok(line) => Ok(home_at(line.zone, line.name)),
        Err(ConfCause::NoMemory) => Err(NoMemory),
        Err(_) => Ok(home_at(0, Bytes::from_slice(alloc, b"fidonet")?)),
    }
}

/// The home that addresses without a zone or a domain take: that of the first `domain` line.
///
/// Where there is none, the zone is one that no address has. Where the line is bad, any home does, as
/// that line is told.
pub(crate) fn home_of(alloc: Global, text: &[u8]) -> Result<Addr, NoMemory>
    ensures { IfOk result (λ home. address home ≡ home_of (lines text.now)) }
{
    let mut rest = text;
    while let Some((line, after)) = first_line(rest) {
        let words = words(alloc, before_comment(line))?;
        if let Some(words) = domain_words(words.as_slice()) {
            return home_from(alloc, words);
        }
        rest = after;
    }
    Ok(home_at(NO_ZONE, Bytes::from_slice(alloc, b"fidonet")?))
}

/// The address of a word, which has a zone of its own or that of the home.
#[tactic(auto, unfolding(crate::specs::Domain::address_at))]
pub(crate) fn address_at(alloc: Global, home: &Addr, word: &[u8]) -> Result<Addr, ConfCause>
    ensures { Gives ConfCause.NoMemory address result (address_at (address home.now) word.now) }
{
    match read_addr(alloc, word, home) {
        Ok(addr) if addr.zone <= MAX_ADDRESS_NUMBER => Ok(addr),
        Err(AddrFault::NoMemory) => Err(ConfCause::NoMemory),
        _ => Err(ConfCause::BadAddress),
    }
}

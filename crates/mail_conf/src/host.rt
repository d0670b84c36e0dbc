//! The `node` line.
ghost use Rattle.std.specs.Prelude.{◌≡◌, ◌==◌, map, position, IfOk};
ghost use Rattle.ftn_addr.specs.Address.{address};
ghost use Rattle.ftn_addr.specs.Outcomes.{Gives, GivesExactly};
ghost use Rattle.mail_conf.specs.Host.{first_host, host_and_port, host_at, host_word, is_none, is_option, node_line, password_word, without_options};
ghost use Rattle.mail_conf.specs.Views.{node_text};

use crate::domain::address_at;
use crate::nodes::NodeList;
use crate::values::{number_in, once, word_at};
use crate::{ConfCause, Node};
use ftn_addr::{Addr, Bytes, NoMemory};
use std::alloc::Global;

/// The port of binkp where none is named.
const BINKP_PORT: u16 = 24_554;

fn first_place(text: &[u8], byte: u8) -> Option<usize>
    ensures { result ≡ position (λ b. b == byte) text.now }
{
    text.iter().position(|b| *b == byte)
}

/// A host that stands for none.
fn is_none(word: &[u8]) -> bool
    ensures { result ≡ is_none word.now }
{
    word == b"-".as_slice() || word == b"*".as_slice()
}

/// The first of a list of hosts.
fn first_host(word: &[u8]) -> &[u8]
    ensures { result.now ≡ first_host word.now }
{
    match first_place(word, b';') {
        Some(end) => &word[..end],
        None => word,
    }
}

/// A host, and the port behind its first `:`.
#[tactic(auto, unfolding(crate::specs::Host::host_and_port))]
fn host_and_port(text: &[u8]) -> Result<(&[u8], u16), ConfCause>
    ensures { GivesExactly (λ x. (x.0.now, x.1)) result (host_and_port text.now) }
{
    match first_place(text, b':') {
        Some(end) => {
            let port = number_in(&text[end + 1..], 1, 65_535)?;
            Ok((&text[..end], port as u16))
        }
        None => Ok((text, BINKP_PORT)),
    }
}

/// The host and the port that a word names: the first of its list, if that isn't none.
#[tactic(auto, unfolding(crate::specs::Host::host_at))]
fn host_at(word: &[u8]) -> Result<(&[u8], u16), ConfCause>
    ensures { GivesExactly (λ x. (x.0.now, x.1)) result (host_at word.now) }
{
    let host = first_host(word);
    if is_none(host) {
        return Ok((&[], BINKP_PORT));
    }
    host_and_port(host)
}

#[tactic(auto, unfolding(crate::specs::Host::host_word))]
fn host_word<'a>(words: &[&'a [u8]]) -> Result<(&'a [u8], u16), ConfCause>
    ensures { GivesExactly (λ x. (x.0.now, x.1)) result (host_word (map (λ word. word.now) words.now)) }
{
    match words.get(1) {
        Some(word) => host_at(*word),
        None => Ok((&[], BINKP_PORT)),
    }
}

fn password_word<'a>(words: &[&'a [u8]]) -> &'a [u8]
    ensures { result.now ≡ password_word (map (λ word. word.now) words.now) }
{
    match words.get(2) {
        Some(word) if *word != b"-".as_slice() => *word,
        _ => &[],
    }
}

/// A word of binkd's that sets nothing here.
fn is_option(word: &[u8]) -> bool
    ensures { result ≡ is_option word.now }
{
    word.len() > 1 && word.starts_with(b"-")
}

fn without_options<'a>(alloc: Global, words: &[&'a [u8]]) -> Result<Vec<&'a [u8]>, NoMemory>
    ensures { IfOk result (λ kept. map (λ word. word.now) kept.items
        ≡ without_options (map (λ word. word.now) words.now)) }
{
    let mut kept = Vec::new(alloc);
    for word in words {
        if !is_option(*word) {
            kept.push(*word)?;
        }
    }
    Ok(kept)
}

/// The node that the words behind `node` set: the address, the host and the password.
#[tactic(auto, unfolding(crate::specs::Host::node_line))]
pub(crate) fn node_line(
    alloc: Global,
    home: &Addr,
    nodes: &NodeList,
    words: &[&[u8]],
) -> Result<Node, ConfCause>
    ensures { Gives ConfCause.NoMemory node_text result
        (node_line (address home.now) nodes.now (map (λ word. word.now) words.now)) }
{
    let words = without_options(alloc, words)?;
    let addr = address_at(alloc, home, word_at(words.as_slice(), 0)?)?;
    once(nodes.has(&addr))?;
    let (host, port) = host_word(words.as_slice())?;
    let password = password_word(words.as_slice());
    Ok(Node {
        addr,
        host: Bytes::from_slice(alloc, host)?,
        port,
        password: Bytes::from_slice(alloc, password)?,
    })
}

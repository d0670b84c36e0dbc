//! What a peer does, and what its session comes to.
use crate::phrases::said;
use crate::shown::{heard_text, moved_text, receipts_text, records_text, report_text, told};
use crate::words::{file, files, halves, node_number, number};
use anyhow::{Result, bail};
use ftn_addr::Bytes;
use mem_talk::{Peer, Word, address, has_each, kept_of, live};
use std::alloc::Global;
use test_script::{behind, word, words_of};

// Says phrases: what is heard then.
fn say(alloc: Global, peer: &mut Peer, turns: u32, phrases: &str, n: u64) -> Result<Bytes> {
    let own = said(alloc, phrases, n)?;
    Ok(peer.say(alloc, &[Word::Raw(own.as_slice())], turns)?)
}

// Says the phrases before a bar: what is heard then.
fn hear(alloc: Global, peer: &mut Peer, turns: u32, phrases: &str, n: u64) -> Result<String> {
    let (own, last) = halves(phrases);
    let heard = say(alloc, peer, turns, own, n)?;
    let last = said(alloc, last, n)?;
    heard_text(alloc, heard.as_slice(), last.as_slice())
}

// The same, whether that ends with the phrases behind the bar.
fn ends(alloc: Global, peer: &mut Peer, turns: u32, phrases: &str, n: u64) -> Result<String> {
    let (own, last) = halves(phrases);
    let heard = say(alloc, peer, turns, own, n)?;
    let last = said(alloc, last, n)?;
    told(alloc, heard.as_slice().ends_with(last.as_slice()))
}

// Says phrases, and reads nothing.
fn tell(alloc: Global, peer: &mut Peer, turns: u32, phrases: &str, n: u64) -> Result<String> {
    let own = said(alloc, phrases, n)?;
    peer.tell(alloc, &[Word::Raw(own.as_slice())], turns)?;
    Ok(String::new(alloc))
}

fn cut(alloc: Global, peer: &mut Peer, turns: u32) -> String {
    peer.cut(alloc, turns);
    String::new(alloc)
}

// Whether the node has received these files of that one, each once and whole, and no others.
fn has(alloc: Global, peer: &Peer, words: &[&str], text: &str) -> Result<String> {
    let from = address(alloc, node_number(words, 1)?)?;
    let files = files(alloc, text)?;
    let has = has_each(alloc, peer.store(), &from, files.as_slice())?;
    told(alloc, has)
}

// How much the node keeps of a file of that one.
fn keeps(alloc: Global, peer: &Peer, words: &[&str]) -> Result<String> {
    let file = file(word(words, 2))?;
    let from = address(alloc, node_number(words, 1)?)?;
    let kept = kept_of(alloc, peer.store(), &from, file)?;
    told(alloc, kept)
}

fn ask(alloc: Global, peer: &Peer, line: &str, words: &[&str]) -> Result<String> {
    match word(words, 0) {
        "report" => report_text(alloc, peer.report()),
        "moved" => moved_text(alloc, peer.report()),
        "receipts" => receipts_text(alloc, peer.store()),
        "records" => records_text(alloc, peer.store()),
        "left" => told(alloc, live(peer.store())),
        "has" => has(alloc, peer, words, behind(behind(line))),
        "keeps" => keeps(alloc, peer, words),
        _ => bail!("no such call"),
    }
}

// What comes of what the peer does, behind which the session has its turns.
fn act(alloc: Global, peer: &mut Peer, line: &str, words: &[&str], n: u64) -> Result<String> {
    let turns = u32::try_from(number(words, 1, n)?)?;
    let phrases = behind(behind(line));
    match word(words, 0) {
        "say" => hear(alloc, peer, turns, phrases, n),
        "ends" => ends(alloc, peer, turns, phrases, n),
        "tell" => tell(alloc, peer, turns, phrases, n),
        _ => Ok(cut(alloc, peer, turns)),
    }
}

/// What the peer's call of this line comes to, empty where it tells nothing.
pub fn peer_call(alloc: Global, peer: &mut Peer, line: &str, n: u64) -> Result<String> {
    let words = words_of(alloc, line)?;
    match word(words.as_slice(), 0) {
        "say" | "ends" | "tell" | "cut" => act(alloc, peer, line, words.as_slice(), n),
        _ => ask(alloc, peer, line, words.as_slice()),
    }
}

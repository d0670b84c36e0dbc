//! The calls of the script, by their words.
use crate::addresses::{copy_of_key, read};
use crate::byte_lists::{line, words_in};
use crate::files::{command, flow, numbered, own_name, plain, request};
use crate::ledger::{list, marked, took};
use crate::outbound::{ZONE, ending, folder_of_zone, path};
use crate::passwords::{answer, digest, offer, offered};
use crate::places::{in_order, of_file, path_of, place, place_text};
use crate::settings::{fault, settings};
use crate::shown::{both_quoted, quoted};
use crate::stage::Stage;
use anyhow::{Result, bail};
use bso_outbound::{folder_above, last_part, point_folder_of, zone_of};
use cram_md5::check;
use ftn_addr::{first_word, is_domain, is_same_word, read_digits, trimmed};
use node_model::{LEAST_STRIDE, MOST_RECORDS, STRIDES};
use outbound_places::place_of;
use std::alloc::Global;
use test_script::{behind, word, words_from};

// A call of places, of a ledger, or of an outbound that was taken in.
fn of_places(alloc: Global, stage: &Stage, words: &[&str], text: &[u8]) -> Result<String> {
    match word(words, 0) {
        "path_in" => path_of(alloc, words),
        "place" => place_text(alloc, place_of(text)),
        "place_in" => place_text(alloc, place(alloc, word(words, 1), word(words, 2))?),
        "places" => in_order(alloc, words_from(words, 1)),
        "list" => list(alloc, &stage.ledger),
        "took" => took(alloc, words),
        "marked" => marked(alloc, text),
        _ => bail!("no such call"),
    }
}

// A call of the paths of an outbound.
fn of_paths(alloc: Global, stage: &Stage, words: &[&str], text: &[u8]) -> Result<String> {
    match word(words, 0) {
        "ending" => ending(alloc, words),
        "path" => path(alloc, words),
        "zone_folder" => folder_of_zone(alloc, words),
        "whose" | "file" => of_file(alloc, words),
        "above" => both_quoted(alloc, folder_above(text), last_part(text)),
        "zone" => Ok(format!(in alloc; "{:?}", zone_of(text, b"outbound", ZONE))?),
        "points" => Ok(format!(in alloc; "{:?}", point_folder_of(text))?),
        _ => of_places(alloc, stage, words, text),
    }
}

// A call of a flow file, a request, a password or the settings.
fn of_texts(alloc: Global, stage: &Stage, words: &[&str], text: &[u8]) -> Result<String> {
    let (first, second) = (word(words, 1), word(words, 2));
    match word(words, 0) {
        "flow" => flow(alloc, text),
        "request" => request(alloc, text, stage.shares.as_slice()),
        "hmac" => digest(alloc, words, text),
        "offer" => offer(alloc, text),
        "answer" => answer(alloc, first, text),
        "check" => {
            let passes = check(first.as_bytes(), text, second.as_bytes());
            Ok(format!(in alloc; "{passes}")?)
        }
        "offered" => offered(alloc, text),
        "fault" => fault(alloc, text),
        "settings" => settings(alloc, text, first),
        _ => of_paths(alloc, stage, words, text),
    }
}

// A call of an address, a key or a name.
fn of_names(alloc: Global, stage: &Stage, words: &[&str], text: &[u8]) -> Result<String> {
    match word(words, 0) {
        "address" => read(alloc, text),
        "copy_key" => copy_of_key(alloc, words),
        "limits" => Ok(format!(in alloc; "{MOST_RECORDS} {LEAST_STRIDE} {STRIDES}")?),
        "plain" => plain(alloc, text),
        "numbered" => numbered(alloc, words, text),
        "own_name" => own_name(alloc, text),
        "command" => command(alloc, text),
        _ => of_texts(alloc, stage, words, text),
    }
}

// A call of bytes, or of their lines and words.
fn of_bytes(alloc: Global, stage: &Stage, words: &[&str], text: &[u8]) -> Result<String> {
    let (first, second) = (word(words, 1).as_bytes(), word(words, 2).as_bytes());
    match word(words, 0) {
        "text" => quoted(alloc, text),
        "digits" => Ok(format!(in alloc; "{:?}", read_digits(text))?),
        "line" => line(alloc, text),
        "words" => words_in(alloc, text),
        "first_word" => {
            let (word, rest) = first_word(text);
            both_quoted(alloc, word, rest)
        }
        "trimmed" => quoted(alloc, trimmed(text)),
        "domain" => Ok(format!(in alloc; "{}", is_domain(text))?),
        "same_word" => Ok(format!(in alloc; "{}", is_same_word(first, second))?),
        _ => of_names(alloc, stage, words, text),
    }
}

// What stands behind the words of a call that aren't of its text.
fn last<'a>(line: &'a str, name: &str) -> &'a str {
    let rest = behind(line);
    match name {
        "numbered" | "answer" => behind(rest),
        "hmac" | "check" => behind(behind(rest)),
        "settings" => "",
        _ => rest,
    }
}

/// Makes the call of this line: what it answers.
pub fn call(alloc: Global, stage: &Stage, line: &str, words: &[&str]) -> Result<String> {
    let text = stage.text_with(alloc, last(line, word(words, 0)))?;
    of_bytes(alloc, stage, words, text.as_slice())
}

//! What a store tells.
use crate::words::{flavour_of, key, node, quoted, said, unmet};
use anyhow::Result;
use mem_store::{ListStore, LogRecord};
use node_model::Store;
use std::alloc::Global;
use test_script::{bytes, shown, word};

// Counts, each with what it counts.
fn counted(alloc: Global, counts: &[(u64, &str)]) -> Result<String> {
    let mut text = String::new(alloc);
    for (count, what) in counts {
        if !text.is_empty() {
            text.push_str(", ")?;
        }
        push_numbered(alloc, *count, what, &mut text)?;
    }
    Ok(text)
}

fn push_numbered(alloc: Global, number: u64, what: &str, text: &mut String) -> Result<()> {
    let said = format!(in alloc; "{number} {what}")?;
    text.push_str(said.as_str())?;
    Ok(())
}

// A number, and what is said of it.
fn numbered(alloc: Global, number: u64, what: &str) -> Result<String> {
    Ok(format!(in alloc; "{number} {what}")?)
}

fn counts(alloc: Global, store: &ListStore) -> Result<String> {
    let mut text = counted(
        alloc,
        &[(store.faults(), "faults"), (store.fulls(), "fulls")],
    )?;
    text.push_str(", broken ")?;
    text.push_str(said(alloc, store.broken())?.as_str())?;
    text.push_str(", ")?;
    let log = [
        (store.appended(), "appended"),
        (u64::from(store.reserved()), "reserved"),
    ];
    text.push_str(counted(alloc, &log)?.as_str())?;
    Ok(text)
}

// How many items each list has.
fn lists(alloc: Global, store: &ListStore) -> Result<String> {
    let lens = [
        (store.entries().len() as u64, "queued"),
        (store.staged().len() as u64, "staged"),
        (store.receipts().len() as u64, "received"),
        (store.refusals().len() as u64, "refused"),
        (store.gifts().len() as u64, "given"),
        (store.outside().len() as u64, "outside"),
    ];
    counted(alloc, &lens)
}

// What stands in a list; `none` where nothing does.
fn listed(alloc: Global, items: &str) -> Result<String> {
    let text = if items.is_empty() {
        "none"
    } else {
        items.trim_start()
    };
    Ok(String::from_str(alloc, text)?)
}

// One item more of a list: a number, and these words behind it.
fn push_item(alloc: Global, number: u32, words: &[&str], text: &mut String) -> Result<()> {
    let number = said(alloc, number)?;
    text.push_str(" [")?;
    text.push_str(number.as_str())?;
    for word in words {
        text.push_str(" ")?;
        text.push_str(word)?;
    }
    text.push_str("]")?;
    Ok(())
}

// These words, but for the second where that isn't so.
fn with_word<'t>(words: &'t [&'t str; 2], is_so: bool) -> &'t [&'t str] {
    if is_so { words } else { &words[..1] }
}

fn content_of(alloc: Global, content: Option<&[u8]>) -> Result<String> {
    match content {
        Some(bytes) => quoted(alloc, bytes),
        None => Ok(String::from_str(alloc, "settled")?),
    }
}

// The queued files: number, bytes, and whether what was to be done with the source is done.
fn entries(alloc: Global, store: &ListStore) -> Result<String> {
    let mut text = String::new(alloc);
    for entry in store.entries() {
        let content = content_of(alloc, entry.content.as_ref().map(|bytes| bytes.as_slice()))?;
        let words = [content.as_str(), "acted"];
        push_item(
            alloc,
            entry.number,
            with_word(&words, entry.acted),
            &mut text,
        )?;
    }
    listed(alloc, text.as_str())
}

// The received files: number, bytes, whether the session was secure, and whether it was given.
fn receipts(alloc: Global, store: &ListStore) -> Result<String> {
    let mut text = String::new(alloc);
    for receipt in store.receipts() {
        let mut content = quoted(alloc, receipt.content())?;
        content.push_str(if receipt.secure { " secure" } else { "" })?;
        let words = [content.as_str(), "given"];
        push_item(
            alloc,
            receipt.number,
            with_word(&words, receipt.given),
            &mut text,
        )?;
    }
    listed(alloc, text.as_str())
}

fn staged(alloc: Global, store: &ListStore) -> Result<String> {
    let mut text = String::new(alloc);
    for file in store.staged() {
        let content = quoted(alloc, file.content())?;
        push_item(alloc, file.number, &[content.as_str()], &mut text)?;
    }
    listed(alloc, text.as_str())
}

// The files given away: receipt, folder and name.
fn gifts(alloc: Global, store: &ListStore) -> Result<String> {
    let mut text = String::new(alloc);
    for gift in store.gifts() {
        let mut path = shown(alloc, gift.folder.as_slice())?;
        path.push_str(" ")?;
        path.push_str(shown(alloc, gift.name.as_slice())?.as_str())?;
        push_item(alloc, gift.receipt, &[path.as_str()], &mut text)?;
    }
    listed(alloc, text.as_str())
}

// Two numbers, and what is said between them.
fn between(alloc: Global, number: u32, what: &str, other: u64) -> Result<String> {
    let mut text = numbered(alloc, u64::from(number), what)?;
    text.push_str(" ")?;
    text.push_str(said(alloc, other)?.as_str())?;
    Ok(text)
}

fn refused(alloc: Global, reason: u8) -> Result<String> {
    Ok(format!(in alloc; "refused for reason {reason}")?)
}

fn record_text(alloc: Global, record: &LogRecord) -> Result<String> {
    match record {
        LogRecord::Queued { number, .. } => numbered(alloc, u64::from(*number), "queued"),
        LogRecord::Done { number, session } => {
            between(alloc, *number, "done in session", u64::from(*session))
        }
        LogRecord::Received { receipt, .. } => numbered(alloc, u64::from(*receipt), "received"),
        LogRecord::Refused { reason, .. } => refused(alloc, *reason),
        LogRecord::Marked { part, size, .. } => between(alloc, *part, "marked at", *size),
        LogRecord::Taken { take } => numbered(alloc, u64::from(*take), "taken"),
        LogRecord::Acted { number } => numbered(alloc, u64::from(*number), "acted"),
        LogRecord::Answered { receipt } => numbered(alloc, u64::from(*receipt), "answered"),
    }
}

// Adds a record, with its seat.
fn push_record(alloc: Global, seat: u32, record: &str, text: &mut String) -> Result<()> {
    let item = format!(in alloc; " [seat {seat}: {record}]")?;
    text.push_str(item.as_str())?;
    Ok(())
}

// The records, each with its seat.
fn records(alloc: Global, store: &ListStore) -> Result<String> {
    let mut text = String::new(alloc);
    for entry in store.records() {
        let record = record_text(alloc, entry.record())?;
        push_record(alloc, entry.seat(), record.as_str(), &mut text)?;
    }
    listed(alloc, text.as_str())
}

// The first live entry for a node behind a place among them, or the first of all.
fn live(alloc: Global, store: &ListStore, words: &[&str]) -> Result<String> {
    let after = if words.len() < 4 {
        None
    } else {
        let number = word(words, 3).parse::<u32>()?;
        Some((flavour_of(word(words, 2))?, number))
    };
    let dest = node(alloc, words, 1)?;
    said(alloc, store.next_live(&dest, after))
}

// What is known of a file, and where its marked part ends.
fn known(alloc: Global, store: &ListStore, words: &[&str]) -> Result<String> {
    let from = node(alloc, words, 1)?;
    let key = key(alloc, words, 2, 3)?;
    let mut text = said(alloc, store.known(&from, &key))?;
    text.push_str(", ")?;
    text.push_str(said(alloc, store.mark_of(&from, &key))?.as_str())?;
    Ok(text)
}

// The size in the key of an entry.
fn size(alloc: Global, store: &ListStore, words: &[&str]) -> Result<String> {
    let number = word(words, 1).parse::<u32>()?;
    if !store.is_live(number) {
        return unmet(alloc);
    }
    said(alloc, store.key_of(number).size)
}

// What stands under a path among the files of other programs.
fn content(alloc: Global, store: &ListStore, path: &str) -> Result<String> {
    let path = bytes(alloc, path)?;
    match store.content_at(path.as_slice()) {
        Some(bytes) => quoted(alloc, bytes),
        None => Ok(String::from_str(alloc, "none")?),
    }
}

/// The words of the questions.
pub const ASKS: [&str; 12] = [
    "counts", "lists", "entries", "receipts", "staged", "gifts", "records", "takes", "live",
    "known", "size", "content",
];

/// What the question of these words answers.
pub fn ask(alloc: Global, store: &ListStore, words: &[&str]) -> Result<String> {
    match word(words, 0) {
        "counts" => counts(alloc, store),
        "lists" => lists(alloc, store),
        "entries" => entries(alloc, store),
        "receipts" => receipts(alloc, store),
        "staged" => staged(alloc, store),
        "gifts" => gifts(alloc, store),
        "records" => records(alloc, store),
        "takes" => said(alloc, store.takes()),
        "live" => live(alloc, store, words),
        "known" => known(alloc, store, words),
        "size" => size(alloc, store, words),
        _ => content(alloc, store, word(words, 1)),
    }
}

//! Bytes, reports and stores as text.
use anyhow::Result;
use mem_store::{ListStore, LogRecord};
use session_core::End;
use session_run::Report;
use std::alloc::Global;
use std::fmt::Debug;
use test_script::shown;

/// An answer as it is printed.
pub fn told<T: Debug + Drop>(alloc: Global, answer: T) -> Result<String> {
    Ok(format!(in alloc; "{answer:?}")?)
}

/// What was heard, between brackets. Where it ends with what was to come last, a bar stands in place of that.
pub fn heard_text(alloc: Global, heard: &[u8], last: &[u8]) -> Result<String> {
    let (front, end) = match heard.strip_suffix(last) {
        Some(front) if !last.is_empty() => (front, "|>"),
        _ => (heard, ">"),
    };
    let mut text = String::from_str(alloc, "<")?;
    text.push_str(shown(alloc, front)?.as_str())?;
    text.push_str(end)?;
    Ok(text)
}

fn peer_error(alloc: Global, said: &[u8]) -> Result<String> {
    let said = shown(alloc, said)?;
    Ok(format!(in alloc; "PeerError({said})")?)
}

fn bad_password(alloc: Global, wanted: &[u8], given: &[u8]) -> Result<String> {
    let wanted = shown(alloc, wanted)?;
    let given = shown(alloc, given)?;
    Ok(format!(in alloc; "BadPassword({wanted}, {given})")?)
}

fn end_text(alloc: Global, end: &End) -> Result<String> {
    match end {
        End::PeerError(said) => peer_error(alloc, said.as_slice()),
        End::BadPassword(wanted, given) => bad_password(alloc, wanted.as_slice(), given.as_slice()),
        end => told(alloc, end),
    }
}

/// How a session ended.
pub fn ended_text(alloc: Global, report: Option<&Report>) -> Result<String> {
    match report {
        Some(report) => end_text(alloc, &report.end),
        None => Ok(String::from_str(alloc, "goes on")?),
    }
}

// A count behind a comma, with what it counts.
fn push_count(alloc: Global, count: u32, what: &str, text: &mut String) -> Result<()> {
    let said = format!(in alloc; ", {count} {what}")?;
    text.push_str(said.as_str())?;
    Ok(())
}

/// How a session ended, and how many files it sent, received and skipped.
pub fn counts_text(
    alloc: Global,
    end: String,
    sent: u32,
    received: u32,
    skipped: u32,
) -> Result<String> {
    let mut text = end;
    push_count(alloc, sent, "sent", &mut text)?;
    push_count(alloc, received, "received", &mut text)?;
    push_count(alloc, skipped, "skipped", &mut text)?;
    Ok(text)
}

/// What came of a session.
pub fn report_text(alloc: Global, report: Option<&Report>) -> Result<String> {
    let end = ended_text(alloc, report)?;
    let Some(report) = report else {
        return Ok(end);
    };
    counts_text(alloc, end, report.sent, report.received, report.skipped)
}

fn counted_bytes(alloc: Global, taken: u64, wrote: u64) -> Result<String> {
    Ok(format!(in alloc; "{taken} taken, {wrote} written")?)
}

/// How many bytes a session took and wrote.
pub fn moved_text(alloc: Global, report: Option<&Report>) -> Result<String> {
    match report {
        Some(report) => counted_bytes(alloc, report.taken, report.wrote),
        None => Ok(String::from_str(alloc, "goes on")?),
    }
}

fn receipt_text(alloc: Global, name: &[u8], bytes: &[u8]) -> Result<String> {
    let name = shown(alloc, name)?;
    let bytes = shown(alloc, bytes)?;
    Ok(format!(in alloc; "[{name}: {bytes}]")?)
}

/// The names and bytes of what a node received.
pub fn receipts_text(alloc: Global, store: &ListStore) -> Result<String> {
    let mut text = String::new(alloc);
    if store.receipts().is_empty() {
        text.push_str("none")?;
    }
    for receipt in store.receipts() {
        let said = receipt_text(alloc, receipt.key.name.as_slice(), receipt.bytes.as_slice())?;
        text.push_str(said.as_str())?;
    }
    Ok(text)
}

fn record_text(alloc: Global, record: &LogRecord) -> Result<String> {
    let size = match record {
        LogRecord::Marked { size, .. } => size,
        LogRecord::Received { .. } => return Ok(String::from_str(alloc, "[received]")?),
        _ => return Ok(String::from_str(alloc, "[other]")?),
    };
    Ok(format!(in alloc; "[{size} marked]")?)
}

/// The records of a node.
pub fn records_text(alloc: Global, store: &ListStore) -> Result<String> {
    let mut text = String::new(alloc);
    if store.records().is_empty() {
        text.push_str("none")?;
    }
    for entry in store.records() {
        text.push_str(record_text(alloc, entry.record())?.as_str())?;
    }
    Ok(text)
}

//! Bytes between quotes and brackets.
use anyhow::Result;
use ftn_addr::{Bytes, NoMemory};
use std::alloc::Global;
use test_script::shown;

/// Bytes between quotes.
pub fn quoted(alloc: Global, text: &[u8]) -> Result<String> {
    let text = shown(alloc, text)?;
    Ok(format!(in alloc; "\"{text}\"")?)
}

/// Two texts, each between quotes.
pub fn both_quoted(alloc: Global, first: &[u8], second: &[u8]) -> Result<String> {
    let first = shown(alloc, first)?;
    let second = shown(alloc, second)?;
    Ok(format!(in alloc; "\"{first}\" \"{second}\"")?)
}

/// One text more, between brackets.
pub fn push_listed(alloc: Global, text: &[u8], out: &mut String) -> Result<(), NoMemory> {
    let text = shown(alloc, text)?;
    out.push_str("[")?;
    out.push_str(text.as_str())?;
    out.push_str("]")?;
    Ok(())
}

/// A list, or `none` where it is empty.
pub fn or_none(alloc: Global, list: String) -> Result<String, NoMemory> {
    if list.is_empty() {
        return Ok(String::from_str(alloc, "none")?);
    }
    Ok(list)
}

/// Each text between brackets.
pub fn listed(alloc: Global, texts: &[&[u8]]) -> Result<String, NoMemory> {
    let mut out = String::new(alloc);
    for text in texts {
        push_listed(alloc, text, &mut out)?;
    }
    or_none(alloc, out)
}

/// The same of lists of bytes.
pub fn lists(alloc: Global, texts: &[Bytes]) -> Result<String, NoMemory> {
    let mut out = String::new(alloc);
    for text in texts {
        push_listed(alloc, text.as_slice(), &mut out)?;
    }
    or_none(alloc, out)
}

/// What stands behind each bar of a text.
pub fn behind_bars(alloc: Global, text: &[u8]) -> Result<Vec<Bytes>, NoMemory> {
    let mut texts = Vec::new(alloc);
    for text in text.split(|byte| *byte == b'|').skip(1) {
        texts.push(Bytes::from_slice(alloc, text)?)?;
    }
    Ok(texts)
}

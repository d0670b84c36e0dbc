//! The bytes that words stand for, and how values are printed.
use ftn_addr::{Bytes, Failed, NoMemory};
use std::alloc::Global;
use std::test::Fail;
use test_script::{bytes, shown};

// Adds what stands between braces: a text so many times, or so many bytes from 0 to 250, again and again.
fn push_run(alloc: Global, run: &str, text: &mut Bytes) -> Result<(), Fail> {
    let Some((one, count)) = run.split_once('*') else {
        for at in 0..run.parse::<u32>()? {
            text.push_slice(&[(at % 251) as u8])?;
        }
        return Ok(());
    };
    let one = bytes(alloc, one)?;
    for _ in 0..count.parse::<u32>()? {
        text.push_slice(one.as_slice())?;
    }
    Ok(())
}

/// The bytes of a word, in which `\x` and two digits stand for a byte, `{d*1019}` for 1,019 times d, and `{40000}` for so many bytes
/// that go from 0 to 250 again and again.
pub fn text(alloc: Global, word: &str) -> Result<Bytes, Fail> {
    let Some((front, rest)) = word.split_once('{') else {
        return Ok(bytes(alloc, word)?);
    };
    let (run, back) = rest.split_once('}').ok_or(Failed)?;
    let mut text = bytes(alloc, front)?;
    push_run(alloc, run, &mut text)?;
    text.push_slice(bytes(alloc, back)?.as_slice())?;
    Ok(text)
}

/// The bytes as text, with a word in place of none.
pub fn told_bytes(alloc: Global, bytes: &[u8]) -> Result<String, NoMemory> {
    if bytes.is_empty() {
        Ok(String::from_str(alloc, "empty")?)
    } else {
        shown(alloc, bytes)
    }
}

/// The bytes of a file, with a word where none stands.
pub fn told_file(alloc: Global, file: Option<Vec<u8>>) -> Result<String, NoMemory> {
    match file {
        Some(bytes) => told_bytes(alloc, bytes.as_slice()),
        None => Ok(String::from_str(alloc, "none")?),
    }
}

/// Names, with a word where there are none.
pub fn told_names(alloc: Global, names: &[Bytes]) -> Result<String, NoMemory> {
    let mut text = String::new(alloc);
    for name in names {
        if !text.is_empty() {
            text.push_str(" ")?;
        }
        text.push_str(shown(alloc, name.as_slice())?.as_str())?;
    }
    if text.is_empty() {
        text.push_str("none")?;
    }
    Ok(text)
}

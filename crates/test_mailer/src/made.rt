//! What is done to the disk before a call.
use crate::texts::Texts;
use disk_model::{Disk, Name};
use ftn_addr::{Bytes, Failed};
use mem_node::{Resting, reopened, with_outside, with_own, with_settings};
use std::alloc::Global;
use std::test::Fail;
use test_script::{number, word, words_from};

// Removes an own file, where it stands.
fn remove<D: Disk>(disk: &mut D, name: &Name) -> Result<(), Failed> {
    match disk.stat(name)? {
        Some(_) => disk.remove(name),
        None => Ok(()),
    }
}

// The disk without that own file.
fn gone(rest: Resting, name: &str) -> Result<Resting, Fail> {
    let name = Name::new(name.as_bytes()).ok_or(Failed)?;
    let mut disk = rest.into_disk();
    remove(&mut disk, &name)?;
    Ok(reopened(disk)?)
}

// An empty disk with these settings and a comment, which have so many bytes.
fn long(alloc: Global, text: &mut Bytes, len: u64) -> Result<Resting, Fail> {
    for _ in text.len() as u64..len {
        text.push_slice(b"#")?;
    }
    with_settings(Resting::new(alloc), text.as_slice())
}

/// Whether a line that begins so makes another disk of the present one.
pub fn is_making(word: &str) -> bool {
    matches!(
        word,
        "new" | "settings" | "long" | "own" | "gone" | "out" | "reopen" | "full"
    )
}

// The ledger of so many takes.
fn ledger_of(alloc: Global, takes: u64) -> Result<Bytes, Fail> {
    let mut all = Bytes::from_slice(alloc, b"binkpldg\x00\x00\x00\x01\x00\x00\x00\x00")?;
    for take in 1..=u32::try_from(takes)? {
        all.push_slice(b"\x01\x00\x05\x06")?;
        all.push_slice(&take.to_be_bytes())?;
    }
    all.push_slice(&[0])?;
    Ok(all)
}

// What a line makes a file of: the texts behind its name, where it has one.
fn text_of(alloc: Global, texts: &Texts, words: &[&str]) -> Result<Bytes, Fail> {
    match word(words, 0) {
        "full" => ledger_of(alloc, number(words, 1)?),
        "new" | "settings" => texts.joined(words_from(words, 1)),
        "long" => texts.piece("$ADDRESS"),
        "own" | "out" => texts.joined(words_from(words, 2)),
        _ => texts.joined(&[]),
    }
}

/// The disk that the words make of the present one at rest.
pub fn made(alloc: Global, texts: &Texts, rest: Resting, words: &[&str]) -> Result<Resting, Fail> {
    let mut text = text_of(alloc, texts, words)?;
    let name = word(words, 1);
    match word(words, 0) {
        "new" if words.len() < 2 => Ok(Resting::new(alloc)),
        "new" => with_settings(Resting::new(alloc), text.as_slice()),
        "settings" => with_settings(rest, text.as_slice()),
        "long" => long(alloc, &mut text, number(words, 1)?),
        "own" => with_own(rest, name.as_bytes(), text.as_slice()),
        "full" => with_own(rest, b"ledger", text.as_slice()),
        "gone" => gone(rest, name),
        "out" => Ok(with_outside(alloc, rest, name.as_bytes(), text.as_slice())?),
        _ => Ok(rest),
    }
}

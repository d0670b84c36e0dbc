//! The calls of a line, by their words.
ghost use Rattle.std.specs.Prelude.{◌≡◌, false};

use anyhow::{Result, bail};
use binkp_link::{Line, ReadAnswer};
use std::alloc::Global;
use std::fmt::Debug;
use test_script::{number, shown, word};

/// What is said of an answer.
pub fn said<T: Debug + Drop>(alloc: Global, answer: T) -> Result<String> {
    Ok(format!(in alloc; "{answer:?}")?)
}

/// A text as it stands.
pub fn plain(alloc: Global, text: &str) -> Result<String> {
    Ok(String::from_str(alloc, text)?)
}

// What a read answers, and the bytes that came.
fn read<L: Line>(alloc: Global, line: &mut L, wait: bool) -> Result<String>
    requires { (L.state line.old).closed ≡ false }
    ensures { (L.state line.new).closed ≡ false }
{
    let mut buffer = [0; 16];
    let answer = line.read(&mut buffer, wait);
    if let ReadAnswer::Came(many) = answer {
        let came = shown(alloc, buffer.get(..many).unwrap_or(&[]))?;
        return Ok(format!(in alloc; "Came {came}")?);
    }
    said(alloc, answer)
}

// What a write of these bytes answers.
fn write<L: Line>(alloc: Global, line: &mut L, bytes: &[u8]) -> Result<String>
    requires { (L.state line.old).closed ≡ false }
    ensures { (L.state line.new).closed ≡ false }
{
    if bytes.is_empty() {
        bail!("nothing is written");
    }
    let answer = line.write(bytes);
    said(alloc, answer)
}

// What a write of so many bytes answers.
fn write_many<L: Line>(alloc: Global, line: &mut L, words: &[&str]) -> Result<String>
    requires { (L.state line.old).closed ≡ false }
    ensures { (L.state line.new).closed ≡ false }
{
    let many = usize::try_from(number(words, 1)?)?;
    let bytes = vec![in alloc; b'x'; many]?;
    write(alloc, line, bytes.as_slice())
}

fn counts<L: Line>(alloc: Global, line: &L) -> Result<String> {
    let (faults, calm, ends) = (line.faults(), line.calm(), line.ends());
    let moved = if line.idle() { "idle" } else { "moved" };
    Ok(format!(in alloc; "{faults} faults {calm} calm {ends} ends {moved}")?)
}

/// Makes the call of these words: what it answers.
pub fn step<L: Line>(alloc: Global, line: &mut L, words: &[&str]) -> Result<String>
    requires { (L.state line.old).closed ≡ false }
    ensures { (L.state line.new).closed ≡ false }
{
    match word(words, 0) {
        "read" => read(alloc, line, false),
        "wait" => read(alloc, line, true),
        "write" => write(alloc, line, word(words, 1).as_bytes()),
        "long" => write_many(alloc, line, words),
        "counts" => counts(alloc, line),
        _ => plain(alloc, "no such call"),
    }
}

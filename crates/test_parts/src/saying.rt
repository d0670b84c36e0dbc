//! What is printed of an answer, behind what is printed already.
ghost use Rattle.std.specs.Prelude.{IsErr};

use anyhow::{Result, bail};
use std::alloc::Global;
use std::fmt::{Debug, Write};
use test_script::shown;

/// An answer.
pub fn say<T: Debug + Drop>(out: &mut String, answer: T) -> Result<()> {
    write!(out, "{answer:?}")?;
    Ok(())
}

/// A word or a sentence.
pub fn say_text(out: &mut String, text: &str) -> Result<()> {
    out.push_str(text)?;
    Ok(())
}

/// A number between two texts.
pub fn say_count(out: &mut String, before: &str, count: u64, behind: &str) -> Result<()> {
    write!(out, "{before}{count}{behind}")?;
    Ok(())
}

/// Bytes.
pub fn say_bytes(alloc: Global, out: &mut String, bytes: &[u8]) -> Result<()> {
    let text = shown(alloc, bytes)?;
    say_text(out, text.as_str())
}

/// The script names what isn't there.
pub fn no_such<T>(what: &str) -> Result<T>
    ensures { IsErr result }
{
    bail!("no such {what}")
}

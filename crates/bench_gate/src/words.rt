//! The words behind the program's name.
ghost use Rattle.std.specs.Prelude.{◌<◌, ◌≤◌, IfOk};

use anyhow::{Context, Result, bail};
use std::env;
use std::rt::Env;

/// All words behind the program's name.
pub fn words_of<R: Env + AllocGlobal>(rt: &R) -> Result<Vec<String>> {
    let mut words = Vec::new(rt.alloc());
    for word in env::args(rt)?.skip(1) {
        words.push(word)?;
    }
    Ok(words)
}

/// The word at a place.
pub fn word(words: &[String], place: usize) -> Result<&str> {
    let word = words.get(place).context("a word more is wanted")?;
    Ok(word.as_str())
}

/// How many, by the word at a place.
pub fn count(words: &[String], place: usize) -> Result<u32> {
    word(words, place)?.parse::<u32>().context("how many?")
}

/// How many threads, 1 to 4, by the word at a place.
pub fn threads(words: &[String], place: usize) -> Result<u32>
    ensures { IfOk result (λ threads. (0 < threads) × (threads ≤ 4)) }
{
    match word(words, place)? {
        "1" => Ok(1),
        "2" => Ok(2),
        "3" => Ok(3),
        "4" => Ok(4),
        _ => bail!("1 to 4 threads are wanted"),
    }
}

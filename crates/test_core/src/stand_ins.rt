//! The two ends of a line in memory, a sink, a clock and dice.
ghost use Rattle.std.specs.Prelude.{◌≡◌, false};

use crate::lines::{push, step};
use anyhow::Result;
use binkp_link::{Clock, Dice, MemClock, MemDice, MemPipe, MemSink, Sink};
use std::alloc::Global;
use test_script::{bytes, number, shown, words_from};

fn carry(alloc: Global, near: &mut MemPipe, far: &mut MemPipe, most: u64) -> Result<String>
    requires near { near.old.line.closed ≡ false }
    requires far { far.old.line.closed ≡ false }
    ensures near { near.new.line.closed ≡ false }
    ensures far { far.new.line.closed ≡ false }
{
    let answer = near.carry(far, most);
    Ok(format!(in alloc; "{answer:?}")?)
}

fn pipe_step(alloc: Global, near: &mut MemPipe, far: &mut MemPipe, word: &str) -> Result<String>
    requires near { near.old.line.closed ≡ false }
    requires far { far.old.line.closed ≡ false }
    ensures near { near.new.line.closed ≡ false }
    ensures far { far.new.line.closed ≡ false }
{
    if let Some(word) = word.strip_prefix("far:") {
        return step(alloc, far, word);
    }
    match word {
        "carry" => carry(alloc, near, far, u64::MAX),
        "carry4" => carry(alloc, near, far, 4),
        "cut" => {
            near.cut();
            far.cut();
            Ok(String::from_str(alloc, "cut")?)
        }
        _ => step(alloc, near, word),
    }
}

/// Steps on a line of two ends: at the near one, at the far one, and what carries bytes to it or cuts both.
pub fn play_pipe(alloc: Global, steps: &[&str]) -> Result<String> {
    let (mut near, mut far) = (MemPipe::new(alloc), MemPipe::new(alloc));
    let mut text = String::new(alloc);
    for word in steps {
        let answer = pipe_step(alloc, &mut near, &mut far, word)?;
        push(&mut text, &answer)?;
    }
    Ok(text)
}

fn put(alloc: Global, sink: &mut MemSink, word: &str, text: &mut String) -> Result<()> {
    let piece = bytes(alloc, word)?;
    let answer = sink.put(piece.as_slice());
    let answer = format!(in alloc; "{answer:?}")?;
    push(text, &answer)
}

fn sunk(alloc: Global, sink: &MemSink, text: &mut String) -> Result<()> {
    text.push_str(", written \"")?;
    text.push_str(shown(alloc, sink.written())?.as_str())?;
    let faults = format!(in alloc; "\", {} faults", sink.faults())?;
    text.push_str(faults.as_str())?;
    Ok(())
}

fn play_sink(alloc: Global, fails: Vec<u64>, words: &[&str]) -> Result<String> {
    let mut sink = MemSink::new(alloc, fails);
    let mut text = String::new(alloc);
    for word in words {
        put(alloc, &mut sink, word, &mut text)?;
    }
    sunk(alloc, &sink, &mut text)?;
    Ok(text)
}

/// Puts the words behind the number into a sink, of whose calls that one fails.
pub fn sink(alloc: Global, words: &[&str]) -> Result<String> {
    let fails = number(words, 1)?;
    play_sink(alloc, vec![in alloc; fails]?, words_from(words, 2))
}

/// What a clock of two moments tells three times.
pub fn clock(alloc: Global, words: &[&str]) -> Result<String> {
    let (first, second) = (number(words, 1)?, number(words, 2)?);
    let mut clock = MemClock::new(vec![in alloc; first, second]?);
    let (one, two, three) = (clock.now(), clock.now(), clock.now());
    Ok(format!(in alloc; "{one} {two} {three}")?)
}

fn byte(words: &[&str], place: usize) -> Result<u8> {
    Ok(u8::try_from(number(words, place)?)?)
}

/// What dice of two items give three times: sixteen bytes that are one, and sixteen that are another.
pub fn dice(alloc: Global, words: &[&str]) -> Result<String> {
    let (first, second) = (byte(words, 1)?, byte(words, 2)?);
    let mut dice = MemDice::new(vec![in alloc; [first; 16], [second; 16]]?);
    let (one, two, three) = (dice.sixteen(), dice.sixteen(), dice.sixteen());
    Ok(format!(in alloc; "{one:?} {two:?} {three:?}")?)
}

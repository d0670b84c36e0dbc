//! The calls of frames, of the arguments of commands, and of what stands in memory for a line, by their words.
use crate::arguments::{read, write};
use crate::frames::{feed, head, put_command, put_data};
use crate::lines::{play_failing, play_line, play_slow};
use crate::stand_ins::{clock, dice, play_pipe, sink};
use anyhow::{Result, bail};
use binkp_args::escape;
use ftn_addr::Bytes;
use std::alloc::Global;
use std::str;
use test_script::{behind, bytes, shown, word, words_from};

fn escaped(alloc: Global, words: &[&str]) -> Result<String> {
    let mut out = Bytes::new(alloc);
    for word in words {
        let name = bytes(alloc, word)?;
        escape(alloc, name.as_slice(), &mut out)?;
    }
    let text = str::from_utf8(out.as_slice()).unwrap_or("no text");
    Ok(String::from_str(alloc, text)?)
}

fn unescaped(alloc: Global, word: &str) -> Result<String> {
    let bytes = bytes(alloc, word)?;
    Ok(shown(alloc, bytes.as_slice())?)
}

fn written(alloc: Global, number: u8, args: &Bytes, out: &mut Bytes) -> Result<String> {
    write(alloc, number, args, out)?;
    Ok(shown(alloc, out.as_slice())?)
}

fn no_such_call() -> Result<String> {
    bail!("no such call")
}

// A call of what stands in memory for a line and for what else a session has.
fn stand_in(alloc: Global, words: &[&str]) -> Result<String> {
    match word(words, 0) {
        "line" => play_line(alloc, word(words, 1), words_from(words, 2)),
        "slow" => play_slow(alloc, word(words, 1), words_from(words, 2)),
        "failing" => play_failing(alloc, words_from(words, 1)),
        "pipe" => play_pipe(alloc, words_from(words, 1)),
        "sink" => sink(alloc, words),
        "clock" => clock(alloc, words),
        "dice" => dice(alloc, words),
        _ => no_such_call(),
    }
}

// A call of a command of a number.
fn of_command(alloc: Global, words: &[&str], args: &Bytes, out: &mut Bytes) -> Result<String> {
    let number = word(words, 1).parse::<u8>()?;
    match word(words, 0) {
        "frame" => put_command(alloc, number, args),
        "read" => read(alloc, number, args),
        _ => written(alloc, number, args, out),
    }
}

fn data(alloc: Global, words: &[&str]) -> Result<String> {
    let len = word(words, 1).parse::<usize>()?;
    put_data(alloc, len, word(words, 2))
}

// Makes the call of these words, of which a command's argument is what stands behind its number.
fn answer(alloc: Global, words: &[&str], args: &Bytes, out: &mut Bytes) -> Result<String> {
    match word(words, 0) {
        "head" => head(alloc, word(words, 1)),
        "feed" => feed(alloc, words_from(words, 1)),
        "frame" | "read" | "write" => of_command(alloc, words, args, out),
        "data" => data(alloc, words),
        "escape" => escaped(alloc, words_from(words, 1)),
        "unescape" => unescaped(alloc, word(words, 1)),
        _ => stand_in(alloc, words),
    }
}

/// Makes the call of a line, behind what was written: what it answers.
pub fn call(alloc: Global, line: &str, words: &[&str], out: &mut Bytes) -> Result<String> {
    let args = bytes(alloc, behind(behind(line)))?;
    answer(alloc, words, &args, out)
}

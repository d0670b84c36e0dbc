//! The mailer over a folder, of which the syncs alone are noted.
ghost use Rattle.std.specs.Prelude.{◌≡◌, IfOk};
ghost use Rattle.binkp_link.specs.LineSources.{IsUnused};
ghost use Rattle.binkp_link.specs.MemLineSources.{lines_state, new_lines};
ghost use Rattle.binkp_link.specs.MemLines.{mem_state};
ghost use Rattle.binkp_link.specs.Scripts.{GivesSome, act_of};

use anyhow::Result;
use binkp_link::{MemLine, MemLines, MemSink, NextAct, ReadAct};
use binkp_mailer::run_call;
use command_words::{SessionForm, StillForm};
use ftn_addr::{Bytes, NoMemory};
use real_edge::RealFolder;
use std::alloc::Global;
use std::rt::Files;
use still_commands::run_still;
use test_files::{Seen, Watched};
use test_script::{bytes, word, words_from};

// So many data frames of 16,384 bytes.
fn frames(alloc: Global, count: u32) -> Result<Bytes, NoMemory> {
    let mut all = Bytes::new(alloc);
    for _ in 0..count {
        all.push_slice(b"\x40\x00")?;
        all.push_slice([b'x'; 16_384].as_slice())?;
    }
    Ok(all)
}

// What the peer says by a word of the script: its bytes, or data frames by their number.
fn piece(alloc: Global, word: &str) -> Result<Bytes, NoMemory> {
    match word.strip_prefix("frames:") {
        Some(count) => frames(alloc, count.parse::<u32>().unwrap_or(0)),
        None => bytes(alloc, word),
    }
}

// What a read finds by a word: nothing yet where it is empty.
fn read_of(alloc: Global, word: &str) -> Result<ReadAct, NoMemory>
    ensures { IfOk result (λ read. GivesSome (act_of read)) }
{
    let piece = piece(alloc, word)?;
    if piece.is_empty() {
        return Ok(ReadAct::NotYet);
    }
    Ok(ReadAct::Bytes(piece))
}

// The word of a turn: each third one has a piece, and the two behind it find nothing yet.
fn word_at<'t>(pieces: &[&'t str], turn: usize) -> &'t str {
    if turn % 3 == 0 {
        word(pieces, turn / 3)
    } else {
        ""
    }
}

// A line on which these pieces come one after another, and then the end.
fn line_of(alloc: Global, pieces: &[&str]) -> Result<MemLine, NoMemory>
    ensures { IfOk result (λ line. IsUnused (mem_state line)) }
{
    let mut reads = Vec::new(alloc);
    for turn in 0..pieces.len().saturating_mul(3) {
        let read = read_of(alloc, word_at(pieces, turn))?;
        reads.push(read)?;
    }
    reads.push(ReadAct::Quiet)?;
    Ok(MemLine::new(alloc, reads, Vec::new(alloc)))
}

// The source whose next caller has such a line.
fn caller(alloc: Global, pieces: &[&str]) -> Result<MemLines, NoMemory>
    ensures { IfOk result (λ lines. lines_state lines ≡ new_lines) }
{
    let line = line_of(alloc, pieces)?;
    let next = vec![in alloc; NextAct::Line(line)]?;
    Ok(MemLines::new(alloc, next, Vec::new(alloc)))
}

// Answers over that folder and those lines: the exit status.
fn answer_over<R: Files + AllocGlobal + Clone + Drop>(
    alloc: Global,
    folder: RealFolder<R>,
    lines: &mut MemLines,
) -> Result<u8, NoMemory>
    requires { lines_state lines.old ≡ new_lines }
{
    let mut out = MemSink::new(alloc, Vec::new(alloc));
    let (status, _) = run_call(
        alloc,
        SessionForm::Answer,
        folder,
        lines,
        0,
        [0; 16],
        &mut out,
    );
    Ok(status.number())
}

// The same over the folder of that path, where the caller says these pieces.
fn answer_at(rt: HostRuntime, seen: &Seen, path: &str, pieces: &[&str]) -> Result<u8, NoMemory> {
    let mut lines = caller(rt.alloc(), pieces)?;
    let folder = RealFolder::new(Watched { rt, seen }, path)?;
    answer_over(rt.alloc(), folder, &mut lines)
}

// Takes the outbound in over that folder: the exit status.
fn take_over<R: Files + AllocGlobal + Clone + Drop>(alloc: Global, folder: RealFolder<R>) -> u8 {
    let mut out = MemSink::new(alloc, Vec::new(alloc));
    let (status, _) = run_still(alloc, StillForm::Take, folder, 0, &mut out);
    status.number()
}

// The same over the folder of that path.
fn take_at(rt: HostRuntime, seen: &Seen, path: &str) -> Result<u8, NoMemory> {
    let folder = RealFolder::new(Watched { rt, seen }, path)?;
    Ok(take_over(rt.alloc(), folder))
}

// Prints the exit status of what was run, and the syncs that it asked for.
fn tell(rt: HostRuntime, name: &str, exit: u8, seen: &Seen) -> Result<()> {
    let syncs = seen.take();
    println!(rt; "{name}: exit {exit}, {}", syncs.as_str())?;
    Ok(())
}

/// Runs the mailer, where the words say so.
pub fn session(rt: HostRuntime, words: &[&str]) -> Result<bool> {
    let (path, rest) = (word(words, 1), words_from(words, 2));
    let seen = Seen::of_syncs();
    let (name, exit) = match word(words, 0) {
        "answer" => ("answer", answer_at(rt, &seen, path, rest)?),
        "run" => ("take", take_at(rt, &seen, path)?),
        _ => return Ok(false),
    };
    tell(rt, name, exit, &seen)?;
    Ok(true)
}

//! A line in memory, and the two ends of one.
ghost use Rattle.std.specs.Prelude.{◌≡◌, ◌<◌, false, length, IfOk};
ghost use Rattle.binkp_link.specs.MemLines.{mem_state};
ghost use Rattle.binkp_link.specs.Scripts.{AllTakeSome};

use anyhow::{Result, bail};
use binkp_link::{Line, MemLine, ReadAct, ReadAnswer, WriteAct};
use ftn_addr::Bytes;
use std::alloc::Global;
use test_script::{bytes, shown};

// What a read answers whose buffer has so many bytes, at most eight, and what came.
fn read<L: Line>(alloc: Global, line: &mut L, len: usize, wait: bool) -> Result<String>
    requires { (L.state line.old).closed ≡ false }
    ensures { (L.state line.new).closed ≡ false }
{
    let mut buffer = [0u8; 8];
    let answer = line.read(&mut buffer[..len.clamp(1, 8)], wait);
    let many = match answer {
        ReadAnswer::Came(n) => n,
        _ => 0,
    };
    let came = shown(alloc, buffer.get(..many).unwrap_or(&[]))?;
    Ok(format!(in alloc; "{answer:?} \"{came}\"")?)
}

fn write<L: Line>(alloc: Global, line: &mut L, text: &str) -> Result<String>
    requires { (L.state line.old).closed ≡ false }
    ensures { (L.state line.new).closed ≡ false }
{
    let piece = bytes(alloc, text)?;
    if piece.is_empty() {
        bail!("nothing is written");
    }
    let answer = line.write(piece.as_slice());
    Ok(format!(in alloc; "{answer:?}")?)
}

fn counts<L: Line>(alloc: Global, line: &L) -> Result<String> {
    let (calm, ends, faults) = (line.calm(), line.ends(), line.faults());
    let moved = if line.idle() { "idle" } else { "moved" };
    Ok(format!(in alloc; "{calm} calm {ends} ends {faults} faults {moved}")?)
}

/// What one step on a line answers; a word that is no step is written.
pub fn step<L: Line>(alloc: Global, line: &mut L, step: &str) -> Result<String>
    requires { (L.state line.old).closed ≡ false }
    ensures { (L.state line.new).closed ≡ false }
{
    match step {
        "read" => read(alloc, line, 8, false),
        "read3" => read(alloc, line, 3, false),
        "wait" => read(alloc, line, 8, true),
        "wait1" => read(alloc, line, 1, true),
        "wait3" => read(alloc, line, 3, true),
        "counts" => counts(alloc, line),
        _ => write(alloc, line, step),
    }
}

/// One more answer.
pub fn push(text: &mut String, answer: &String) -> Result<()> {
    if !text.is_empty() {
        text.push_str(", ")?;
    }
    text.push_str(answer.as_str())?;
    Ok(())
}

// A line on which nothing is there yet, then these bytes come, then nothing while a read waits, then the end.
fn line_of(alloc: Global, bytes: Bytes, writes: Vec<WriteAct>) -> Result<MemLine>
    requires some { 0 < length bytes.list }
    requires take { AllTakeSome writes.items }
    ensures { IfOk result (λ line. (mem_state line).closed ≡ false) }
{
    let mut reads = Vec::new(alloc);
    reads.push(ReadAct::NotYet)?;
    reads.push(ReadAct::Bytes(bytes))?;
    reads.push(ReadAct::Quiet)?;
    Ok(MemLine::new(alloc, reads, writes))
}

// What each of these steps on a line answers, and what was written on it.
fn play(alloc: Global, line: &mut MemLine, steps: &[&str]) -> Result<String>
    requires { (mem_state line.old).closed ≡ false }
{
    let mut text = String::new(alloc);
    for word in steps {
        let answer = step(alloc, line, word)?;
        push(&mut text, &answer)?;
    }
    let written = shown(alloc, line.written())?;
    line.close();
    Ok(format!(in alloc; "{text}, written \"{written}\"")?)
}

fn some_bytes(alloc: Global, word: &str) -> Result<Bytes>
    ensures { IfOk result (λ bytes. 0 < length bytes.list) }
{
    let some = bytes(alloc, word)?;
    if some.is_empty() {
        bail!("nothing comes");
    }
    Ok(some)
}

/// Steps on a line on which these bytes come and whose writes take all.
pub fn play_line(alloc: Global, word: &str, steps: &[&str]) -> Result<String> {
    let bytes = some_bytes(alloc, word)?;
    let mut line = line_of(alloc, bytes, Vec::new(alloc))?;
    play(alloc, &mut line, steps)
}

/// Steps on a line on which these bytes come, whose first write is quiet, whose second fails, and of which each more takes
/// three bytes.
pub fn play_slow(alloc: Global, word: &str, steps: &[&str]) -> Result<String> {
    let bytes = some_bytes(alloc, word)?;
    let writes = vec![in alloc; WriteAct::Quiet, WriteAct::Failed, WriteAct::Take(3)]?;
    let mut line = line_of(alloc, bytes, writes)?;
    play(alloc, &mut line, steps)
}

/// Steps on a line whose first read fails.
pub fn play_failing(alloc: Global, steps: &[&str]) -> Result<String> {
    let reads = vec![in alloc; ReadAct::Failed]?;
    let mut line = MemLine::new(alloc, reads, Vec::new(alloc));
    play(alloc, &mut line, steps)
}

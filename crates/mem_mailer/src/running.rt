//! Calls of the program over a disk in memory that rests, with a challenge of zeros.
ghost use Rattle.std.specs.Prelude.{◌≡◌, IfOk};
ghost use Rattle.binkp_link.specs.LineSources.{IsUnused};
ghost use Rattle.binkp_link.specs.MemLineSources.{lines_state, new_lines};
ghost use Rattle.binkp_link.specs.MemLines.{mem_state};

use crate::lines::{line_of, slow_line, words_of};
use crate::ran::Ran;
use crate::script::{Found, Takes, scripted_line};
use binkp_link::{MemClock, MemDice, MemLine, MemLines, MemSink, NextAct};
use binkp_mailer::{Outcome, print, run_call, run_program};
use command_base::Status;
use command_words::{Form, read_form};
use ftn_addr::{Bytes, NoMemory};
use mem_disk::MemDisk;
use mem_node::Resting;
use std::alloc::Global;
use std::sync::Wait;
use still_commands::run_still;
use trial_command::run_trial;

// The source whose next caller has that line.
fn caller(alloc: Global, line: MemLine) -> Result<MemLines, NoMemory>
    requires { IsUnused (mem_state line) }
    ensures { IfOk result (λ lines. lines_state lines ≡ new_lines) }
{
    let next = vec![in alloc; NextAct::Line(line)]?;
    Ok(MemLines::new(alloc, next, Vec::new(alloc)))
}

// The source whose first dial reaches that line.
fn called(alloc: Global, line: MemLine) -> Result<MemLines, NoMemory>
    requires { IsUnused (mem_state line) }
    ensures { IfOk result (λ lines. lines_state lines ≡ new_lines) }
{
    let dials = vec![in alloc; Some(line)]?;
    Ok(MemLines::new(alloc, Vec::new(alloc), dials))
}

// The source of a call of these words.
fn source(alloc: Global, texts: &[&[u8]], line: MemLine) -> Result<MemLines, NoMemory>
    requires { IsUnused (mem_state line) }
    ensures { IfOk result (λ lines. lines_state lines ≡ new_lines) }
{
    match texts.first() {
        Some(word) if *word == b"call".as_slice() => called(alloc, line),
        _ => caller(alloc, line),
    }
}

// What was written on the line that was handed back, where one was.
fn heard(alloc: Global, lines: &MemLines) -> Result<Bytes, NoMemory> {
    match lines.handed(0) {
        Some(line) => Bytes::from_slice(alloc, line.written()),
        None => Ok(Bytes::new(alloc)),
    }
}

// Makes the call of this form over these lines. Words of another are told as such, as the program tells those of none.
fn call_form(
    alloc: Global,
    form: Option<Form<'_>>,
    disk: Resting,
    lines: &mut MemLines,
    out: &mut MemSink,
) -> (Status, MemDisk)
    requires { lines_state lines.old ≡ new_lines }
{
    match form {
        Some(Form::Session(form)) => run_call(
            alloc,
            form,
            disk.into_ready(),
            lines,
            1_000_000_000,
            [0; 16],
            out,
        ),
        _ => (print(alloc, Outcome::Usage, out), disk.into_disk()),
    }
}

// Makes the call of these words over that line, of whose puts to the output these fail.
fn run_over(
    alloc: Global,
    disk: Resting,
    texts: &[&[u8]],
    line: MemLine,
    failing: Vec<u64>,
) -> Result<Box<Ran>, NoMemory>
    requires { IsUnused (mem_state line) }
{
    let words = words_of(alloc, texts)?;
    let form = read_form(alloc, words.as_slice())?;
    let mut lines = source(alloc, texts, line)?;
    let mut out = MemSink::new(alloc, failing);
    let (status, disk) = call_form(alloc, form, disk, &mut lines, &mut out);
    let heard = heard(alloc, &lines)?;
    let printed = Bytes::from_slice(alloc, out.written())?;
    Ok(Box::new(alloc, Ran::new(status, heard, printed, disk))?)
}

/// Makes the call of these words, with a peer that says these bytes. What is told is what the peer heard.
pub fn call_by(
    alloc: Global,
    disk: Resting,
    texts: &[&[u8]],
    said: &[u8],
) -> Result<Box<Ran>, NoMemory> {
    run_over(alloc, disk, texts, line_of(alloc, said)?, Vec::new(alloc))
}

/// Makes the call of these words, with a peer that says these pieces one after another, and reads for some turns between them.
pub fn call_slowly(
    alloc: Global,
    disk: Resting,
    texts: &[&[u8]],
    pieces: &[&[u8]],
) -> Result<Box<Ran>, NoMemory> {
    let line = slow_line(alloc, pieces)?;
    run_over(alloc, disk, texts, line, Vec::new(alloc))
}

/// Makes the call of these words over a line whose reads find this, one after another, and which takes so much. Of the puts to its
/// output these fail.
pub fn call_over(
    alloc: Global,
    disk: Resting,
    texts: &[&[u8]],
    found: &[Found],
    takes: Takes,
    failing: Vec<u64>,
) -> Result<Box<Ran>, NoMemory> {
    let line = scripted_line(alloc, found, takes)?;
    run_over(alloc, disk, texts, line, failing)
}

// Runs the command of this form, which holds no session. Words of another are told as such.
fn run_form(
    alloc: Global,
    form: Option<Form<'_>>,
    disk: Resting,
    out: &mut MemSink,
) -> (Status, MemDisk) {
    match form {
        Some(Form::Still(form)) => run_still(alloc, form, disk.into_ready(), 1_000_000_000, out),
        Some(Form::Trial(form)) => (run_trial(alloc, form, out), disk.into_disk()),
        _ => (print(alloc, Outcome::Usage, out), disk.into_disk()),
    }
}

/// Runs the command of these words, which holds no session. What is told is what it printed.
pub fn run(alloc: Global, disk: Resting, texts: &[&[u8]]) -> Result<Box<Ran>, NoMemory> {
    let words = words_of(alloc, texts)?;
    let form = read_form(alloc, words.as_slice())?;
    let mut out = MemSink::new(alloc, Vec::new(alloc));
    let (status, disk) = run_form(alloc, form, disk, &mut out);
    let told = Bytes::from_slice(alloc, out.written())?;
    Ok(Box::new(alloc, Ran::new(status, told, Bytes::new(alloc), disk))?)
}

/// How the program ends with these words, where nobody calls: its exit status, whether it explains its words, and
/// what it printed.
pub fn end_of<W: Wait>(
    rt: &W,
    alloc: Global,
    disk: Resting,
    texts: &[&[u8]],
) -> Result<(u8, bool, Bytes), NoMemory> {
    let words = words_of(alloc, texts)?;
    let mut lines = MemLines::new(alloc, Vec::new(alloc), Vec::new(alloc));
    let mut clock = MemClock::new(vec![in alloc; 0]?);
    let mut dice = MemDice::new(vec![in alloc; [0; 16]]?);
    let mut out = MemSink::new(alloc, Vec::new(alloc));
    let (ended, _) = run_program(
        rt,
        alloc,
        words.as_slice(),
        disk.into_ready(),
        &mut lines,
        &mut clock,
        &mut dice,
        &mut out,
    );
    let told = Bytes::from_slice(alloc, out.written())?;
    Ok((ended.exit, ended.told.is_some(), told))
}

//! One end of a line in memory, whose other end is another such.
ghost use Rattle.std.specs.Prelude.{◌≡◌, ◌<◌, ◌++◌, true, false, min, length, IfOk, OnErr};
ghost use Rattle.binkp_link.specs.Lines.{IsRead, IsWrite, came, shut, went};
ghost use Rattle.binkp_link.specs.MemLines.{coming_on};
ghost use Rattle.binkp_link.specs.Pipes.{Carries, PipeWrites, new_pipe, pipe_finds};

use crate::counting::Tally;
use crate::stream::Stream;
use crate::{Line, ReadAnswer, WriteAnswer};
use ftn_addr::NoMemory;
use std::alloc::Global;
use std::marker::Model;

/// One end of a line: the bytes that came, and those that it wrote. Two ends share nothing: [`MemPipe::carry`] takes what
/// one wrote to the other. It tells its bytes.
#[derive(Debug, Drop)]
pub struct MemPipe {
    came: Stream,
    wrote: Stream,
    cut: bool,
    tally: Tally,
}

impl Model for MemPipe {
    ghost use Rattle.std.specs.Prelude.{◌++◌, Some};
    ghost use Rattle.binkp_link.specs.Pipes.{Pipe};
    ghost use Rattle.binkp_link.specs.Tallies.{counted};

    ghost Value = { Pipe };

    ghost view = { λ p. record { line = counted p.tally (Some (record { taken = p.came.past; sent = p.wrote.past ++ p.wrote.ahead; coming = p.came.ahead })); waiting = p.wrote.ahead; cut = p.cut } };
}

impl MemPipe {
    /// An end on which nothing came or was written yet. This takes no memory.
    pub fn new(alloc: Global) -> MemPipe
        ensures { result ≡ new_pipe }
    {
        MemPipe {
            came: Stream::new(alloc),
            wrote: Stream::new(alloc),
            cut: false,
            tally: Tally::new(),
        }
    }

    /// Takes the first bytes that this end wrote and that weren't carried yet, at most `most`, to the other end, behind
    /// those that it has to come, and tells how many.
    pub fn carry(&mut self, other: &mut MemPipe, most: u64) -> Result<u64, NoMemory>
        ensures ok { IfOk result (λ n. Carries most n self.old other.old self.new other.new) }
        ensures err { OnErr result (self.new ≡ self.old) }
        ensures other { OnErr result (other.new ≡ other.old) }
    {
        let waiting = self.wrote.ahead();
        let n = most.min(waiting.len() as u64);
        other.came.push(&waiting[..n as usize])?;
        self.wrote.pass(n as usize);
        Ok(n)
    }

    /// Ends the line: once nothing is to come a waiting read finds the end, and a write fails. This takes no memory.
    pub fn cut(&mut self)
        ensures { self.new ≡ record self.old { cut = true } }
    {
        self.cut = true;
    }
}

/// What a read finds where so many bytes came into its buffer.
fn found(n: usize, wait: bool, cut: bool) -> ReadAnswer
    ensures { result ≡ pipe_finds wait cut n }
{
    match (n, wait, cut) {
        (0, false, _) => ReadAnswer::NotYet,
        (0, true, true) => ReadAnswer::End,
        (0, true, false) => ReadAnswer::Quiet,
        (n, _, _) => ReadAnswer::Came(n),
    }
}

/// Keeps what is written, unless the line is cut.
fn keep(wrote: &mut Stream, bytes: &[u8], cut: bool) -> WriteAnswer
    ensures as_cut { PipeWrites cut result bytes.now }
    ensures past { wrote.new.past ≡ wrote.old.past }
    ensures ahead { wrote.new.ahead ≡ wrote.old.ahead ++ went result bytes.now }
{
    if cut {
        return WriteAnswer::Failed;
    }
    match wrote.push(bytes) {
        Ok(()) => WriteAnswer::Wrote(bytes.len()),
        Err(NoMemory) => WriteAnswer::Failed,
    }
}

impl Line for MemPipe {
    ghost state = { λ pipe. pipe.line };

    fn faults(&self) -> u64 {
        self.tally.faults
    }

    fn calm(&self) -> u64 {
        self.tally.calm
    }

    fn ends(&self) -> u64 {
        self.tally.ends
    }

    fn idle(&self) -> bool {
        self.tally.idle
    }

    fn read(&mut self, out: &mut [u8], wait: bool) -> ReadAnswer
        requires some { 0 < length out.old }
        requires open { self.old.line.closed ≡ false }
        ensures meets { IsRead wait self.old.line result out.new self.new.line }
        ensures finds { result ≡ pipe_finds wait self.old.cut (min (length (coming_on self.old.line.bytes)) (length out.old)) }
        ensures waiting { self.new.waiting ≡ self.old.waiting }
        ensures cut { self.new.cut ≡ self.old.cut }
    {
        let n = self.came.fill(out);
        let answer = found(n, wait, self.cut);
        self.tally.note_read(answer);
        answer
    }

    /// A write that finds no memory fails and keeps nothing.
    fn write(&mut self, bytes: &[u8]) -> WriteAnswer
        requires some { 0 < length bytes.now }
        requires open { self.old.line.closed ≡ false }
        ensures meets { IsWrite self.old.line result bytes.now self.new.line }
        ensures as_cut { PipeWrites self.old.cut result bytes.now }
        ensures waiting { self.new.waiting ≡ self.old.waiting ++ went result bytes.now }
        ensures cut { self.new.cut ≡ self.old.cut }
    {
        let answer = keep(&mut self.wrote, bytes, self.cut);
        self.tally.note_write(answer);
        answer
    }

    fn close(&mut self)
        ensures { self.new ≡ record self.old { line = shut self.old.line } }
    {
        self.tally.closed = true;
    }
}

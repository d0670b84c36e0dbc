//! A line over a reader and a writer that never wait by themselves.
ghost use Rattle.std.specs.Prelude.{◌≡◌, ◌<◌, true, false, length};
ghost use Rattle.binkp_link.specs.Lines.{IsRead, IsWrite, MayRead, MayWrite};
ghost use Rattle.real_edge.specs.WaitingLines.{HasCome, HasRead, HasWritten, new_system_line, system_line};

use crate::waits::{Ends, ReadsAhead, Ready, Waits};
use binkp_link::{Line, ReadAnswer, Tally, WriteAnswer};
use std::io::{ErrorKind, Read, Write};
use std::time::Duration;

// For how many seconds a read that waits, and a write, stay without a byte before they are Quiet.
const PATIENCE: u64 = 5;

// A write of more than so many bytes goes on where the peer's have come: nobody reads them before it is done.
const MOST_TO_READ: usize = 1_048_576;

/// A line to a peer, over what the system gives: a reader and a writer that answer `WouldBlock` where they would wait, and what waits
/// for them. It doesn't tell its bytes.
///
/// A read that waits, and a write that can't go on, answer Quiet after five seconds without a byte. A write gives up at once where the
/// peer's bytes have come meanwhile, so that two sides that both send never wait for one another; behind
/// a Quiet it waits until a byte moved, since then nobody reads them. The end is told to a read that waits alone: a peer that said all that it had may still listen.
#[derive(Drop)]
pub struct WaitingLine<I, O, W> {
    input: I,
    output: O,
    waits: W,
    // Whether a read found the end.
    is_over: bool,
    tally: Tally,
}

impl<I, O, W> WaitingLine<I, O, W> {
    /// A line that was not used yet.
    pub fn new(input: I, output: O, waits: W) -> WaitingLine<I, O, W>
        ensures state { system_line result.tally ≡ new_system_line }
        ensures input { result.input ≡ input }
        ensures output { result.output ≡ output }
    {
        WaitingLine {
            input,
            output,
            waits,
            is_over: false,
            tally: Tally::new(),
        }
    }
}

/// Whether an error says that nothing can be read or written yet.
pub fn is_not_yet(kind: ErrorKind) -> bool {
    matches!(kind, ErrorKind::WouldBlock | ErrorKind::Interrupted)
}

impl<I: Read + ReadsAhead, O: Write, W: Waits> WaitingLine<I, O, W> {
    /// A read of what has come.
    fn read_now(&mut self, out: &mut [u8]) -> ReadAnswer
        requires { 0 < length out.old }
        ensures may { HasCome result out.new }
        ensures input { HasRead result out.new (I.remaining self.old.input) (I.remaining self.new.input) }
        ensures output { self.new.output ≡ self.old.output }
        ensures tally { self.new.tally ≡ self.old.tally }
    {
        match self.input.read(out) {
            Ok(0) => {
                self.is_over = true;
                ReadAnswer::End
            }
            Ok(n) => ReadAnswer::Came(n),
            Err(error) if is_not_yet(error.kind()) => ReadAnswer::NotYet,
            Err(_) => ReadAnswer::Failed,
        }
    }

    /// A read once something has come, or Quiet.
    fn read_later(&mut self, out: &mut [u8]) -> ReadAnswer
        requires { 0 < length out.old }
        ensures may { MayRead true result out.new None }
        ensures input { HasRead result out.new (I.remaining self.old.input) (I.remaining self.new.input) }
        ensures output { self.new.output ≡ self.old.output }
        ensures tally { self.new.tally ≡ self.old.tally }
    {
        match self.waits.for_input(Duration::from_secs(PATIENCE)) {
            Ok(true) => match self.read_now(out) {
                ReadAnswer::NotYet => ReadAnswer::Quiet,
                answer => answer,
            },
            Ok(false) => ReadAnswer::Quiet,
            Err(_) => ReadAnswer::Failed,
        }
    }

    /// A read, which may wait.
    fn read_in(&mut self, out: &mut [u8], wait: bool) -> ReadAnswer
        requires { 0 < length out.old }
        ensures may { MayRead wait result out.new None }
        ensures input { HasRead result out.new (I.remaining self.old.input) (I.remaining self.new.input) }
        ensures output { self.new.output ≡ self.old.output }
        ensures tally { self.new.tally ≡ self.old.tally }
    {
        match self.read_now(out) {
            ReadAnswer::NotYet if wait => self.read_later(out),
            ReadAnswer::End if !wait => ReadAnswer::NotYet,
            answer => answer,
        }
    }

    /// A write of what the system takes now, or Quiet.
    fn write_now(&mut self, bytes: &[u8]) -> WriteAnswer
        requires { 0 < length bytes.now }
        ensures may { MayWrite result bytes.now }
        ensures output { HasWritten result bytes.now (O.contents self.old.output) (O.contents self.new.output) }
        ensures input { self.new.input ≡ self.old.input }
        ensures tally { self.new.tally ≡ self.old.tally }
    {
        match self.output.write(bytes) {
            Ok(0) => WriteAnswer::Failed,
            Ok(n) => WriteAnswer::Wrote(n),
            Err(error) if is_not_yet(error.kind()) => WriteAnswer::Quiet,
            Err(_) => WriteAnswer::Failed,
        }
    }

    /// A write once the system takes bytes, or Quiet; Quiet at once where the peer's have come, and that is heeded.
    fn write_later(&mut self, bytes: &[u8], heeds_input: bool) -> WriteAnswer
        requires { 0 < length bytes.now }
        ensures may { MayWrite result bytes.now }
        ensures output { HasWritten result bytes.now (O.contents self.old.output) (O.contents self.new.output) }
        ensures input { self.new.input ≡ self.old.input }
        ensures tally { self.new.tally ≡ self.old.tally }
    {
        // The system tells nothing of bytes that are held.
        if heeds_input && self.input.holds_bytes() {
            return WriteAnswer::Quiet;
        }
        match self
            .waits
            .for_output(Duration::from_secs(PATIENCE), heeds_input)
        {
            Ok(Ready { output: true, .. }) => self.write_now(bytes),
            Ok(Ready { output: false, .. }) => WriteAnswer::Quiet,
            Err(_) => WriteAnswer::Failed,
        }
    }

    /// A write of some bytes.
    fn write_some(&mut self, bytes: &[u8], heeds_input: bool) -> WriteAnswer
        requires { 0 < length bytes.now }
        ensures may { MayWrite result bytes.now }
        ensures output { HasWritten result bytes.now (O.contents self.old.output) (O.contents self.new.output) }
        ensures input { self.new.input ≡ self.old.input }
        ensures tally { self.new.tally ≡ self.old.tally }
    {
        match self.write_now(bytes) {
            WriteAnswer::Quiet => self.write_later(bytes, heeds_input),
            answer => answer,
        }
    }

    /// A write of all bytes, or of those that went out before the line was Quiet or failed.
    fn write_out(&mut self, bytes: &[u8]) -> WriteAnswer
        requires { 0 < length bytes.now }
        ensures may { MayWrite result bytes.now }
        ensures output { HasWritten result bytes.now (O.contents self.old.output) (O.contents self.new.output) }
        ensures input { self.new.input ≡ self.old.input }
        ensures tally { self.new.tally ≡ self.old.tally }
    {
        // Where the line was Quiet and no byte moved since, nobody reads what has come.
        let heeds_input = !self.is_over && self.tally.calm == 0 && bytes.len() <= MOST_TO_READ;
        let mut sent = 0;
        while sent < bytes.len() {
            match self.write_some(&bytes[sent..], heeds_input) {
                WriteAnswer::Wrote(n) => sent += n,
                answer if sent == 0 => return answer,
                _ => return WriteAnswer::Wrote(sent),
            }
        }
        WriteAnswer::Wrote(sent)
    }
}

impl<I: Read + ReadsAhead, O: Write + Ends, W: Waits> Line for WaitingLine<I, O, W> {
    ghost state = { λ line. system_line line.tally };

    fn faults(&self) -> u64 {
        self.tally.faults
    }

    fn calm(&self) -> u64 {
        self.tally.calm
    }

    fn ends(&self) -> u64 {
        self.tally.ends
    }

    fn idle(&self) -> bool {
        self.tally.idle
    }

    fn read(&mut self, out: &mut [u8], wait: bool) -> ReadAnswer
        requires some { 0 < length out.old }
        requires open { (system_line self.old.tally).closed ≡ false }
        ensures meets { IsRead wait (system_line self.old.tally) result out.new (system_line self.new.tally) }
        ensures input { HasRead result out.new (I.remaining self.old.input) (I.remaining self.new.input) }
        ensures output { self.new.output ≡ self.old.output }
    {
        let answer = self.read_in(out, wait);
        self.tally.note_read(answer);
        answer
    }

    fn write(&mut self, bytes: &[u8]) -> WriteAnswer
        requires some { 0 < length bytes.now }
        requires open { (system_line self.old.tally).closed ≡ false }
        ensures meets { IsWrite (system_line self.old.tally) result bytes.now (system_line self.new.tally) }
        ensures output { HasWritten result bytes.now (O.contents self.old.output) (O.contents self.new.output) }
        ensures input { self.new.input ≡ self.old.input }
    {
        let answer = self.write_out(bytes);
        self.tally.note_write(answer);
        answer
    }

    fn close(&mut self) {
        self.output.end(&mut self.waits);
        self.tally.closed = true;
    }
}

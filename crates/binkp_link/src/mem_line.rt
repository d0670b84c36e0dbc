//! A line in memory, which plays two scripts and keeps what was written.
ghost use Rattle.std.specs.Prelude.{◌≡◌, ◌<◌, ◌++◌, false, [], length, map, Some, IfOk};
ghost use Rattle.binkp_link.specs.Lines.{IsRead, IsWrite, MayWrite, came, went};
ghost use Rattle.binkp_link.specs.Scripts.{AllGiveSome, AllTakeSome, PlaysRead, PlaysWrite, act_of, read_turn, script_bytes};
ghost use Rattle.binkp_link.specs.MemLines.{coming_on, mem_state, new_line, sent_on, taken_on};

use crate::acts::{ReadAct, WriteAct};
use crate::counting::Tally;
use crate::read_script::ReadScript;
use crate::write_script::WriteScript;
use crate::{Line, ReadAnswer, WriteAnswer};
use ftn_addr::{Bytes, NoMemory};
use std::alloc::Global;

/// A line whose reads and writes are scripts. It tells its bytes.
#[derive(Debug, Drop)]
pub struct MemLine {
    reads: ReadScript,
    writes: WriteScript,
    written: Bytes,
    tally: Tally,
}

impl MemLine {
    /// A line that plays these scripts from their start. This takes no memory.
    pub fn new(alloc: Global, reads: Vec<ReadAct>, writes: Vec<WriteAct>) -> MemLine
        requires give { AllGiveSome (map act_of reads.items) }
        requires take { AllTakeSome writes.items }
        ensures state { mem_state result ≡ new_line (script_bytes (map act_of reads.items)) }
        ensures reads { result.reads.left ≡ map act_of reads.items }
        ensures writes { result.writes ≡ writes.items }
    {
        MemLine {
            reads: ReadScript::new(reads),
            writes: WriteScript::new(writes),
            written: Bytes::new(alloc),
            tally: Tally::new(),
        }
    }

    /// The bytes that were written.
    pub fn written(&self) -> &[u8]
        ensures { sent_on (mem_state self.now) ≡ Some result.now }
    {
        self.written.as_slice()
    }

    /// The bytes that were taken and those that are still to come.
    pub(crate) fn all_bytes(&self, alloc: Global) -> Result<Bytes, NoMemory>
        ensures { IfOk result (λ all. taken_on (mem_state self.now).bytes ++ coming_on (mem_state self.now).bytes ≡ all.list) }
    {
        self.reads.all_bytes(alloc)
    }

    /// Keeps the bytes that the script lets a write take.
    fn keep(&mut self, bytes: &[u8]) -> WriteAnswer
        requires { 0 < length bytes.now }
        ensures plays { PlaysWrite self.old.writes (length bytes.now) result self.new.writes }
        ensures sent { self.new.written.list ≡ self.old.written.list ++ went result bytes.now }
        ensures may { MayWrite result bytes.now }
        ensures reads { self.new.reads ≡ self.old.reads }
        ensures tally { self.new.tally ≡ self.old.tally }
    {
        let answer = self.writes.answer(bytes.len());
        if let WriteAnswer::Wrote(n) = answer {
            if self.written.push_slice(&bytes[..n]).is_err() {
                return WriteAnswer::Failed;
            }
        }
        self.writes.pass();
        answer
    }
}

impl Line for MemLine {
    ghost state = { mem_state };

    fn faults(&self) -> u64 {
        self.tally.faults
    }

    fn calm(&self) -> u64 {
        self.tally.calm
    }

    fn ends(&self) -> u64 {
        self.tally.ends
    }

    fn idle(&self) -> bool {
        self.tally.idle
    }

    fn read(&mut self, out: &mut [u8], wait: bool) -> ReadAnswer
        requires some { 0 < length out.old }
        requires open { (mem_state self.old).closed ≡ false }
        ensures meets { IsRead wait (mem_state self.old) result out.new (mem_state self.new) }
        ensures plays { PlaysRead (read_turn wait (length out.old) self.old.reads.left) result (came result out.new) self.new.reads.left }
        ensures writes { self.new.writes ≡ self.old.writes }
    {
        let answer = self.reads.play(out, wait);
        self.tally.note_read(answer);
        answer
    }

    /// A write that finds no memory fails and plays no act.
    fn write(&mut self, bytes: &[u8]) -> WriteAnswer
        requires some { 0 < length bytes.now }
        requires open { (mem_state self.old).closed ≡ false }
        ensures meets { IsWrite (mem_state self.old) result bytes.now (mem_state self.new) }
        ensures plays { PlaysWrite self.old.writes (length bytes.now) result self.new.writes }
        ensures reads { self.new.reads ≡ self.old.reads }
    {
        let answer = self.keep(bytes);
        self.tally.note_write(answer);
        answer
    }

    fn close(&mut self) {
        self.tally.closed = true;
    }
}

//! A sink in memory, which keeps what was put.
ghost use Rattle.std.specs.Prelude.{◌≡◌, [], Some, OnErr, OnOk};
ghost use Rattle.ftn_addr.specs.Counts.{next_count};
ghost use Rattle.binkp_link.specs.Lines.{PutsAll, PutsFront};
ghost use Rattle.binkp_link.specs.MemSinks.{FailsAsSet, new_sink, put_into, sink_state};

use crate::Sink;
use ftn_addr::{Bytes, Failed};
use std::alloc::Global;

/// A sink that keeps the bytes that were put, and fails where it was told to. It tells its bytes.
#[derive(Debug, Drop)]
pub struct MemSink {
    fails: Vec<u64>,
    puts: u64,
    faults: u64,
    written: Bytes,
}

impl MemSink {
    /// A sink into which nothing was put. `fails` has the numbers, from 1, of the calls of `put` that are to fail.
    /// This takes no memory.
    pub fn new(alloc: Global, fails: Vec<u64>) -> MemSink
        ensures state { sink_state result ≡ new_sink }
        ensures puts { result.puts ≡ 0 }
        ensures fails { result.fails.items ≡ fails.items }
    {
        MemSink {
            fails,
            puts: 0,
            faults: 0,
            written: Bytes::new(alloc),
        }
    }

    /// The bytes that were put.
    pub fn written(&self) -> &[u8]
        ensures { put_into (sink_state self.now) ≡ Some result.now }
    {
        self.written.as_slice()
    }

    /// A call failed.
    fn fail(&mut self) -> Failed
        ensures faults { self.new ≡ record self.old { faults = next_count self.old.faults } }
    {
        self.faults = self.faults.saturating_add(1);
        Failed
    }
}

impl Sink for MemSink {
    ghost state = { sink_state };

    fn faults(&self) -> u64 {
        self.faults
    }

    /// A call that fails puts nothing. One that finds no memory isn't counted among the calls.
    fn put(&mut self, bytes: &[u8]) -> Result<(), Failed>
        ensures ok { OnOk result (PutsAll bytes.now (sink_state self.old) (sink_state self.new)) }
        ensures err { OnErr result (PutsFront bytes.now (sink_state self.old) (sink_state self.new)) }
        ensures nothing { OnErr result (self.new.written.list ≡ self.old.written.list) }
        ensures fails { self.new.fails ≡ self.old.fails }
        ensures as_set { FailsAsSet result self.old self.new }
    {
        let put = self.puts.saturating_add(1);
        if self.fails.contains(&put) {
            self.puts = put;
            return Err(self.fail());
        }
        if self.written.push_slice(bytes).is_err() {
            return Err(self.fail());
        }
        self.puts = put;
        Ok(())
    }
}

//! A sink over a writer, as standard error is.
ghost use Rattle.std.specs.Prelude.{◌≡◌, OnErr, OnOk};
ghost use Rattle.binkp_link.specs.Lines.{PutsAll, PutsFront};
ghost use Rattle.real_edge.specs.StdSinks.{HasPut, new_std_sink, std_sink_state};

use binkp_link::Sink;
use ftn_addr::Failed;
use std::io::Write;

/// A sink over standard error. It doesn't tell its bytes.
#[derive(Drop)]
pub struct StdSink<O> {
    output: O,
    faults: u64,
}

impl<O> StdSink<O> {
    /// A sink into which nothing was put.
    pub fn new(output: O) -> StdSink<O>
        ensures state { std_sink_state result.faults ≡ new_std_sink }
        ensures output { result.output ≡ output }
    {
        StdSink { output, faults: 0 }
    }
}

impl<O: Write> Sink for StdSink<O> {
    ghost state = { λ sink. std_sink_state sink.faults };

    fn faults(&self) -> u64 {
        self.faults
    }

    /// Puts all bytes and flushes them.
    fn put(&mut self, bytes: &[u8]) -> Result<(), Failed>
        ensures ok { OnOk result (PutsAll bytes.now (std_sink_state self.old.faults) (std_sink_state self.new.faults)) }
        ensures err { OnErr result (PutsFront bytes.now (std_sink_state self.old.faults) (std_sink_state self.new.faults)) }
        ensures output { OnOk result (HasPut bytes.now (O.contents self.old.output) (O.contents self.new.output)) }
    {
        if self.output.write_all(bytes).is_err() || self.output.flush().is_err() {
            self.faults = self.faults.saturating_add(1);
            return Err(Failed);
        }
        Ok(())
    }
}

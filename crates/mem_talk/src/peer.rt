//! A peer that says what a test tells it to say.
ghost use Rattle.std.specs.Prelude.{◌≡◌, false};

use crate::half::Half;
use crate::node::Node;
use crate::offered::side_of;
use crate::word::{Word, bytes_of};
use binkp_link::{Line, MemPipe, ReadAnswer, WriteAnswer};
use ftn_addr::{Bytes, NoMemory};
use mem_store::ListStore;
use session_run::Report;
use std::alloc::Global;
use std::marker::Model;
use std::mem;

/// A peer at the other end of a session's line, and that session with its node.
#[derive(Drop)]
pub struct Peer {
    half: Half,
    pipe: MemPipe,
}

impl Model for Peer {
    ghost use Rattle.std.specs.Prelude.{◌≡◌, false};
    ghost use Rattle.binkp_link.specs.Pipes.{Pipe};

    ghost Value = { Pipe };

    ghost view = { λ p. p.pipe };

    ghost invariant = { λ p. p.pipe.line.closed ≡ false };
}

impl Peer {
    /// A peer that has said nothing to a session of that node, which calls the node of that number, or answers.
    pub fn new(alloc: Global, node: Node, calls: Option<u16>) -> Result<Peer, NoMemory> {
        let half = Half::new(alloc, node, side_of(alloc, calls)?)?;
        Ok(Peer {
            half,
            pipe: MemPipe::new(alloc),
        })
    }

    /// The next session of that node, which answers: nothing was said to it.
    pub fn again(&mut self, alloc: Global) -> Result<(), NoMemory> {
        let blank = Peer::new(alloc, Node::new(alloc, 0)?, None)?;
        let node = mem::replace(self, blank).into_node();
        *self = Peer::new(alloc, node, None)?;
        Ok(())
    }

    /// Says these words to the session, which then makes so many turns. It answers what that side wrote.
    pub fn say(
        &mut self,
        alloc: Global,
        words: &[Word<'_>],
        turns: u32,
    ) -> Result<Bytes, NoMemory> {
        self.put(alloc, words)?;
        let mut heard = Bytes::new(alloc);
        for _ in 0..turns {
            self.step(alloc, &mut heard)?;
        }
        Ok(heard)
    }

    /// Says these words to the session, which then makes so many turns, and reads nothing.
    pub fn tell(&mut self, alloc: Global, words: &[Word<'_>], turns: u32) -> Result<(), NoMemory> {
        self.put(alloc, words)?;
        for _ in 0..turns {
            self.turn(alloc);
        }
        Ok(())
    }

    /// Ends the line, and lets the session make so many turns.
    pub fn cut(&mut self, alloc: Global, turns: u32) {
        self.half.cut_if(true);
        for _ in 0..turns {
            self.turn(alloc);
        }
    }

    /// What is told of the session, where that is over.
    pub fn report(&self) -> Option<&Report> {
        self.half.report()
    }

    /// What the node keeps.
    pub fn store(&self) -> &ListStore {
        self.half.store()
    }

    /// The node, as the session left it.
    pub fn into_node(self) -> Node {
        let Peer { half, pipe } = self;
        drop(pipe);
        let (_report, node) = half.leave();
        node
    }

    fn put(&mut self, alloc: Global, words: &[Word<'_>]) -> Result<(), NoMemory> {
        let bytes = bytes_of(alloc, words)?;
        write(&mut self.pipe, bytes.as_slice())?;
        self.half.hear(&mut self.pipe)
    }

    fn turn(&mut self, alloc: Global) {
        self.half.turn(alloc);
    }

    // The session makes a turn, and what it wrote is heard, which is less than three times as much as a read takes.
    fn step(&mut self, alloc: Global, heard: &mut Bytes) -> Result<(), NoMemory> {
        self.half.turn(alloc);
        self.half.tell(&mut self.pipe)?;
        for _ in 0..3 {
            self.hear_once(heard)?;
        }
        Ok(())
    }

    fn hear_once(&mut self, heard: &mut Bytes) -> Result<(), NoMemory> {
        let mut buffer = [0u8; 4096];
        match self.pipe.read(&mut buffer, false) {
            ReadAnswer::Came(n) => heard.push_slice(&buffer[..n]),
            ReadAnswer::End => Ok(()),
            ReadAnswer::NotYet => Ok(()),
            ReadAnswer::Quiet => Ok(()),
            ReadAnswer::Failed => Ok(()),
        }
    }
}

fn write(pipe: &mut MemPipe, bytes: &[u8]) -> Result<(), NoMemory>
    requires { pipe.old.line.closed ≡ false }
    ensures { pipe.new.line.closed ≡ false }
{
    if bytes.is_empty() {
        return Ok(());
    }
    match pipe.write(bytes) {
        WriteAnswer::Wrote(_) => Ok(()),
        WriteAnswer::Quiet => Ok(()),
        WriteAnswer::Failed => Err(NoMemory),
    }
}

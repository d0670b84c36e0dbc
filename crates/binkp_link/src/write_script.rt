//! A script of writes, as it is played.
ghost use Rattle.std.specs.Prelude.{◌≡◌, ◌<◌, ◌≤◌, length, drop};
ghost use Rattle.binkp_link.specs.Lines.{MayWrite};
ghost use Rattle.binkp_link.specs.Scripts.{AllTakeSome, CanAnswer, after_write_act, first_write, write_answer};

use crate::WriteAnswer;
use crate::acts::WriteAct;
use std::marker::Model;

/// A script of writes: its acts, and how many of them are over.
#[derive(Debug, Drop)]
pub struct WriteScript {
    acts: Vec<WriteAct>,
    over: usize,
}

impl Model for WriteScript {
    ghost use Rattle.std.specs.Prelude.{List, drop};
    ghost use Rattle.binkp_link.specs.declared.acts.WriteAct.{WriteAct};
    ghost use Rattle.binkp_link.specs.Scripts.{AllTakeSome};

    ghost Value = { List WriteAct };

    ghost view = { λ s. drop s.over s.acts.items };

    ghost invariant = { λ s. AllTakeSome (drop s.over s.acts.items) };
}

impl WriteScript {
    /// A script of which nothing was played.
    pub fn new(acts: Vec<WriteAct>) -> WriteScript
        requires { AllTakeSome acts.items }
        ensures { result ≡ acts.items }
    {
        WriteScript { acts, over: 0 }
    }

    /// The act that comes next.
    fn act(&self) -> Option<WriteAct>
        ensures act { result ≡ first_write self.now }
        ensures some { AllTakeSome self.now }
    {
        self.acts.get(self.over).copied()
    }

    /// What a write of `len` bytes answers.
    pub fn answer(&self, len: usize) -> WriteAnswer
        requires { 0 < len }
        ensures answer { result ≡ write_answer (first_write self.now) len }
        ensures may { CanAnswer result len }
    {
        match self.act() {
            None => WriteAnswer::Wrote(len),
            Some(WriteAct::Take(most)) => WriteAnswer::Wrote(len.min(most as usize)),
            Some(WriteAct::Quiet) => WriteAnswer::Quiet,
            Some(WriteAct::Failed) => WriteAnswer::Failed,
        }
    }

    /// The next act is over, unless it is the last.
    pub fn pass(&mut self)
        ensures { self.new ≡ after_write_act self.old }
    {
        if self.acts.len().saturating_sub(self.over) > 1 {
            self.over += 1;
        }
    }
}

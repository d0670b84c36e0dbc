//! A trial, round by round.
ghost use Rattle.std.specs.Prelude.{◌≡◌, ◌⊎◌, ◌+◌, ◌<◌, ◌≤◌, ◌&&◌, nat_eq, nat_lt, not, length, IfOk};
ghost use Rattle.node_trial.specs.Files.{bytes_in, trial_files};
ghost use Rattle.node_trial.specs.Trials.{counted, totals_of};

use crate::filling::{Filled, fill_both};
use crate::generator::Generator;
use crate::node::TrialNode;
use crate::round::hold;
use crate::totals::Totals;
use ftn_addr::NoMemory;
use std::alloc::Global;
use std::marker::Model;

/// No round begins behind this one.
const LAST_ROUND: u32 = 64;

/// A trial between two rounds. Contracts see what it has counted, and what the records of its nodes' stores leave.
#[derive(Drop)]
pub struct Trial {
    near: TrialNode,
    far: TrialNode,
    generator: Generator,
    files: u32,
    bytes: u64,
    rounds: u32,
}

impl Model for Trial {
    ghost use Rattle.node_trial.specs.Trials.{TrialState};

    ghost Value = { TrialState };

    ghost view = { λ t. record { files = t.files; bytes = t.bytes; rounds = t.rounds; near = t.near; far = t.far } };
}

// Two counts together, up to the end of 32 bits.
fn both(near: usize, far: usize) -> u32
    ensures { result ≡ counted (near + far) }
{
    u32::try_from(near.saturating_add(far)).unwrap_or(u32::MAX)
}

impl Trial {
    /// A whole trial of so many files, whose numbers are drawn from that start on.
    ///
    /// The ledger of a node holds 262,144 records. A file for which its sender's has no place left isn't queued, and so doesn't come.
    pub fn run(alloc: Global, count: u32, start: u32) -> Result<Totals, NoMemory>
        ensures files { IfOk result (λ totals. totals.files ≡ length (trial_files count start)) }
        ensures bytes { IfOk result (λ totals. totals.bytes ≡ bytes_in (trial_files count start)) }
        ensures rounds { IfOk result (λ totals. totals.sessions ≤ 64) }
        ensures ends { IfOk result (λ totals. (totals.live ≡ 0) ⊎ (totals.sessions ≡ 64)) }
    {
        let mut trial = Trial::new(alloc, count, start)?;
        'rounds: while trial.goes_on() {
            trial = trial.round(alloc)?;
        }
        Ok(trial.totals())
    }

    /// Before the first round, with each file queued at its sender.
    pub fn new(alloc: Global, count: u32, start: u32) -> Result<Trial, NoMemory>
        ensures files { IfOk result (λ trial. trial.files ≡ count) }
        ensures bytes { IfOk result (λ trial. trial.bytes ≡ bytes_in (trial_files count start)) }
        ensures rounds { IfOk result (λ trial. trial.rounds ≡ 0) }
    {
        let mut generator = Generator::new(start);
        let Filled { near, far, bytes } = fill_both(alloc, &mut generator, count)?;
        Ok(Trial {
            near,
            far,
            generator,
            files: count,
            bytes,
            rounds: 0,
        })
    }

    /// Whether an entry is live and a round may begin.
    pub fn goes_on(&self) -> bool
        ensures { result ≡ (nat_lt self.now.rounds 64 && not (nat_eq (totals_of self.now).live 0)) }
    {
        self.rounds < LAST_ROUND && self.totals().live != 0
    }

    /// The next round. In an odd one the first node calls, in an even one the second.
    pub fn round(self, alloc: Global) -> Result<Trial, NoMemory>
        requires { self.rounds < 64 }
        ensures files { IfOk result (λ trial. trial.files ≡ self.files) }
        ensures bytes { IfOk result (λ trial. trial.bytes ≡ self.bytes) }
        ensures rounds { IfOk result (λ trial. trial.rounds ≡ self.rounds + 1) }
    {
        let Trial {
            near,
            far,
            mut generator,
            files,
            bytes,
            rounds,
        } = self;
        let rounds = rounds + 1;
        let disturbance = generator.draw_disturbance(rounds);
        let (near, far) = if rounds % 2 == 1 {
            hold(alloc, near, far, disturbance)?
        } else {
            let (far, near) = hold(alloc, far, near, disturbance)?;
            (near, far)
        };
        Ok(Trial {
            near,
            far,
            generator,
            files,
            bytes,
            rounds,
        })
    }

    /// What it comes to so far.
    pub fn totals(&self) -> Totals
        ensures { result ≡ totals_of self.now }
    {
        Totals {
            files: self.files,
            bytes: self.bytes,
            sessions: self.rounds,
            received: both(self.near.received(), self.far.received()),
            live: both(self.near.live(), self.far.live()),
        }
    }
}

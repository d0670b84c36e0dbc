//! What disturbs the session of a round.
ghost use Rattle.std.specs.Prelude.{◌≡◌};
ghost use Rattle.node_trial.specs.Draws.{behind};
ghost use Rattle.node_trial.specs.Disturbing.{disturbs, draws_of};

use crate::generator::Generator;

/// From the round behind this one on nothing disturbs a session.
const LAST_DISTURBED: u32 = 32;

/// Sessions are cut behind fewer bytes than these.
const BYTES: u32 = 20_000;

/// In one round of so many the answering node is stopped.
const STOPS: u32 = 4;

/// Nodes are stopped behind fewer disk calls than these.
const CALLS: u32 = 40;

/// A stop of the answering node.
#[derive(Clone, Copy, Debug, PartialEq, Eq)]
pub struct Stop {
    /// Behind so many of its disk calls of that round, where it makes as many.
    pub calls: u32,
    /// Which of the images that a stop may leave is there then: its digits in base 4, as `MemDisk::stop` takes them.
    pub pick: u32,
}

/// What disturbs the session of a round.
#[derive(Clone, Copy, Debug, PartialEq, Eq)]
pub struct Disturbance {
    /// Both ends are cut once so many bytes were carried, in both directions together.
    pub bytes: Option<u32>,
    pub stop: Option<Stop>,
}

impl Generator {
    /// Draws what disturbs the session of that round, counted from 1: first the bytes, then the calls, then the image.
    pub fn draw_disturbance(&mut self, round: u32) -> Disturbance
        ensures is { result ≡ disturbs round self.old }
        ensures state { self.new ≡ behind (draws_of round) self.old }
    {
        if LAST_DISTURBED < round {
            return Disturbance {
                bytes: None,
                stop: None,
            };
        }
        let bytes = Some(self.draw() % BYTES);
        if round % STOPS != 0 {
            return Disturbance { bytes, stop: None };
        }
        let calls = self.draw() % CALLS;
        let pick = self.draw();
        Disturbance {
            bytes,
            stop: Some(Stop { calls, pick }),
        }
    }
}

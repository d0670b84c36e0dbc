//! The numbers that a trial draws.
ghost use Rattle.std.specs.Prelude.{◌≡◌};
ghost use Rattle.node_trial.specs.Draws.{drawn, next};

use std::marker::Model;

const FACTOR: u64 = 6_364_136_223_846_793_005;

const INCREMENT: u64 = 1_442_695_040_888_963_407;

/// A linear congruential generator of 64 bits, of which each draw gives the upper 31. Contracts see its state.
#[derive(Drop)]
pub struct Generator {
    state: u64,
}

impl Model for Generator {
    ghost use Rattle.std.specs.Prelude.{ℕ};

    ghost Value = { ℕ };

    ghost view = { λ g. g.state };
}

impl Generator {
    pub fn new(start: u32) -> Generator
        ensures { result ≡ start }
    {
        Generator {
            state: u64::from(start),
        }
    }

    /// The next number, below 2^31.
    pub fn draw(&mut self) -> u32
        ensures number { result ≡ drawn self.old }
        ensures state { self.new ≡ next self.old }
    {
        self.state = self.state.wrapping_mul(FACTOR).wrapping_add(INCREMENT);
        (self.state >> 33) as u32
    }
}

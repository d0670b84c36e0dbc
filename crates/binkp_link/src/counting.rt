//! What a line counts.
ghost use Rattle.std.specs.Prelude.{◌≡◌};
ghost use Rattle.binkp_link.specs.Lines.{calm_after_read, calm_after_write, ends_after_read, faults_after_read, faults_after_write, idle_after_read, idle_after_write};
ghost use Rattle.binkp_link.specs.Tallies.{nothing_counted};

use crate::{ReadAnswer, WriteAnswer};

/// How often a line failed, how many Quiets came since a byte last moved, how often it ended, whether its last
/// call moved no byte, and whether this side closed it.
#[derive(Clone, Copy, Debug, PartialEq, Eq)]
pub struct Tally {
    pub faults: u64,
    pub calm: u64,
    pub ends: u64,
    pub idle: bool,
    pub closed: bool,
}

impl Tally {
    /// Before the first call.
    pub fn new() -> Tally
        ensures { result ≡ nothing_counted }
    {
        Tally {
            faults: 0,
            calm: 0,
            ends: 0,
            idle: false,
            closed: false,
        }
    }

    /// Counts a read.
    pub fn note_read(&mut self, answer: ReadAnswer)
        ensures faults { self.new.faults ≡ faults_after_read answer self.old.faults }
        ensures calm { self.new.calm ≡ calm_after_read answer self.old.calm }
        ensures ends { self.new.ends ≡ ends_after_read answer self.old.ends }
        ensures idle { self.new.idle ≡ idle_after_read answer }
        ensures closed { self.new.closed ≡ self.old.closed }
    {
        self.idle = true;
        match answer {
            ReadAnswer::Came(_) => {
                self.calm = 0;
                self.idle = false;
            }
            ReadAnswer::End => self.ends = self.ends.saturating_add(1),
            ReadAnswer::NotYet => {}
            ReadAnswer::Quiet => self.calm = self.calm.saturating_add(1),
            ReadAnswer::Failed => self.faults = self.faults.saturating_add(1),
        }
    }

    /// Counts a write.
    pub fn note_write(&mut self, answer: WriteAnswer)
        ensures faults { self.new.faults ≡ faults_after_write answer self.old.faults }
        ensures calm { self.new.calm ≡ calm_after_write answer self.old.calm }
        ensures ends { self.new.ends ≡ self.old.ends }
        ensures idle { self.new.idle ≡ idle_after_write answer }
        ensures closed { self.new.closed ≡ self.old.closed }
    {
        self.idle = true;
        match answer {
            WriteAnswer::Wrote(_) => {
                self.calm = 0;
                self.idle = false;
            }
            WriteAnswer::Quiet => self.calm = self.calm.saturating_add(1),
            WriteAnswer::Failed => self.faults = self.faults.saturating_add(1),
        }
    }
}

//! The clock of the system.
ghost use Rattle.std.specs.Prelude.{◌≡◌};

use binkp_link::Clock;
use std::rt;
use std::time::{SystemTime, UNIX_EPOCH};

/// The clock of the system, which may go back. Nothing is said of its moments.
#[derive(Drop)]
pub struct SystemClock<R> {
    runtime: R,
    last: u64,
}

impl<R: rt::Clock> SystemClock<R> {
    /// The clock of that runtime. It isn't read yet.
    pub fn new(runtime: R) -> SystemClock<R> {
        SystemClock { runtime, last: 0 }
    }

    /// Seconds since the start of 1970. Where the clock can't be read, or stands before, its last value; 0 at first.
    pub fn seconds(&mut self) -> u64
        ensures { result ≡ self.new.last }
    {
        if let Ok(now) = SystemTime::now(&self.runtime)
            && let Ok(since) = now.duration_since(UNIX_EPOCH)
        {
            self.last = since.as_secs();
        }
        self.last
    }
}

impl<R: rt::Clock> Clock for SystemClock<R> {
    fn now(&mut self) -> u64 {
        self.seconds()
    }
}

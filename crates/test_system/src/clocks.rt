//! The system's clock.
use binkp_link::Clock;
use real_edge::SystemClock;
use std::cell::Cell;
use std::test::Fail;
use std::time::Duration;
use std::{io, rt};

// A runtime whose clock gives these seconds, one after the other, and can't be read in between.
#[derive(Drop)]
struct Unsteady {
    readings: Cell<u8>,
}

impl rt::Clock for Unsteady {
    fn monotonic(&self) -> io::Result<Duration> {
        Err(io::Error::from(io::ErrorKind::Unsupported))
    }

    fn since_1970(&self) -> io::Result<Duration> {
        let readings = self.readings.get();
        self.readings.set(readings.saturating_add(1));
        match readings {
            1 => Ok(Duration::from_secs(1_000_000_007)),
            3 => Ok(Duration::from_secs(1_000_000_003)),
            _ => Err(io::Error::from(io::ErrorKind::Unsupported)),
        }
    }
}

#[test]
fn the_system_s_clock_does_not_stand_before_2020(rt: HostRuntime) -> Result<(), Fail> {
    let mut clock = SystemClock::new(&rt);
    let first = clock.seconds();
    assert!(rt; first >= 1_577_836_800);
    // A day is more than the test takes, and the clock may be set in the meantime.
    assert!(rt; clock.now().abs_diff(first) < 86_400);
    Ok(())
}

// It gives its last value where it can't be read, and 0 before the first; it may go back.
#[test]
fn a_clock_that_can_not_be_read_gives_its_last_value(rt: HostRuntime) -> Result<(), Fail> {
    let mut clock = SystemClock::new(Unsteady {
        readings: Cell::new(0),
    });
    for wanted in [
        0,
        1_000_000_007,
        1_000_000_007,
        1_000_000_003,
        1_000_000_003,
    ] {
        assert_eq!(rt; clock.now(), wanted);
    }
    Ok(())
}

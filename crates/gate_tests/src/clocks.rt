//! A clock that is set, the one of the system, and one that can't be read.

use crate::checks::same;
use gate_io::{Clock, RealClock, StepClock};
use std::cell::Cell;
use std::time::Duration;
use std::{io, rt};

#[test]
fn a_clock_that_is_set(rt: HostRuntime) {
    let mut clock = StepClock::new(7);
    same(&rt, &clock.now(), &7);
    clock.set(5);
    same(&rt, &clock.now(), &5);
    same(&rt, &clock.now(), &5);
}

/// A system's clock that gives a second more at each reading, and can't be read at the readings
/// that are listed, from 0.
#[derive(Drop)]
struct Faulty {
    readings: Cell<u64>,
    fails: [u64; 2],
}

impl rt::Clock for Faulty {
    fn monotonic(&self) -> io::Result<Duration> {
        self.since_1970()
    }

    fn since_1970(&self) -> io::Result<Duration> {
        let reading = self.readings.get();
        self.readings.set(reading.saturating_add(1));
        if self.fails.contains(&reading) {
            return Err(io::Error::from(io::ErrorKind::Other));
        }
        Ok(Duration::from_millis(reading.saturating_mul(1000)))
    }
}

#[test]
fn the_systems_clock(rt: HostRuntime) {
    let faulty = Faulty {
        readings: Cell::new(0),
        fails: [0, 3],
    };
    let mut clock = RealClock::new(&faulty);
    for moment in [0, 1000, 2000, 2000, 4000] {
        same(&rt, &clock.now(), &moment);
    }
    // The end of the year 2025.
    assert!(rt; RealClock::new(rt).now() > 1_767_225_599_000);
}

//! A clock over the system's, which may be set back and ahead.

ghost use Rattle.std.specs.Prelude.{◌≡◌, ◌<◌, ◌≤◌, ◌^◌, ℕ, max};
ghost use Rattle.gate_io.specs.Clock.{HasFigures, TakesReadings, greatest_of, last_of};
ghost use Rattle.gate_io.specs.Counts.{HasRisen};
ghost use Rattle.gate_io.specs.RealClock.{RealClockState};

use crate::clocks::Clock;
use std::marker::Model;
use std::rt;
use std::time::{SystemTime, UNIX_EPOCH};

/// The system's clock, which may be set back and ahead. Where it can't be read, stands before
/// 1970-01-01, or has more milliseconds than a `u64` holds, it gives the last reading again, 0 at first.
/// No clause says which readings it gives.
#[derive(Drop)]
pub struct RealClock<R: rt::Clock> {
    rt: R,
    last: u64,
    greatest: u64,
    readings: u64,
}

impl<R: rt::Clock> Model for RealClock<R> {
    ghost use Rattle.gate_io.specs.RealClock.{RealClockState};

    ghost Value = { RealClockState };

    ghost view = { λ c. record { last = c.last; greatest = c.greatest; readings = c.readings } };
}

impl<R: rt::Clock> RealClock<R> {
    /// A clock that wasn't read yet.
    pub fn new(rt: R) -> RealClock<R>
        ensures { result ≡ record { last = 0; greatest = 0; readings = 0 } }
    {
        RealClock {
            rt,
            last: 0,
            greatest: 0,
            readings: 0,
        }
    }

    /// The milliseconds since 1970-01-01, or the last reading, where `passed` has none.
    fn moment(&self) -> u64 {
        match self.passed() {
            Some(passed) => passed,
            None => self.last,
        }
    }

    /// The milliseconds since 1970-01-01, where the clock can be read, stands at that day or later,
    /// and they fit.
    fn passed(&self) -> Option<u64> {
        let now = SystemTime::now(&self.rt).ok()?;
        let passed = now.duration_since(UNIX_EPOCH).ok()?;
        u64::try_from(passed.as_millis()).ok()
    }
}

impl<R: rt::Clock> Clock for RealClock<R> {
    ghost last = { λ c. c.last };

    ghost greatest = { λ c. c.greatest };

    ghost readings = { λ c. c.readings };

    ghost has_read = { λ c taken. HasFigures c.last c.greatest c.readings taken };

    ghost figures = { λ c taken told. (told.last, told.greatest) };

    fn now(&mut self) -> u64 {
        let moment = self.moment();
        self.last = moment;
        self.greatest = self.greatest.max(moment);
        self.readings = self.readings.saturating_add(1);
        moment
    }
}

//! A clock that stands until it is set.

ghost use Rattle.std.specs.Prelude.{◌≡◌, ◌<◌, ◌≤◌, ℕ, max};
ghost use Rattle.gate_io.specs.Clock.{HasFigures, TakesReadings, greatest_of, last_of};
ghost use Rattle.gate_io.specs.Counts.{HasRisen};
ghost use Rattle.gate_io.specs.StepClock.{ClockState, clock_after};

use crate::clocks::Clock;
use std::marker::Model;

/// A clock that stands at a moment until it is set to another.
#[derive(Debug, Drop)]
pub struct StepClock {
    moment: u64,
    last: u64,
    greatest: u64,
    readings: u64,
}

impl Model for StepClock {
    ghost use Rattle.gate_io.specs.StepClock.{ClockState};

    ghost Value = { ClockState };

    ghost view = { λ c. record { moment = c.moment; last = c.last; greatest = c.greatest; readings = c.readings } };
}

impl StepClock {
    /// A clock at this moment, in milliseconds since 1970-01-01.
    pub fn new(moment: u64) -> StepClock
        ensures { result ≡ record { moment = moment; last = 0; greatest = 0; readings = 0 } }
    {
        StepClock {
            moment,
            last: 0,
            greatest: 0,
            readings: 0,
        }
    }

    /// Sets the clock to another moment.
    pub fn set(&mut self, moment: u64)
        ensures { self.new ≡ record self.old { moment = moment } }
    {
        self.moment = moment;
    }
}

impl Clock for StepClock {
    ghost last = { λ c. c.last };

    ghost greatest = { λ c. c.greatest };

    ghost readings = { λ c. c.readings };

    ghost has_read = { λ c taken. HasFigures c.last c.greatest c.readings taken };

    ghost figures = { λ c taken told. (told.last, told.greatest) };

    ghost now_gives = { λ before reading after. (reading ≡ before.moment) × (after ≡ clock_after before) };

    fn now(&mut self) -> u64 {
        self.last = self.moment;
        self.greatest = self.greatest.max(self.moment);
        self.readings = self.readings.saturating_add(1);
        self.moment
    }
}

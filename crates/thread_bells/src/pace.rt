//! Whether a thread that has nothing to do looks again at once, or sleeps.

ghost use Rattle.std.specs.Prelude.{◌≡◌, ◌<◌, ◌+◌, true, IfSome};
ghost use Rattle.std.specs.Option.{is_some};
ghost use Rattle.thread_bells.specs.Paces.{after_nothing, after_something, in_stretch, new_pace};

use std::marker::Model;
use std::rt;

/// For how many microseconds at most a thread looks again and again, since it last found something.
pub const LOOKS: u64 = 50;

/// For how many microseconds looks are counted, before it is decided whether there are to be more.
pub const STRETCH: u64 = 8_000;

/// For how many microseconds a thread at least, and at most, sleeps at once where it finds nothing, since looking again
/// was mostly in vain.
pub const LEAST_REST: u64 = 64_000;

pub const MOST_REST: u64 = 512_000;

/// Whether a thread that finds nothing to do looks again at once, for up to `LOOKS` microseconds, or goes to sleep.
///
/// To look again is worth it where something mostly comes that soon, as on a machine with processors to spare. Where
/// others want the processor it keeps away those for whom the thread waits. So it is counted how often it was worth it,
/// and behind a stretch in which it mostly wasn't the thread goes to sleep at once for a while: up to half a second,
/// and then it is tried again.
#[derive(Drop)]
pub struct Pace {
    /// Since when nothing was found, if nothing was.
    since: Option<u64>,
    /// It looks again, since nothing was found.
    looking: bool,
    /// In this stretch it looks again where it finds nothing.
    looks: bool,
    /// Until when this stretch lasts.
    until: u64,
    /// How often, in this stretch, to look again was worth it, and how often not.
    found: u32,
    missed: u32,
    /// How long the next rest is.
    rest: u64,
}

impl Model for Pace {
    ghost use Rattle.thread_bells.specs.Paces.{Paced};

    ghost Value = { Paced };

    ghost view = { λ p. record { since = p.since; looking = p.looking; looks = p.looks; until = p.until; found = p.found; missed = p.missed; rest = p.rest } };
}

impl Pace {
    /// The pace of a thread that hasn't looked yet.
    pub fn new() -> Pace
        ensures { result ≡ new_pace }
    {
        Pace {
            since: None,
            looking: false,
            looks: true,
            until: 0,
            found: 0,
            missed: 0,
            rest: LEAST_REST,
        }
    }

    /// Nothing was found at this moment, in microseconds. Answers whether to look again at once: else the thread is to
    /// sleep.
    pub fn found_nothing(&mut self, now: u64) -> bool
        ensures pace { self.new ≡ after_nothing self.old now self.old.since }
        ensures answer { result ≡ self.new.looking }
        // It looks again for so long at most since it found something.
        ensures soon { result ≡ true → IfSome self.new.since (λ since. now < since + LOOKS) }
    {
        let Some(since) = self.since else {
            self.turn_over(now);
            self.since = Some(now);
            self.looking = self.looks;
            return self.looks;
        };
        if self.looking && now.saturating_sub(since) >= LOOKS {
            self.looking = false;
            self.missed = self.missed.saturating_add(1);
        }
        self.looking
    }

    /// Whether nothing was found before.
    pub fn is_idle(&self) -> bool
        ensures { result ≡ is_some self.now.since }
    {
        self.since.is_some()
    }

    /// Something was found at this moment. It was worth looking for where that was soon enough.
    pub fn found(&mut self, now: u64)
        ensures { self.new ≡ after_something self.old now self.old.since }
    {
        let Some(since) = self.since else {
            return;
        };
        self.since = None;
        if !self.looking {
            return;
        }
        self.looking = false;
        if now.saturating_sub(since) <= 2 * LOOKS {
            self.found = self.found.saturating_add(1);
        } else {
            // The processor was away.
            self.missed = self.missed.saturating_add(1);
        }
    }

    /// Begins the next stretch, where this one is over.
    fn turn_over(&mut self, now: u64)
        ensures { self.new ≡ in_stretch self.old now }
    {
        if now < self.until {
            return;
        }
        if self.looks && self.missed > self.found {
            self.looks = false;
            self.until = now.saturating_add(self.rest);
            self.rest = self.rest.saturating_mul(2).min(MOST_REST);
        } else {
            if self.looks {
                self.rest = (self.rest / 2).max(LEAST_REST);
            }
            self.looks = true;
            self.until = now.saturating_add(STRETCH);
        }
        self.found = 0;
        self.missed = 0;
    }
}

/// The microseconds of a clock that only goes on, where it can be read.
pub fn micros<R: rt::Clock>(rt: &R) -> Option<u64> {
    let passed = rt.monotonic().ok()?;
    u64::try_from(passed.as_micros()).ok()
}

//! What the gate and the wire of a test tell each other, from their threads.

use std::sync::atomic::{AtomicU64, Ordering};
use std::time::Duration;
use std::{rt, thread};

// How often somebody is held at most, a millisecond each time.
const MOST_HOLDS: u32 = 10_000;

/// What has happened so far.
#[derive(Drop)]
pub struct Watched {
    /// Library 1 came.
    begun: AtomicU64,
    /// The text that the wire waits for was written to it.
    told: AtomicU64,
    /// How often library 1 passed behind that.
    passes: AtomicU64,
    /// How often a hold ended without what it waited for. From then on nobody is held.
    failures: AtomicU64,
}

impl Watched {
    pub fn new() -> Watched {
        Watched {
            begun: AtomicU64::new(0),
            told: AtomicU64::new(0),
            passes: AtomicU64::new(0),
            failures: AtomicU64::new(0),
        }
    }

    pub fn begin(&self) {
        self.begun.store(1, Ordering::SeqCst);
    }

    pub fn tell(&self) {
        self.told.store(1, Ordering::SeqCst);
    }

    /// Library 1 passes. The second time behind the text counts as its coming.
    pub fn pass(&self) {
        if self.is_told() && self.passes.fetch_add(1, Ordering::SeqCst) > 0 {
            self.begin();
        }
    }

    pub fn is_told(&self) -> bool {
        self.told.load(Ordering::SeqCst) > 0
    }

    pub fn failures(&self) -> u64 {
        self.failures.load(Ordering::SeqCst)
    }

    /// Holds until library 1 asked to pass.
    pub fn hold_until_begun(&self, rt: &impl rt::Clock) {
        self.hold(rt, &self.begun);
    }

    /// Holds until the text was written.
    pub fn hold_until_told(&self, rt: &impl rt::Clock) {
        self.hold(rt, &self.told);
    }

    fn hold(&self, rt: &impl rt::Clock, mark: &AtomicU64) {
        for _ in 0..MOST_HOLDS {
            if mark.load(Ordering::SeqCst) > 0 || self.failures() > 0 {
                return;
            }
            thread::sleep(rt, Duration::from_millis(1));
        }
        self.failures.fetch_add(1, Ordering::SeqCst);
    }
}

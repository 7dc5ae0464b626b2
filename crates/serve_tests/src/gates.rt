//! Gates that hold libraries back.

ghost use Rattle.std.specs.Prelude.{true};

use crate::watched::Watched;
use gate_io::Gate;
use std::time::Duration;
use std::{rt, thread};

/// At which of its passes a library naps, and for how many milliseconds.
const NAP_AT: u64 = 500;

const NAP: u64 = 400;

/// A gate at which everyone waits for a millisecond, and naps once.
#[derive(Drop)]
pub struct SlowGate<R: rt::Clock> {
    rt: R,
}

impl<R: rt::Clock> SlowGate<R> {
    pub fn new(rt: R) -> SlowGate<R> {
        SlowGate { rt }
    }
}

impl<R: rt::Clock> Gate for SlowGate<R> {
    ghost open_wide = { λ _. true };

    fn pass(&self, _lib: u32, turn: u64) -> bool {
        let wait = if turn == NAP_AT { NAP } else { 1 };
        thread::sleep(&self.rt, Duration::from_millis(wait));
        true
    }
}

/// A gate at which library 1 waits until a text was written, and library 2 until library 1 has come.
#[derive(Drop)]
pub struct HeldGate<'a, R: rt::Clock> {
    rt: R,
    watched: &'a Watched,
}

impl<'a, R: rt::Clock> HeldGate<'a, R> {
    pub fn new(rt: R, watched: &'a Watched) -> HeldGate<'a, R> {
        HeldGate { rt, watched }
    }
}

impl<'a, R: rt::Clock> Gate for HeldGate<'a, R> {
    ghost open_wide = { λ _. true };

    fn pass(&self, lib: u32, turn: u64) -> bool {
        if lib == 1 {
            self.watched.begin();
            self.watched.hold_until_told(&self.rt);
        } else if turn == 0 {
            self.watched.hold_until_begun(&self.rt);
        } else {
            thread::sleep(&self.rt, Duration::from_millis(1));
        }
        true
    }
}

/// A gate at which library 2 waits until library 1 has passed twice behind the writing of a text: it has made the
/// call behind its send. Everyone waits for a millisecond.
#[derive(Drop)]
pub struct SecondGate<'a, R: rt::Clock> {
    rt: R,
    watched: &'a Watched,
}

impl<'a, R: rt::Clock> SecondGate<'a, R> {
    pub fn new(rt: R, watched: &'a Watched) -> SecondGate<'a, R> {
        SecondGate { rt, watched }
    }
}

impl<'a, R: rt::Clock> Gate for SecondGate<'a, R> {
    ghost open_wide = { λ _. true };

    fn pass(&self, lib: u32, turn: u64) -> bool {
        if lib == 1 {
            self.watched.pass();
        } else if turn == 0 {
            self.watched.hold_until_begun(&self.rt);
        }
        thread::sleep(&self.rt, Duration::from_millis(1));
        true
    }
}

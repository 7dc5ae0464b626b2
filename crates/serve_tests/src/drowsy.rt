//! A gate at which libraries fall silent for a while.

ghost use Rattle.std.specs.Prelude.{true};

use gate_io::Gate;
use std::time::Duration;
use std::{rt, thread};

/// How many passes there are to one at which a library waits, and for how many milliseconds it waits there.
const PASSES: u64 = 41;

const WAIT: u64 = 12;

/// A gate that lets everyone pass. At some of its passes a library sleeps, at one for longer than it may be silent,
/// and at the others another thread comes first.
#[derive(Drop)]
pub(crate) struct DrowsyGate<R: rt::Clock> {
    rt: R,
    seed: u64,
}

impl<R: rt::Clock> DrowsyGate<R> {
    pub(crate) fn new(rt: R, seed: u64) -> DrowsyGate<R> {
        DrowsyGate { rt, seed }
    }
}

impl<R: rt::Clock> Gate for DrowsyGate<R> {
    ghost open_wide = { λ _. true };

    fn pass(&self, lib: u32, turn: u64) -> bool {
        let at = self
            .seed
            .wrapping_add(u64::from(lib).wrapping_mul(13))
            .wrapping_add(turn);
        if at % PASSES == 0 {
            thread::sleep(&self.rt, Duration::from_millis(WAIT));
        } else if at % 5 == 0 {
            thread::yield_now();
        }
        true
    }
}

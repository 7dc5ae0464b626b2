//! A thread that sleeps in the poll of its sockets.

use anyhow::Result;
use gate_io::{Listened, Wire};
use row_text::same;
use std::sync::Wait;
use std::sync::atomic::{AtomicU64, Ordering};
use std::thread::{Threads, join_mut};
use std::time::{Duration, Instant};
use std::{hint, rt};
use thread_bells::Bell;

/// How many rounds there are, and in how many steps the moment of a wake goes over a sleep's beginning.
const ROUNDS: u64 = 50_000;

const MOMENTS: u64 = 1_000;

/// For how many milliseconds a pause sleeps, and a pause that lasted for so many lost its wake.
const PAUSE: u32 = 20_000;

const LATE: u64 = 10_000;

/// What the two threads share.
pub(crate) struct Counts {
    asked: AtomicU64,
    answered: AtomicU64,
    here: Bell,
}

impl Drop for Counts {
    fn drop(self) {
        let Counts {
            asked: _,
            answered: _,
            here: _,
        } = self;
    }
}

/// Pauses until so many were asked, and answers each. Answers how many pauses lasted too long.
fn pause_all<R: Wait + rt::Clock, W: Wire>(rt: &R, wire: &mut W, counts: &Counts) -> u64 {
    let mut answered = 0u64;
    for _ in rt.forever() {
        let asked = counts.asked.load(Ordering::SeqCst);
        if asked != answered {
            answered = asked;
            counts.answered.store(answered, Ordering::SeqCst);
            counts.here.ring();
        }
        if answered >= ROUNDS {
            return 0;
        }
        let begun = Instant::now(rt);
        wire.pause(PAUSE);
        if let Ok(begun) = begun {
            match begun.elapsed(rt) {
                Ok(passed) if passed < Duration::from_millis(LATE) => {}
                _ => return 1,
            }
        }
    }
    unreachable!()
}

fn ask_all<R: Wait>(rt: &R, counts: &Counts, bell: &Bell) {
    for round in 0..ROUNDS {
        for _ in 0..round % MOMENTS {
            hint::spin_loop();
        }
        let next = round.saturating_add(1);
        counts.asked.store(next, Ordering::SeqCst);
        bell.ring();
        for _ in rt.forever() {
            if counts.answered.load(Ordering::SeqCst) == next {
                break;
            }
            counts.here.sleep(rt, Duration::from_secs(60));
        }
    }
}

/// The wire listens at a port that the system chose, and sleeps beside the bell.
pub(crate) fn none_is_lost<R: Threads + Wait + rt::Clock + Sync, W: Wire + Send>(
    rt: &R,
    wire: &mut W,
    bell: &Bell,
) -> Result<()> {
    same("the wire", &wire.listen("127.0.0.1:0"), &Listened::Ready)?;
    let counts = Counts {
        asked: AtomicU64::new(0),
        answered: AtomicU64::new(0),
        here: Bell::new(),
    };
    let (lost, ()) = join_mut(
        rt,
        &mut || pause_all(rt, wire, &counts),
        &mut || ask_all(rt, &counts, bell),
    );
    same("lost wakes", &lost, &0)
}

/// A second wire at a bell beside which one listens doesn't listen.
pub(crate) fn one_poll_alone<W: Wire>(second: &mut W) -> Result<()> {
    same("second", &second.listen("127.0.0.1:0"), &Listened::Failed)
}

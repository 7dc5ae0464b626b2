//! Two threads wake each other, with the wake at each moment around the sleep.

use anyhow::{Result, bail};
use row_text::same;
use std::sync::Wait;
use std::sync::atomic::{AtomicU64, Ordering};
use std::thread::{Threads, join};
use std::time::{Duration, Instant};
use std::{hint, rt};
use thread_bells::Bell;

/// How many rounds there are.
const ROUNDS: u64 = 200_000;

/// In how many steps the moment of a wake goes from before the sleep to behind its beginning.
const MOMENTS: u64 = 400;

/// A sleep lasts so many seconds where its wake is lost, and one that lasted longer than `LATE` was.
const SLEEP: u64 = 20;

const LATE: u64 = 10;

/// What the two threads share.
pub(crate) struct Desk {
    asked: AtomicU64,
    answered: AtomicU64,
    there: Bell,
    here: Bell,
}

impl Drop for Desk {
    fn drop(self) {
        let Desk {
            asked: _,
            answered: _,
            there: _,
            here: _,
        } = self;
    }
}

/// Sleeps by a bell until a count is no longer this one. Answers how many sleeps lasted too long.
fn await_change<R: Wait + rt::Clock>(rt: &R, bell: &Bell, count: &AtomicU64, seen: u64) -> u64 {
    for _ in rt.forever() {
        if count.load(Ordering::SeqCst) != seen {
            return 0;
        }
        let begun = Instant::now(rt);
        bell.sleep(rt, Duration::from_secs(SLEEP));
        if let Ok(begun) = begun {
            match begun.elapsed(rt) {
                Ok(passed) if passed < Duration::from_secs(LATE) => {}
                _ => return 1,
            }
        }
    }
    unreachable!()
}

/// Lets so many moments pass.
fn dawdle(moments: u64) {
    for _ in 0..moments {
        hint::spin_loop();
    }
}

/// Asks so many times, each time a little later behind the answer, and answers how often a wake was lost.
fn ask_all<R: Wait + rt::Clock>(rt: &R, desk: &Desk, rounds: u64) -> u64 {
    let mut lost = 0u64;
    for round in 0..rounds {
        dawdle(round % MOMENTS);
        desk.asked.fetch_add(1, Ordering::SeqCst);
        desk.there.ring();
        lost = lost.saturating_add(await_change(rt, &desk.here, &desk.answered, round));
        if lost > 0 {
            return lost;
        }
    }
    lost
}

/// Answers so many times, each time a little later behind the question.
fn answer_all<R: Wait + rt::Clock>(rt: &R, desk: &Desk, rounds: u64) -> u64 {
    let mut lost = 0u64;
    for round in 0..rounds {
        lost = lost.saturating_add(await_change(rt, &desk.there, &desk.asked, round));
        if lost > 0 {
            return lost;
        }
        dawdle(round / MOMENTS % MOMENTS);
        desk.answered.fetch_add(1, Ordering::SeqCst);
        desk.here.ring();
    }
    lost
}

pub(crate) fn none_is_lost<R: Threads + Wait + rt::Clock + Sync>(rt: &R) -> Result<()> {
    let desk = Desk {
        asked: AtomicU64::new(0),
        answered: AtomicU64::new(0),
        there: Bell::new(),
        here: Bell::new(),
    };
    let (asking, answering) = join(
        rt,
        || ask_all(rt, &desk, ROUNDS),
        || answer_all(rt, &desk, ROUNDS),
    );
    if asking > 0 || answering > 0 {
        bail!("a wake was lost");
    }
    same("answers", &desk.answered.load(Ordering::SeqCst), &ROUNDS)
}

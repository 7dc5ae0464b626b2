//! An engine and libraries, which wake each other.

use anyhow::{Result, bail};
use gate_io::Lack;
use row_text::same;
use std::alloc::Global;
use std::rt;
use std::sync::Wait;
use std::sync::atomic::{AtomicU64, Ordering};
use std::thread::{Threads, join};
use std::time::{Duration, Instant};
use thread_bells::Bells;

/// How many turns the engine makes with something for the library.
const TURNS: u64 = 50_000;

/// For how long a library may be silent, in milliseconds, where it isn't to wake by itself in time.
const SILENCE: u64 = 3_600_000;

/// A run of so many turns lasts no longer than so many seconds, unless wakes are lost: each lost one costs a second.
const MOST_SECONDS: u64 = 60;

/// The engine's thread: so many times it does something for the library, and then sleeps until that has answered.
fn turn_all<R: Wait>(rt: &R, bells: &Bells, answered: &AtomicU64, told: &AtomicU64, rises: bool) {
    for turn in 0..TURNS {
        let next = turn.saturating_add(1);
        told.store(next, Ordering::SeqCst);
        bells.turned(1, if rises { next } else { 0 });
        for _ in rt.forever() {
            if answered.load(Ordering::SeqCst) == next {
                break;
            }
            bells.engine().sleep(rt, Duration::from_secs(60));
            bells.turned(1, if rises { next } else { 0 });
        }
    }
}

/// The library's thread: it takes up what the engine did, and answers.
fn take_all<R: Wait + rt::Clock>(
    rt: &R,
    bells: &Bells,
    answered: &AtomicU64,
    told: &AtomicU64,
    lack: Lack,
) {
    let mut taken = 0u64;
    for _ in rt.forever() {
        if taken >= TURNS {
            return;
        }
        let seen = told.load(Ordering::SeqCst);
        if seen == taken {
            bells.wait(rt, 1, lack);
        } else {
            taken = seen;
            answered.store(taken, Ordering::SeqCst);
            bells.acted(rt, 1);
        }
    }
}

fn run<R: Threads + Wait + rt::Clock + Sync>(
    rt: &R,
    alloc: Global,
    lack: Lack,
    rises: bool,
) -> Result<()> {
    let bells = Bells::new(alloc, 1)?;
    bells.begin(SILENCE);
    let told = AtomicU64::new(0);
    let answered = AtomicU64::new(0);
    let begun = Instant::now(rt)?;
    let ((), ()) = join(
        rt,
        || turn_all(rt, &bells, &answered, &told, rises),
        || take_all(rt, &bells, &answered, &told, lack),
    );
    same("answers", &answered.load(Ordering::SeqCst), &TURNS)?;
    if begun.elapsed(rt)? > Duration::from_secs(MOST_SECONDS) {
        bail!("wakes were lost");
    }
    Ok(())
}

/// A library waits for news, and is woken where the count of its notices rose.
pub(crate) fn news_come<R: Threads + Wait + rt::Clock + Sync>(rt: &R, alloc: Global) -> Result<()> {
    run(rt, alloc, Lack::News, true)
}

/// A library waits for room, and is woken behind the engine's next turn, in which it was told nothing.
pub(crate) fn room_comes<R: Threads + Wait + rt::Clock + Sync>(
    rt: &R,
    alloc: Global,
) -> Result<()> {
    run(rt, alloc, Lack::Room, false)
}

/// A library that nobody wakes makes a call within the time for which it may be silent.
pub(crate) fn it_beats_in_time<R: Wait + rt::Clock>(rt: &R, alloc: Global) -> Result<()> {
    let bells = Bells::new(alloc, 1)?;
    bells.begin(400);
    for _ in 0..20u32 {
        let begun = Instant::now(rt)?;
        bells.wait(rt, 1, Lack::News);
        if begun.elapsed(rt)? > Duration::from_millis(390) {
            bail!("it slept for too long");
        }
    }
    Ok(())
}

/// A library sleeps until another one wakes it.
pub(crate) fn one_wakes_another<R: Threads + Wait + rt::Clock + Sync>(
    rt: &R,
    alloc: Global,
) -> Result<()> {
    let bells = Bells::new(alloc, 2)?;
    bells.begin(SILENCE);
    let told = AtomicU64::new(0);
    let ((), ()) = join(
        rt,
        || {
            told.store(1, Ordering::SeqCst);
            bells.wake(2);
            // (there is no third one, and none without a number)
            bells.wake(3);
            bells.wake(0);
        },
        || {
            for _ in rt.forever() {
                if told.load(Ordering::SeqCst) > 0 {
                    break;
                }
                bells.wait(rt, 2, Lack::News);
            }
        },
    );
    Ok(())
}

/// Behind the engine's end a library that waits is woken, and doesn't sleep any more.
pub(crate) fn nobody_waits<R: Threads + Wait + rt::Clock + Sync>(
    rt: &R,
    alloc: Global,
) -> Result<()> {
    let bells = Bells::new(alloc, 1)?;
    bells.begin(SILENCE);
    let begun = Instant::now(rt)?;
    let ((), ()) = join(
        rt,
        || bells.end(),
        || {
            for _ in 0..10_000u32 {
                bells.wait(rt, 1, Lack::News);
            }
        },
    );
    if begun.elapsed(rt)? > Duration::from_secs(MOST_SECONDS) {
        bail!("it waited for an engine that had ended");
    }
    Ok(())
}

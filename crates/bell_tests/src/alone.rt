//! What a bell does with one thread.

use anyhow::{Result, bail};
use row_text::same;
use std::rt;
use std::sync::Wait;
use std::time::{Duration, Instant};
use thread_bells::Bell;

/// A ring before somebody lies down, one while somebody lies, and two that are one.
pub(crate) fn a_ring_is_kept<R: Wait>(_rt: &R) -> Result<()> {
    let bell = Bell::new();
    same("lies down by a quiet bell", &bell.lie_down(), &true)?;
    bell.get_up();
    bell.ring();
    bell.ring();
    same(
        "lies down by a bell that was rung",
        &bell.lie_down(),
        &false,
    )?;
    same("lies down behind that", &bell.lie_down(), &true)?;
    bell.ring();
    bell.get_up();
    same(
        "lies down where the ring came in the sleep",
        &bell.lie_down(),
        &true,
    )?;
    bell.get_up();
    bell.ring();
    same(
        "lies down where it came behind the sleep",
        &bell.lie_down(),
        &false,
    )
}

/// A sleep that nobody ends, and one that a kept ring ends at once.
pub(crate) fn a_sleep_ends<R: Wait + rt::Clock>(rt: &R) -> Result<()> {
    let bell = Bell::new();
    bell.sleep(rt, Duration::from_millis(5));
    bell.ring();
    let begun = Instant::now(rt)?;
    bell.sleep(rt, Duration::from_secs(30));
    if begun.elapsed(rt)? > Duration::from_secs(10) {
        bail!("a kept ring was slept over");
    }
    same(
        "lies down behind a ring that was taken",
        &bell.lie_down(),
        &true,
    )
}

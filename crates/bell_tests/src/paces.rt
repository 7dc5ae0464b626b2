//! When a pace looks again.

use anyhow::Result;
use row_text::same;
use thread_bells::{LEAST_REST, LOOKS, MOST_REST, Pace, STRETCH};

/// For so many looks something comes in time.
const TIMES: u64 = 1_000;

/// Something always comes soon: it looks again each time, and for `LOOKS` at most.
pub(crate) fn a_pace_looks_again() -> Result<()> {
    let mut pace = Pace::new();
    let mut now = 1_000_000u64;
    for _ in 0..TIMES {
        same("idle", &pace.is_idle(), &false)?;
        same("looks again", &pace.found_nothing(now), &true)?;
        same(
            "looks again later",
            &pace.found_nothing(now.saturating_add(LOOKS - 1)),
            &true,
        )?;
        now = now.saturating_add(LOOKS);
        pace.found(now);
    }
    same("looks again", &pace.found_nothing(now), &true)?;
    same(
        "looks on",
        &pace.found_nothing(now.saturating_add(LOOKS)),
        &false,
    )?;
    same(
        "looks on",
        &pace.found_nothing(now.saturating_add(LOOKS + 1)),
        &false,
    )
}

/// Whether a pace looks again for something that comes a millisecond later, at this moment.
fn looks(pace: &mut Pace, now: u64) -> bool {
    let looks = pace.found_nothing(now);
    let _ = pace.found_nothing(now.saturating_add(LOOKS));
    pace.found(now.saturating_add(1_000));
    looks
}

/// How many microseconds pass from this moment on before it looks again, where what it waits for comes each
/// millisecond, and from when it doesn't.
fn rest_of(pace: &mut Pace, from: u64) -> (u64, u64) {
    let mut begun = from;
    for step in 0..TIMES {
        let now = from.saturating_add(step.saturating_mul(1_000));
        if looks(pace, now) {
            if begun > from {
                return (now.saturating_sub(begun), now);
            }
        } else if begun == from {
            begun = now;
        }
    }
    (0, from)
}

/// Nothing ever comes soon: it rests behind each stretch, twice as long each time, and then tries again.
pub(crate) fn a_pace_rests() -> Result<()> {
    let mut pace = Pace::new();
    let (first, at) = rest_of(&mut pace, 1_000_000);
    same("first rest", &first, &LEAST_REST)?;
    let (second, at) = rest_of(&mut pace, at);
    same("second rest", &second, &(2 * LEAST_REST))?;
    let (third, at) = rest_of(&mut pace, at);
    same("third rest", &third, &(4 * LEAST_REST))?;
    let (fourth, at) = rest_of(&mut pace, at);
    same("fourth rest", &fourth, &MOST_REST)?;
    let (fifth, _at) = rest_of(&mut pace, at);
    same("fifth rest", &fifth, &MOST_REST)?;
    same("a stretch", &(STRETCH > LOOKS), &true)
}

//! The text of what is written, by rules of its own: of a new message, of one that is sent again, and
//! of a gap fill.

use crate::texts::{T, frame};
use gate_io::NoMemory;
use std::alloc::Global;

/// The morning of the tests begins so many milliseconds behind midnight.
const MORNING: u64 = 34_200_000;

/// A moment of the tests' day.
fn stamp(alloc: Global, at: u64) -> Result<String, NoMemory> {
    let ms = at.saturating_sub(T).saturating_add(MORNING);
    let hour = ms / 3_600_000;
    let minute = ms / 60_000 % 60;
    let second = ms / 1_000 % 60;
    let text = format!(in alloc;
        "20260105-{hour:02}:{minute:02}:{second:02}.{:03}",
        ms % 1_000
    )?;
    Ok(text)
}

/// A body with the header behind its type.
fn message(alloc: Global, body: &[u8], number: u64, times: &str) -> Result<Vec<u8>, NoMemory> {
    let behind_type = body
        .iter()
        .position(|byte| *byte == 1)
        .unwrap_or(0)
        .saturating_add(1);
    let mut text = Vec::new(alloc);
    let header = format!(in alloc; "49=GATE\x0156=BUYER\x0134={number}\x01{times}")?;
    if let Some((kind, rest)) = body.split_at_checked(behind_type) {
        text.extend_from_slice(kind)?;
        text.extend_from_slice(header.as_bytes())?;
        text.extend_from_slice(rest)?;
    }
    frame(alloc, text.as_slice())
}

pub fn new_text(alloc: Global, body: &[u8], number: u64, at: u64) -> Result<Vec<u8>, NoMemory> {
    let stamp = stamp(alloc, at)?;
    let times = format!(in alloc; "52={stamp}\x01")?;
    message(alloc, body, number, &times)
}

/// What was sent at a moment is sent again now.
pub fn again_text(
    alloc: Global,
    body: &[u8],
    number: u64,
    at: u64,
    now: u64,
) -> Result<Vec<u8>, NoMemory> {
    let first = stamp(alloc, at)?;
    let stamp = stamp(alloc, now)?;
    let times = format!(in alloc; "43=Y\x0152={stamp}\x01122={first}\x01")?;
    message(alloc, body, number, &times)
}

/// In place of the numbers from this one to before another.
pub fn fill_text(alloc: Global, number: u64, to: u64, now: u64) -> Result<Vec<u8>, NoMemory> {
    let body = format!(in alloc; "35=4\x01123=Y\x0136={to}\x01")?;
    again_text(alloc, body.as_bytes(), number, now, now)
}

//! A script of eight libraries, made at random.

use anyhow::Result;
use draws::Draw;
use std::alloc::Global;

/// How many sessions there are, as many libraries, and how many lines a library has.
const SESSIONS: u32 = 8;

const LINES: u32 = 150;

/// A session that a library likes: its own, or one of its neighbours'.
fn session(draw: &mut Draw, library: u32) -> u32 {
    library.saturating_sub(1).saturating_add(draw.below(3)) % SESSIONS
}

/// A library asks for a session.
fn asks(alloc: Global, draw: &mut Draw, library: u32) -> Result<String> {
    let s = session(draw, library);
    let from = draw.below(40);
    Ok(format!(in alloc; "lib {library} request {s} {from}\nlib {library} answer\n")?)
}

/// A library looks what there is, or waits for messages.
fn looks(alloc: Global, draw: &mut Draw, library: u32, waits: bool) -> Result<String> {
    if waits && draw.below(4) == 0 {
        let count = draw.below(3).saturating_add(1);
        Ok(format!(in alloc; "lib {library} read {count}\n")?)
    } else {
        Ok(format!(in alloc; "lib {library} poll\nlib {library} poll\n")?)
    }
}

/// A library sends.
fn sends(alloc: Global, draw: &mut Draw, library: u32) -> Result<String> {
    let s = session(draw, library);
    let id = draw.below(100_000);
    Ok(format!(in alloc; "lib {library} send {s} 35=8|37=R{id}|\n")?)
}

/// A library gives a session back, or hands it over.
fn gives(alloc: Global, draw: &mut Draw, library: u32) -> Result<String> {
    let s = session(draw, library);
    if draw.below(2) == 0 {
        Ok(format!(in alloc; "lib {library} release {s}\n")?)
    } else {
        let heir = draw.below(SESSIONS).saturating_add(1);
        Ok(format!(in alloc; "lib {library} hand {s} {heir}\n")?)
    }
}

/// A line or two of a library. `waits` tells whether it may wait for messages.
fn lines(alloc: Global, draw: &mut Draw, library: u32, waits: bool) -> Result<String> {
    match draw.below(14) {
        0 | 1 | 2 => asks(alloc, draw, library),
        3 | 4 | 5 | 6 => looks(alloc, draw, library, waits),
        7 | 8 | 9 | 10 | 11 => sends(alloc, draw, library),
        12 => gives(alloc, draw, library),
        _ => Ok(format!(in alloc; "lib {library} beat\n")?),
    }
}

/// The names of the sessions.
fn put_sessions(alloc: Global, text: &mut String) -> Result<()> {
    for s in 0..SESSIONS {
        let line = format!(in alloc; "session GATE P{s}\n")?;
        text.push_str(line.as_str())?;
    }
    Ok(())
}

/// What a library does.
fn put_library(
    alloc: Global,
    draw: &mut Draw,
    library: u32,
    waits: bool,
    text: &mut String,
) -> Result<()> {
    for _line in 0..LINES {
        let more = lines(alloc, draw, library, waits)?;
        text.push_str(more.as_str())?;
    }
    Ok(())
}

/// The script of a seed.
pub(crate) fn script(alloc: Global, draw: &mut Draw, waits: bool) -> Result<String> {
    let mut text = String::new(alloc);
    put_sessions(alloc, &mut text)?;
    text.push_str("libraries 8\nconnections 8\noption timeout 8\noption hold 4\noption lane 4\n")?;
    for library in 1..=SESSIONS {
        put_library(alloc, draw, library, waits, &mut text)?;
    }
    Ok(text)
}

//! Rows, each played from the outset.

use crate::engine::Engine;
use crate::lines::answer;
use crate::shared::{Limits, Shared};
use anyhow::Result;
use gate_io::NoMemory;
use library_play::Application;
use row_text::answers::MADE;
use row_text::{Course, Fault, Player, Row, Step, Words};
use std::alloc::Global;

// The limits where a line says one of them. It is None where it says none, or one that can't be.
fn limits_of(line: &str) -> Option<Limits> {
    let mut words = Words::of(line);
    let name = words.word()?;
    let most = words.u32()?;
    if !words.is_over() {
        return None;
    }
    if name == "most_requests" {
        return Some(Limits::of_requests(most));
    }
    if name == "most_sends" && most > 0 {
        return Some(Limits::of_sends(most));
    }
    if name == "most_notices" && most > 0 && most <= 256 {
        return Some(Limits::of_notices(most));
    }
    None
}

// How a step differs from what it wants. It is None where it came to that.
fn fault_of<'a>(
    alloc: Global,
    engine: &mut Engine,
    library: &mut Application,
    step: &Step<'a>,
) -> Result<Option<Fault<'a>>, NoMemory> {
    let (command, wanted) = step.text.split_once(": ").unwrap_or((step.text, MADE));
    let Some(found) = answer(alloc, engine, library, command) else {
        return Ok(Some(Fault::Unclear(*step)));
    };
    let found = found?;
    if found.as_str() == wanted {
        return Ok(None);
    }
    Ok(Some(Fault::Differs {
        line: step.line,
        wanted: Some(wanted),
        found: Some(found),
    }))
}

fn play_steps<'a>(
    alloc: Global,
    engine: &mut Engine,
    library: &mut Application,
    lines: &[Step<'a>],
) -> Result<Course<'a>, NoMemory> {
    let mut steps = 0u64;
    for line in lines {
        let fault = fault_of(alloc, engine, library, line)?;
        if fault.is_some() {
            return Ok(Course { steps, fault });
        }
        steps = steps.saturating_add(1);
    }
    Ok(Course { steps, fault: None })
}

// Plays the steps from the outset, with the limit that the first line says where it says one.
fn play_row<'a>(alloc: Global, steps: &[Step<'a>]) -> Result<Course<'a>> {
    let (limits, steps) = match steps {
        [first, rest @ ..] => match limits_of(first.text) {
            Some(limits) => (limits, rest),
            None => (Limits::usual(), steps),
        },
        [] => (Limits::usual(), steps),
    };
    let (shared, ends) = Shared::new(alloc, &limits)?;
    let (mut engine, mut library) = shared.sides(alloc, ends, limits.asks);
    Ok(play_steps(alloc, &mut engine, &mut library, steps)?)
}

/// The libraries, as what plays rows: each row has a new library and a new engine's side.
pub(crate) struct Libraries {}

impl Player for Libraries {
    fn play<'a>(&self, alloc: Global, row: &Row<'a>) -> Result<Course<'a>> {
        play_row(alloc, row.steps.as_slice())
    }
}

//! Rows, each played from its outset.

use crate::clocks::{Beats, Numbers, Timers};
use crate::journal::Journal;
use anyhow::Result;
use gate_io::NoMemory;
use row_text::answers::{Answer, MADE};
use row_text::{Course, Fault, Player, Row, Step, Words};
use std::alloc::Global;

/// What the steps of a row are played on.
pub(crate) trait Played {
    /// Plays a command, and answers what it came to. It is None where the command isn't known, or has a word too few or
    /// too many.
    fn answer(&mut self, alloc: Global, command: &str) -> Option<Answer>;
}

// How a step that came to this differs from what it wants.
fn difference<'a>(step: &Step<'a>, wanted: &'a str, found: String) -> Option<Fault<'a>> {
    if found.as_str() == wanted {
        return None;
    }
    Some(Fault::Differs {
        line: step.line,
        wanted: Some(wanted),
        found: Some(found),
    })
}

fn fault_of<'a>(
    alloc: Global,
    played: &mut impl Played,
    step: &Step<'a>,
) -> Result<Option<Fault<'a>>, NoMemory> {
    let (command, wanted) = step.text.split_once(": ").unwrap_or((step.text, MADE));
    let Some(found) = played.answer(alloc, command) else {
        return Ok(Some(Fault::Unclear(*step)));
    };
    Ok(difference(step, wanted, found?))
}

// Plays the steps behind the outset.
fn play_steps<'a>(
    alloc: Global,
    mut played: impl Played + Drop,
    steps: &[Step<'a>],
) -> Result<Course<'a>> {
    let mut count = 1u64;
    for step in steps {
        let fault = fault_of(alloc, &mut played, step)?;
        if fault.is_some() {
            return Ok(Course {
                steps: count,
                fault,
            });
        }
        count = count.saturating_add(1);
    }
    Ok(Course {
        steps: count,
        fault: None,
    })
}

/// How a row begins.
#[derive(Clone, Copy)]
enum Outset {
    // A registry, or a journal that is read back, of a session that can be granted so many times.
    Registry(u32),
    Recovery(u32),
    // The deadlines of so many sessions.
    Deadlines(u16),
    // So many libraries that may be silent for so long, from a moment on.
    Watch(u8, u64, u64),
    // Lease words as numbers.
    Words,
}

fn named(words: &mut Words<'_>) -> Option<Outset> {
    Some(match words.word()? {
        "registry" => Outset::Registry(words.u32()?),
        "recovery" => Outset::Recovery(words.u32()?),
        "deadlines" => Outset::Deadlines(words.u16()?),
        "watch" => Outset::Watch(words.u8()?, words.number()?, words.number()?),
        "words" => Outset::Words,
        _ => return None,
    })
}

// The outset that a line says.
fn outset_of(line: &str) -> Option<Outset> {
    let mut words = Words::of(line);
    let outset = named(&mut words)?;
    if words.is_over() { Some(outset) } else { None }
}

fn play_from<'a>(alloc: Global, outset: Outset, steps: &[Step<'a>]) -> Result<Course<'a>> {
    match outset {
        Outset::Registry(limit) => play_steps(alloc, Journal::running(alloc, limit)?, steps),
        Outset::Recovery(limit) => play_steps(alloc, Journal::reading(alloc, limit)?, steps),
        Outset::Deadlines(sessions) => play_steps(alloc, Timers::new(alloc, sessions)?, steps),
        Outset::Watch(libraries, timeout, moment) => {
            play_steps(alloc, Beats::new(alloc, libraries, timeout, moment)?, steps)
        }
        Outset::Words => play_steps(alloc, Numbers {}, steps),
    }
}

/// Registries, journals that are read back, deadlines, silent libraries and words, as what plays rows.
pub(crate) struct Rows {}

impl Player for Rows {
    fn play<'a>(&self, alloc: Global, row: &Row<'a>) -> Result<Course<'a>> {
        let [first, steps @ ..] = row.steps.as_slice() else {
            return Ok(Course {
                steps: 0,
                fault: None,
            });
        };
        match outset_of(first.text) {
            Some(outset) => play_from(alloc, outset, steps),
            None => Ok(Course {
                steps: 0,
                fault: Some(Fault::Unclear(*first)),
            }),
        }
    }
}

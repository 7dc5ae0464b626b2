//! Rows, each played from its outset.

use crate::making::{Made, Outset, make, outset_of};
use crate::queue::{Load, Queue};
use crate::sides::Sides;
use anyhow::Result;
use gate_io::NoMemory;
use row_text::answers::{Answer, MADE, text};
use row_text::{Course, Fault, Player, Row, Step, Words};
use std::alloc::Global;
use std::fmt::Debug;

/// What the steps of a row are played on.
pub(crate) trait Played {
    /// Plays a command, and answers what it came to. It is None where the command isn't known, or has a word too few or
    /// too many.
    fn answer(&mut self, alloc: Global, command: &str) -> Option<Answer>;
}

// A step's command, and what it wants.
fn parted(text: &str) -> (&str, &str) {
    text.split_once(": ").unwrap_or((text, MADE))
}

// How a step that came to this differs from what it wants.
fn difference<'a>(step: &Step<'a>, wanted: &'a str, found: String) -> Option<Fault<'a>> {
    if found.as_str() == wanted {
        return None;
    }
    Some(Fault::Differs {
        line: step.line,
        wanted: Some(wanted),
        found: Some(found),
    })
}

fn fault_of<'a>(
    alloc: Global,
    played: &mut impl Played,
    step: &Step<'a>,
) -> Result<Option<Fault<'a>>, NoMemory> {
    let (command, wanted) = parted(step.text);
    let Some(found) = played.answer(alloc, command) else {
        return Ok(Some(Fault::Unclear(*step)));
    };
    Ok(difference(step, wanted, found?))
}

// Plays the steps behind the first one, which stood.
fn play_steps<'a>(
    alloc: Global,
    played: &mut impl Played,
    steps: &[Step<'a>],
) -> Result<Course<'a>, NoMemory> {
    let mut count = 1u64;
    for step in steps {
        let fault = fault_of(alloc, played, step)?;
        if fault.is_some() {
            return Ok(Course {
                steps: count,
                fault,
            });
        }
        count = count.saturating_add(1);
    }
    Ok(Course {
        steps: count,
        fault: None,
    })
}

fn stopped(fault: Fault<'_>) -> Course<'_> {
    Course {
        steps: 0,
        fault: Some(fault),
    }
}

// Plays a row of a table. The first step says how many libraries it has and how many seats came.
fn play_table<'a>(
    alloc: Global,
    outset: &Outset,
    first: &Step<'a>,
    steps: &[Step<'a>],
) -> Result<Course<'a>> {
    let Made {
        leases,
        sessions,
        engine,
        seats,
        first: seat,
    } = make(alloc, outset)?;
    let found = format!(in alloc; "{} libraries, {seats} seats", leases.libraries())?;
    let (_, wanted) = parted(first.text);
    if let Some(fault) = difference(first, wanted, found) {
        return Ok(stopped(fault));
    }
    let mut sides = Sides::new(&leases, sessions, engine, seat);
    Ok(play_steps(alloc, &mut sides, steps)?)
}

// Plays a row of a ring.
fn play_ring<'a, T: Load + Debug + PartialEq + Drop>(
    alloc: Global,
    ring: Option<Queue<T>>,
    first: &Step<'a>,
    steps: &[Step<'a>],
) -> Result<Course<'a>> {
    let Some(mut queue) = ring else {
        return Ok(stopped(Fault::Unclear(*first)));
    };
    Ok(play_steps(alloc, &mut queue, steps)?)
}

// What goes through a ring, and for how many there is room.
#[derive(Clone, Copy)]
enum Kind {
    Numbers(u64),
    Texts(u64),
}

// The ring that a line says.
fn ring_of(line: &str) -> Option<Kind> {
    let mut words = Words::of(line);
    let name = words.word()?;
    let capacity = words.number()?;
    if !words.is_over() {
        return None;
    }
    match name {
        "numbers" => Some(Kind::Numbers(capacity)),
        "texts" => Some(Kind::Texts(capacity)),
        _ => None,
    }
}

fn play_row<'a>(alloc: Global, first: &Step<'a>, steps: &[Step<'a>]) -> Result<Course<'a>> {
    let (command, _) = parted(first.text);
    if let Some(outset) = outset_of(command) {
        return play_table(alloc, &outset, first, steps);
    }
    match ring_of(first.text) {
        Some(Kind::Numbers(capacity)) => {
            play_ring::<u64>(alloc, Queue::new(alloc, capacity)?, first, steps)
        }
        Some(Kind::Texts(capacity)) => {
            play_ring::<String>(alloc, Queue::new(alloc, capacity)?, first, steps)
        }
        None => Ok(stopped(Fault::Unclear(*first))),
    }
}

/// Tables and rings, as what plays rows: each row begins with a new one.
pub(crate) struct Tables {}

impl Player for Tables {
    fn play<'a>(&self, alloc: Global, row: &Row<'a>) -> Result<Course<'a>> {
        match row.steps.as_slice() {
            [first, steps @ ..] => play_row(alloc, first, steps),
            [] => Ok(Course {
                steps: 0,
                fault: None,
            }),
        }
    }
}

//! Rows, each played on logs of its own.

use crate::acts::{Answer, play_step};
use crate::desk::Desk;
use anyhow::Error;
use gate_io::NoMemory;
use row_text::{Course, Fault, Player, Row, Step, Words, fault_of};
use std::alloc::Global;

/// The logs, as what plays rows.
pub struct Logs {}

impl Player for Logs {
    fn play<'a>(&self, alloc: Global, row: &Row<'a>) -> Result<Course<'a>, Error> {
        let course = play(alloc, row)?;
        Ok(course)
    }
}

fn play<'a>(alloc: Global, row: &Row<'a>) -> Result<Course<'a>, NoMemory> {
    let mut desk = Desk::new(alloc)?;
    follow_on(alloc, &mut desk, row.steps.as_slice())
}

// Makes the steps in order, up to the first fault.
fn follow_on<'a>(
    alloc: Global,
    desk: &mut Desk,
    lines: &[Step<'a>],
) -> Result<Course<'a>, NoMemory> {
    let mut steps = 0u64;
    for line in lines {
        let fault = follow(alloc, desk, *line)?;
        if fault.is_some() {
            return Ok(Course { steps, fault });
        }
        steps = steps.saturating_add(1);
    }
    Ok(Course { steps, fault: None })
}

// Makes the step on a line. Answers what isn't as it says.
fn follow<'a>(
    alloc: Global,
    desk: &mut Desk,
    line: Step<'a>,
) -> Result<Option<Fault<'a>>, NoMemory> {
    let mut words = Words::of(line.text);
    let Some(found) = make(alloc, desk, &mut words) else {
        return Ok(Some(Fault::Unclear(line)));
    };
    Ok(fault_of(line.line, wanted_of(words), found?))
}

// What a step has to come to, where it says something.
fn wanted_of(words: Words<'_>) -> Option<&str> {
    if words.is_over() {
        return None;
    }
    Some(words.rest())
}

// Makes a step. Answers what it comes to, and leaves what its line says of that.
fn make(alloc: Global, desk: &mut Desk, words: &mut Words<'_>) -> Answer {
    let name = words.word()?;
    play_step(alloc, desk, name, words)
}

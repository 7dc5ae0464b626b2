//! The steps of a row.

use crate::acts::{perform, what_is};
use crate::calls::call;
use crate::desk::Desk;
use crate::routes::ask;
use gate_io::NoMemory;
use row_text::{Course, Fault, Step, Words, fault_of};
use seq_gaps::Expect;
use std::alloc::Global;

/// What a step comes to, if that is something.
pub type Answer = Result<Option<String>, NoMemory>;

// What a step comes to that has this name and these words. It is None where it isn't understood.
fn made(
    alloc: Global,
    desk: &mut Desk,
    line: &mut Expect<u32>,
    name: &str,
    words: &mut Words<'_>,
) -> Option<Answer> {
    if let Some(answer) = perform(alloc, desk, name, words) {
        return Some(answer);
    }
    if let Some(answer) = what_is(alloc, desk, name) {
        return Some(answer);
    }
    if let Some(answer) = call(alloc, line, name, words) {
        return Some(answer);
    }
    ask(alloc, name, words)
}

// What a command comes to. It is None where it isn't understood, or has a word too many.
fn answer(alloc: Global, desk: &mut Desk, line: &mut Expect<u32>, command: &str) -> Option<Answer> {
    let mut words = Words::of(command);
    let name = words.word()?;
    let answer = made(alloc, desk, line, name, &mut words)?;
    if words.is_over() { Some(answer) } else { None }
}

// The command of a step, and what it has to come to, if that is something.
fn parts_of(text: &str) -> (&str, Option<&str>) {
    match text.split_once(": ") {
        Some((command, wanted)) => (command, Some(wanted)),
        None => (text, None),
    }
}

// Makes a step. Answers what isn't as it says.
fn make<'a>(
    alloc: Global,
    desk: &mut Desk,
    line: &mut Expect<u32>,
    step: Step<'a>,
) -> Result<Option<Fault<'a>>, NoMemory> {
    let (command, wanted) = parts_of(step.text);
    let Some(found) = answer(alloc, desk, line, command) else {
        return Ok(Some(Fault::Unclear(step)));
    };
    Ok(fault_of(step.line, wanted, found?))
}

/// Makes the steps in order, up to the first fault.
pub fn follow<'a>(
    alloc: Global,
    desk: &mut Desk,
    line: &mut Expect<u32>,
    lines: &[Step<'a>],
) -> Result<Course<'a>, NoMemory> {
    let mut steps = 0u64;
    for step in lines {
        let fault = make(alloc, desk, line, *step)?;
        if fault.is_some() {
            return Ok(Course { steps, fault });
        }
        steps = steps.saturating_add(1);
    }
    Ok(Course { steps, fault: None })
}

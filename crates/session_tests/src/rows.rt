//! Rows, each played on a session and a number line of its own.
ghost use Rattle.std.specs.Prelude.{◌+◌, ◌≤◌};

use crate::desk::Desk;
use crate::steps::follow;
use anyhow::Result;
use gate_io::NoMemory;
use row_text::{Course, Player, Row, Step, Words};
use seq_gaps::{Expect, MAX_NUMBER};
use std::alloc::Global;

/// What plays rows: each has a new session and a new number line.
pub struct Sessions {}

impl Player for Sessions {
    fn play<'a>(&self, alloc: Global, row: &Row<'a>) -> Result<Course<'a>> {
        Ok(play(alloc, row.steps.as_slice())?)
    }
}

// Plays the steps of a row, up to the first fault.
fn play<'a>(alloc: Global, steps: &[Step<'a>]) -> Result<Course<'a>, NoMemory> {
    let (mut desk, steps) = begin(alloc, steps)?;
    let mut line = Expect::new(alloc)?;
    follow(alloc, &mut desk, &mut line, steps)
}

// The session of a row, and the steps behind the line that says which.
fn begin<'s, 'a>(alloc: Global, steps: &'s [Step<'a>]) -> Result<(Desk, &'s [Step<'a>]), NoMemory> {
    if let Some((first, behind)) = steps.split_first()
        && let Some(desk) = desk_by(alloc, first.text)
    {
        return Ok((desk?, behind));
    }
    Ok((Desk::new(alloc)?, steps))
}

// The session that a line says. It is None where it says none, or a number that can't be expected.
fn desk_by(alloc: Global, line: &str) -> Option<Result<Desk, NoMemory>> {
    let mut words = Words::of(line);
    let name = words.word()?;
    let expected = words.u32()?;
    if !words.is_over() || expected < 1 || expected > MAX_NUMBER + 1 {
        return None;
    }
    match name {
        "resuming" => Some(Desk::resuming(alloc, expected)),
        "dialling" => Some(Desk::dialling(alloc, expected)),
        "dialled" => Some(dialled(alloc, expected)),
        _ => None,
    }
}

// A session that dialled, and has sent its Logon.
fn dialled(alloc: Global, expected: u32) -> Result<Desk, NoMemory>
    requires from { 1 ≤ expected }
    requires to { expected ≤ MAX_NUMBER + 1 }
{
    let mut desk = Desk::dialling(alloc, expected)?;
    dial(alloc, &mut desk)?;
    Ok(desk)
}

// Its connection is made, and its Logon is counted.
fn dial(alloc: Global, desk: &mut Desk) -> Result<(), NoMemory> {
    if let Some(effects) = desk.ask(alloc)? {
        desk.tell(alloc, &effects)?;
    }
    Ok(())
}

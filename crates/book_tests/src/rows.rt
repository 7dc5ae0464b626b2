//! Rows, each played on a session of its own.

ghost use Rattle.std.specs.Prelude.{◌≤◌, IfSome};

use crate::desk::Desk;
use crate::player::Player;
use anyhow::Error;
use gate_io::NoMemory;
use row_text::{Course, Player as RowPlayer, Row, Step as Line, Words};
use seq_gaps::MAX_NUMBER;
use std::alloc::Global;

/// The word of the line that says that the session dials.
const DIALLING: &str = "dialling";

/// How often the session can be granted.
const LEASES: u32 = 2;

/// The books, as what plays rows: each row has a session of its own.
pub struct Books {}

impl RowPlayer for Books {
    fn play<'a>(&self, alloc: Global, row: &Row<'a>) -> Result<Course<'a>, Error> {
        let course = play(alloc, row)?;
        Ok(course)
    }
}

// Plays a row, up to the first fault.
fn play<'a>(alloc: Global, row: &Row<'a>) -> Result<Course<'a>, NoMemory> {
    let (desk, lines) = begin(alloc, row.steps.as_slice())?;
    Player::new(desk).follow_on(alloc, lines)
}

// The session of a row, and the lines of its steps.
fn begin<'s, 'a>(alloc: Global, lines: &'s [Line<'a>]) -> Result<(Desk, &'s [Line<'a>]), NoMemory> {
    if let Some((first, behind)) = lines.split_first()
        && let Some(expected) = expected_by(first.text)
    {
        return Ok((Desk::dialling(alloc, LEASES, expected)?, behind));
    }
    Ok((Desk::new(alloc, LEASES)?, lines))
}

// The number that a session that dials expects, where a line says that and the number can be expected.
fn expected_by(line: &str) -> Option<u32>
    ensures { IfSome result (λ expected. (1 ≤ expected) × (expected ≤ MAX_NUMBER)) }
{
    let mut words = Words::of(line);
    if words.word()? != DIALLING {
        return None;
    }
    let expected = words.u32()?;
    if !words.is_over() || expected < 1 || expected > MAX_NUMBER {
        return None;
    }
    Some(expected)
}

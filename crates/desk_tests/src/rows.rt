//! Rows, from their outset to their end.

ghost use Rattle.desk_tests.specs.Outset.{AreEnds};
ghost use Rattle.desk_tests.specs.Running.{IsRunning};

use crate::asks::{ask_on, part_asks};
use crate::engine_desk::EngineDesk;
use crate::making::{Sides, make};
use crate::morning::{Morning, begin, follow_on};
use crate::outset::part_outset;
use anyhow::Result;
use gate_io::NoMemory;
use library_desk::Shared;
use row_text::{Course, Player, Row, Step};
use std::alloc::Global;

/// The desks, as what plays rows: sessions, two libraries and their table begin anew for each.
pub struct Desks {}

impl Player for Desks {
    fn play<'a>(&self, alloc: Global, row: &Row<'a>) -> Result<Course<'a>> {
        play(alloc, row)
    }
}

// Plays a row, up to the first fault.
fn play<'a>(alloc: Global, row: &Row<'a>) -> Result<Course<'a>> {
    let (outset, behind) = part_outset(row.steps.as_slice());
    let said = row.steps.len().saturating_sub(behind.len());
    let (shared, sides) = make(alloc, outset)?;
    let course = play_behind(alloc, &shared, sides, behind, said as u64)?;
    Ok(course)
}

// Plays the lines behind a row's outset, which has so many. It owns both sides, and has one way out.
fn play_behind<'a>(
    alloc: Global,
    shared: &Shared,
    sides: Sides,
    behind: &[Step<'a>],
    said: u64,
) -> Result<Course<'a>, NoMemory>
    requires running { IsRunning shared.now sides.desk }
    requires first { AreEnds shared.now 0 sides.first }
    requires second { AreEnds shared.now 1 sides.second }
{
    let Sides {
        mut desk,
        first,
        second,
    } = sides;
    let mut morning = begin(alloc, shared, first, second);
    let mut course = Course {
        steps: said,
        fault: None,
    };
    match play_lines(alloc, shared, &mut desk, &mut morning, behind, &mut course) {
        Ok(()) => Ok(course),
        Err(why) => Err(why),
    }
}

// Plays the lines, and then asks past the rings, where no step came to something else.
fn play_lines<'a>(
    alloc: Global,
    shared: &Shared,
    desk: &mut EngineDesk,
    morning: &mut Morning<'_>,
    behind: &[Step<'a>],
    course: &mut Course<'a>,
) -> Result<(), NoMemory>
    requires running { IsRunning shared.now desk.old }
{
    let (lines, asks) = part_asks(behind);
    follow_on(alloc, shared, desk, morning, lines, course)?;
    if course.fault.is_none() {
        ask_on(alloc, shared, &mut desk.libraries.desk, asks, course)?;
    }
    Ok(())
}

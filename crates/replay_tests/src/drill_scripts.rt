//! Drills beside the scripts that their lines are.

ghost use Rattle.std.specs.Prelude.{◌≤◌};

use crate::drill_lines::drill_lines;
use crate::one_round::ONE_ROUND;
use anyhow::Result;
use drill_maker::{MOST_ROUNDS, drill};
use row_text::{holds, same};
use script_text::{Script, read_script};
use std::alloc::Global;

/// How many steps the longest drill has.
const LONGEST: usize = 265_534;

/// All that a script has, as text.
fn told(alloc: Global, script: &Script) -> Result<String> {
    Ok(format!(in alloc; "{script:?}")?)
}

/// The drill of so many rounds is the script of these lines.
fn is_script_of(alloc: Global, rounds: u32, lines: &str) -> Result<()>
    requires least { 1 ≤ rounds }
    requires most { rounds ≤ MOST_ROUNDS }
{
    let made = told(alloc, &drill(alloc, rounds)?)?;
    let read = told(alloc, &read_script(alloc, lines.as_bytes(), false)?)?;
    same("script", &made.as_str(), &read.as_str())
}

pub(crate) fn the_script_of_one_round(alloc: Global) -> Result<()> {
    is_script_of(alloc, 1, ONE_ROUND)
}

pub(crate) fn the_lines_of_one_round(alloc: Global) -> Result<()> {
    let lines = drill_lines(alloc, 1)?;
    same("lines", &lines.as_str(), &ONE_ROUND)
}

pub(crate) fn the_script_of_nine_rounds(alloc: Global) -> Result<()> {
    let lines = drill_lines(alloc, 9)?;
    is_script_of(alloc, 9, lines.as_str())
}

/// Two scripts have so many steps, on the same lines.
fn have_steps(made: &Script, read: &Script, count: usize) -> Result<()> {
    same("steps", &made.steps.as_slice().len(), &count)?;
    same("steps as read", &read.steps.as_slice().len(), &count)?;
    let same_lines = made.step_lines.as_slice() == read.step_lines.as_slice();
    holds("the steps stand on the same lines", same_lines)
}

pub(crate) fn the_steps_of_the_longest_drill(alloc: Global) -> Result<()> {
    let lines = drill_lines(alloc, MOST_ROUNDS as u16)?;
    let read = read_script(alloc, lines.as_bytes(), false)?;
    let made = drill(alloc, MOST_ROUNDS)?;
    have_steps(&made, &read, LONGEST)
}

//! Files of rows, each row played from its outset.

use crate::rows::{Row, Step, rows_of};
use anyhow::{Context, Result, bail};
use std::alloc::Global;
use std::fs;
use std::rt::Runtime;

/// Why a row isn't as it says.
#[derive(Drop)]
pub enum Fault<'a> {
    /// This line isn't understood.
    Unclear(Step<'a>),
    /// The step on this line came to something else. A step that comes to nothing is done as it says.
    Differs {
        line: usize,
        wanted: Option<&'a str>,
        found: Option<String>,
    },
}

/// How far a row was played: how many steps it has come to, and the fault at which it stands.
#[derive(Drop)]
pub struct Course<'a> {
    pub steps: u64,
    pub fault: Option<Fault<'a>>,
}

/// What plays rows.
pub trait Player {
    /// Plays a row from its outset, up to its first fault.
    fn play<'a>(&self, alloc: Global, row: &Row<'a>) -> Result<Course<'a>>;
}

// A fault with its place.
fn told(alloc: Global, file: &str, name: &str, fault: &Fault<'_>) -> Result<String> {
    let told = match fault {
        Fault::Unclear(line) => {
            format!(in alloc;
                "{file}:{}: {name}: not understood: {}",
                line.line, line.text
            )
        }
        Fault::Differs {
            line,
            wanted,
            found,
        } => {
            let wanted = wanted.unwrap_or("it done");
            let found = match found {
                Some(found) => found.as_str(),
                None => "it done",
            };
            format!(in alloc; "{file}:{line}: {name}: wanted {wanted}, found {found}")
        }
    }?;
    Ok(told)
}

// Says how a row was played. Answers whether it is as it says, or is wrong where it says so.
fn tell(
    rt: &impl Runtime,
    alloc: Global,
    file: &str,
    row: &Row<'_>,
    course: &Course<'_>,
) -> Result<bool> {
    let name = row.name;
    match (&course.fault, row.is_wrong) {
        (None, false) => println!(rt; "{file} {name}: {} steps", course.steps)?,
        (None, true) => println!(rt; "{file} {name}: nothing wrong was found in it")?,
        (Some(fault), false) => println!(rt; "{}", told(alloc, file, name, fault)?)?,
        (Some(fault), true) => println!(rt;
            "{} (as it is wrong)",
            told(alloc, file, name, fault)?
        )?,
    }
    Ok(course.fault.is_some() == row.is_wrong)
}

// Plays a row of a file. Answers whether it is as it says.
fn play_row(
    rt: &impl Runtime,
    alloc: Global,
    player: &impl Player,
    file: &str,
    row: &Row<'_>,
) -> Result<bool> {
    let course = player.play(alloc, row)?;
    tell(rt, alloc, file, row, &course)
}

/// Plays the rows of a file, and prints a line for each: how many steps it has, or where it isn't as it says. Answers
/// how many aren't.
pub fn play_file(
    rt: &impl Runtime,
    alloc: Global,
    player: &impl Player,
    file: &str,
) -> Result<u64> {
    let text = fs::read_to_string(rt, file)?;
    let rows = rows_of(alloc, text.as_str())?.context("a step stands before the first row")?;
    let mut differ = 0u64;
    for row in rows.iter() {
        let is_right = play_row(rt, alloc, player, file, row);
        if !is_right.context(format_args!("row {}", row.name))? {
            differ = differ.saturating_add(1);
        }
    }
    Ok(differ)
}

/// Fails where so many rows aren't as they say.
pub fn end(differ: u64) -> Result<()> {
    if differ > 0 {
        bail!("{differ} rows differ");
    }
    Ok(())
}

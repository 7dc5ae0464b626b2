//! Edits of a report.

use anyhow::Result;
use std::alloc::Global;

/// What is done to a line.
#[derive(Clone, Copy, Debug)]
pub(crate) enum Change {
    Put,
    Add,
    Cut,
    End,
}

/// An edit of the report with this name, and the line that an audit of it is to name.
#[derive(Clone, Copy, Debug)]
pub(crate) struct Edit<'a> {
    pub name: &'a str,
    pub change: Change,
    pub line: usize,
    pub wanted: u32,
    pub text: &'a str,
}

fn change_of(word: &str) -> Option<Change> {
    if word == "put" {
        Some(Change::Put)
    } else if word == "add" {
        Some(Change::Add)
    } else if word == "cut" {
        Some(Change::Cut)
    } else if word == "end" {
        Some(Change::End)
    } else {
        None
    }
}

/// The edit that a row says.
pub(crate) fn read_edit(row: &str) -> Option<Edit<'_>> {
    let (name, row) = row.split_once(' ')?;
    let (change, row) = row.split_once(' ')?;
    let (line, row) = row.split_once(' ')?;
    let (wanted, text) = row.split_once(' ').unwrap_or((row, ""));
    Some(Edit {
        name,
        change: change_of(change)?,
        line: line.parse::<usize>().ok()?,
        wanted: wanted.parse::<u32>().ok()?,
        text,
    })
}

/// The report with the edit.
pub(crate) fn edited(alloc: Global, report: &str, edit: &Edit<'_>) -> Result<String> {
    let mut text = String::new(alloc);
    for (place, line) in report.lines().enumerate() {
        if place.saturating_add(1) != edit.line {
            push_line(&mut text, line)?;
            continue;
        }
        match edit.change {
            Change::Put => push_line(&mut text, edit.text)?,
            Change::Add => {
                push_line(&mut text, edit.text)?;
                push_line(&mut text, line)?;
            }
            Change::Cut => {}
            Change::End => return Ok(text),
        }
    }
    Ok(text)
}

fn push_line(text: &mut String, line: &str) -> Result<()> {
    text.push_str(line)?;
    text.push('\n')?;
    Ok(())
}

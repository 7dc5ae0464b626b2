//! The rows of a text.

use std::alloc::{AllocError, Global};

/// A line of a row, with its number in the text, from 1.
#[derive(Clone, Copy, Debug)]
pub struct Step<'a> {
    pub line: usize,
    pub text: &'a str,
}

/// What stands from a line `row NAME` or `wrong NAME` up to the next one.
#[derive(Debug, Drop)]
pub struct Row<'a> {
    pub name: &'a str,
    /// One of its steps is wrong on purpose: it shows that what steps come to is looked at.
    pub is_wrong: bool,
    pub steps: Vec<Step<'a>>,
}

impl<'a> Row<'a> {
    // The row that a line begins, if it does.
    fn begun_by(alloc: Global, line: &'a str) -> Option<Row<'a>> {
        let (name, is_wrong) = match line.strip_prefix("row ") {
            Some(name) => (name, false),
            None => (line.strip_prefix("wrong ")?, true),
        };
        let steps = Vec::new(alloc);
        Some(Row {
            name,
            is_wrong,
            steps,
        })
    }
}

/// The rows of a text, in order; None where a step stands before the first row.
pub fn rows_of(alloc: Global, text: &str) -> Result<Option<Vec<Row<'_>>>, AllocError> {
    let mut rows: Vec<Row<'_>> = Vec::new(alloc);
    for (i, line) in text.lines().enumerate() {
        if line.is_empty() || line.starts_with('#') {
            continue;
        }
        if let Some(row) = Row::begun_by(alloc, line) {
            rows.push(row)?;
            continue;
        }
        let step = Step {
            line: i.saturating_add(1),
            text: line,
        };
        match rows.last_mut() {
            Some(row) => row.steps.push(step)?,
            None => return Ok(None),
        }
    }
    Ok(Some(rows))
}

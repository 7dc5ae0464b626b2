//! What a file stands for, by a plain program that no contract ties to the definition.

use crate::rows::Row;
use crate::runs::Run;
use crate::table::is_of_table;
use std::alloc::{AllocError, Global};

/// How many records a file has, or at which place it is damaged.
#[derive(Clone, Copy, Debug, PartialEq, Eq)]
pub enum Answer {
    Records(usize),
    Damaged(u64),
}

/// The number that so many bytes are, and what stands behind them.
fn number(bytes: &[u8], size: usize) -> Option<(u64, &[u8])> {
    let mut number = 0u64;
    for byte in bytes.get(..size)? {
        number = number.wrapping_mul(256).wrapping_add(u64::from(*byte));
    }
    Some((number, bytes.get(size..)?))
}

fn numbers(bytes: &[u8]) -> Option<([u64; 5], &[u8])> {
    let (a, rest) = number(bytes, 8)?;
    let (b, rest) = number(rest, 8)?;
    let (c, rest) = number(rest, 8)?;
    let (d, rest) = number(rest, 8)?;
    let (e, rest) = number(rest, 8)?;
    Some(([a, b, c, d, e], rest))
}

/// The row at the front, and what stands behind it.
fn row_of(bytes: &[u8]) -> Option<(Row, &[u8])> {
    let (s, rest) = number(bytes, 2)?;
    let (kind, rest) = number(rest, 1)?;
    let (numbers, rest) = numbers(rest)?;
    let (at, rest) = number(rest, 8)?;
    let (expected, rest) = number(rest, 4)?;
    let (length, rest) = number(rest, 4)?;
    let length = usize::try_from(length).ok()?;
    let row = Row {
        s: u16::try_from(s).ok()?,
        kind: u8::try_from(kind).ok()?,
        numbers,
        at,
        expected: u32::try_from(expected).ok()?,
        body: rest.get(..length)?,
    };
    Some((row, rest.get(length..)?))
}

/// The records of the batch behind the gate at a place, if there is a gate behind them.
fn batch_at(file: &[u8], place: usize) -> Option<&[u8]> {
    let (size, rest) = number(file.get(place.checked_add(1)?..)?, 4)?;
    let size = usize::try_from(size).ok()?;
    let _gate = rest.get(size)?;
    rest.get(..size)
}

/// Takes the rows of a batch, if each may stand there. How many they are.
fn take_rows(
    alloc: Global,
    runs: &mut Vec<Run>,
    batch: &[u8],
) -> Result<Option<usize>, AllocError> {
    let mut rest = batch;
    let mut count = 0usize;
    for _ in 0..batch.len() {
        if rest.is_empty() {
            break;
        }
        let Some((row, behind)) = row_of(rest) else {
            return Ok(None);
        };
        let of_table = is_of_table(alloc, &row)?;
        match runs.get_mut(usize::from(row.s)) {
            Some(run) if of_table && run.may_follow(&row) => run.take(&row),
            _ => return Ok(None),
        }
        count = count.saturating_add(1);
        rest = behind;
    }
    Ok(Some(count))
}

/// What a file stands for.
pub fn read(alloc: Global, file: &[u8], sessions: u16, leases: u32) -> Result<Answer, AllocError> {
    let mut runs = Vec::new(alloc);
    for _ in 0..sessions {
        runs.push(Run::new(leases))?;
    }
    let mut place = 0usize;
    let mut count = 0usize;
    for _ in 0..file.len() {
        if file.len() <= 1 || file.get(place) != Some(&1) {
            break;
        }
        let Some(batch) = batch_at(file, place) else {
            return Ok(Answer::Damaged(place as u64));
        };
        let Some(rows) = take_rows(alloc, &mut runs, batch)? else {
            return Ok(Answer::Damaged(place as u64));
        };
        count = count.saturating_add(rows);
        place = place.saturating_add(5).saturating_add(batch.len());
    }
    Ok(Answer::Records(count))
}

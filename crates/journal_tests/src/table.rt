//! Which rows are of the format's table. No contract ties it to the definition.

use crate::bodies::{is_admin, is_inbound, is_sent};
use crate::rows::Row;
use std::alloc::{AllocError, Global};

/// The end of the year 9999.
pub const LAST_MOMENT: u64 = 253_402_300_799_999;

/// The least and the most that a number may be.
type Range = (u64, u64);

const NONE: Range = (0, 0);

const LIBRARY: Range = (1, 16);

const HEIR: Range = (0, 16);

const WORD: Range = (0, 4_294_967_295);

const LONG: Range = (0, u64::MAX);

const TIME: Range = (0, LAST_MOMENT);

/// The ranges of a refusal's numbers, by its cause.
fn refusal_ranges(cause: u64) -> Option<[Range; 5]> {
    let (first, second) = match cause {
        1 => (LIBRARY, WORD),
        2 => (LIBRARY, TIME),
        3 => (WORD, NONE),
        4 => (LONG, LONG),
        _ => return None,
    };
    Some([LIBRARY, WORD, (1, 4), first, second])
}

/// The ranges of a kind's numbers.
fn ranges(kind: u8, numbers: [u64; 5]) -> Option<[Range; 5]> {
    let [_, _, cause, _, _] = numbers;
    match kind {
        1 | 2 => Some([LONG, NONE, NONE, NONE, NONE]),
        3 | 5 | 12 | 13 => Some([WORD, NONE, NONE, NONE, NONE]),
        4 => Some([LONG, LONG, NONE, NONE, NONE]),
        6 => Some([LIBRARY, WORD, WORD, LONG, LONG]),
        7 => refusal_ranges(cause),
        8 => Some([WORD, LIBRARY, WORD, LONG, NONE]),
        9 => Some([WORD, LIBRARY, WORD, HEIR, NONE]),
        10 => Some([WORD, LIBRARY, WORD, NONE, NONE]),
        11 => Some([WORD, TIME, NONE, NONE, NONE]),
        _ => None,
    }
}

fn has_numbers(row: &Row) -> bool {
    let Some(ranges) = ranges(row.kind, row.numbers) else {
        return false;
    };
    let mut pairs = row.numbers.iter().zip(ranges.iter());
    pairs.all(|(number, range)| range.0 <= *number && *number <= range.1)
}

fn has_body(alloc: Global, row: &Row) -> Result<bool, AllocError> {
    let [first, _, _, _, _] = row.numbers;
    match row.kind {
        1 => is_inbound(alloc, row.body),
        2 => is_admin(alloc, first, row.body),
        8 => is_sent(alloc, row.body),
        _ => Ok(row.body.is_empty()),
    }
}

/// Whether a row is of the table.
pub fn is_of_table(alloc: Global, row: &Row) -> Result<bool, AllocError> {
    let expects = 1 <= row.expected && row.expected <= 1_000_000_000;
    let timed = match row.kind {
        2 | 4 | 8 => row.at <= LAST_MOMENT,
        _ => row.at == 0,
    };
    Ok(expects && timed && has_numbers(row) && has_body(alloc, row)?)
}

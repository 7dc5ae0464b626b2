//! Records that were recovered as text, by a plain program that no contract ties to the format.

use crate::rows::{Row, put_row};
use lease_core::{Entry, Record, Why};
use std::alloc::{AllocError, Global};

fn refusal(library: u8, nr: u32, why: Why) -> [u64; 5] {
    let [cause, first, second] = match why {
        Why::UnknownSession { s } => [0, u64::from(s), 0],
        Why::OtherOwner { owner, lease } => [1, u64::from(owner), u64::from(lease)],
        Why::Reserved { for_library, until } => [2, u64::from(for_library), until],
        Why::LeasesSpent { lease } => [3, u64::from(lease), 0],
        Why::MissingMessages { asked, logged } => [4, asked, logged],
    };
    [u64::from(library), u64::from(nr), cause, first, second]
}

fn by_lease(lease: u32, library: u8, count: u32, last: u64) -> [u64; 5] {
    [
        u64::from(lease),
        u64::from(library),
        u64::from(count),
        last,
        0,
    ]
}

fn one(number: u64) -> [u64; 5] {
    [number, 0, 0, 0, 0]
}

fn by_library(entry: Entry) -> (u8, [u64; 5]) {
    match entry {
        Entry::Granted {
            library,
            nr,
            lease,
            from,
            start,
        } => (
            6,
            [
                u64::from(library),
                u64::from(nr),
                u64::from(lease),
                from,
                start,
            ],
        ),
        Entry::Refused { library, nr, why } => (7, refusal(library, nr, why)),
        Entry::Send {
            lease,
            library,
            ordinal,
            number,
        } => (8, by_lease(lease, library, ordinal, number)),
        Entry::Release {
            lease,
            library,
            count,
            heir,
        } => (9, by_lease(lease, library, count, u64::from(heir))),
        Entry::Timeout {
            lease,
            library,
            count,
        } => (10, by_lease(lease, library, count, 0)),
        _ => (0, one(0)),
    }
}

fn kind_and_numbers(entry: Entry) -> (u8, [u64; 5]) {
    match entry {
        Entry::Arrive { pos } => (1, one(pos)),
        Entry::Admin { number } => (2, one(number)),
        Entry::Bind { c } => (3, one(u64::from(c))),
        Entry::Plan { begin, last, .. } => (4, [begin, last, 0, 0, 0]),
        Entry::Leave { c } => (5, one(u64::from(c))),
        Entry::Hold { lease, until } => (11, [u64::from(lease), until, 0, 0, 0]),
        Entry::Lapse { lease } => (12, one(u64::from(lease))),
        Entry::Reset { series } => (13, one(u64::from(series))),
        _ => by_library(entry),
    }
}

/// The text of records.
pub fn text_of(alloc: Global, records: &[Record]) -> Result<Vec<u8>, AllocError> {
    let mut text = Vec::new(alloc);
    for record in records {
        let (kind, numbers) = kind_and_numbers(record.entry);
        let row = Row {
            s: record.s,
            kind,
            numbers,
            at: record.at,
            expected: record.expected,
            body: record.body.as_slice(),
        };
        put_row(&mut text, &row)?;
    }
    Ok(text)
}

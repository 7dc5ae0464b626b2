//! What a run left, beside what is told of it plainly.

use crate::desk::Left;
use crate::plain_run::{PlainConnection, PlainEntry, PlainRun};
use connection_core::ConnRecord;
use message_log::{InLog, OutLog};

/// What of a run isn't as it is told.
#[derive(Clone, Copy, Debug)]
pub enum Difference {
    /// How many items of the last connection aren't written whole.
    Waiting,
    Journal,
    Inbound,
    Outbound,
    /// How many connections there were.
    Connections,
    /// What came on a connection, what of it was garbled, and how it ended.
    Taken,
    Written,
}

/// What of a session's book and of the records of its connections isn't as it is told.
pub fn what_differs(left: &Left, plain: &PlainRun) -> Option<Difference> {
    let book = &left.book;
    if book.entries() != plain.journal.as_slice() {
        return Some(Difference::Journal);
    }
    if !is_inbound(book.inbound(), plain.inbound.as_slice()) {
        return Some(Difference::Inbound);
    }
    if !is_outbound(book.outbound(), plain.series.as_slice()) {
        return Some(Difference::Outbound);
    }
    connections_differ(left, plain.connections.as_slice())
}

/// How many items of the last connection wait, where so many bytes of it were written.
pub fn told_to_wait(plain: &PlainRun, written: usize) -> u64 {
    match plain.connections.last() {
        Some(c) => c.ends.iter().filter(|end| **end > written).count() as u64,
        None => 0,
    }
}

fn is_inbound(log: &InLog, told: &[Vec<u8>]) -> bool {
    if log.len() != told.len() as u64 {
        return false;
    }
    for (pos, body) in told.iter().enumerate() {
        if log.body(pos as u64) != Some(body.as_slice()) {
            return false;
        }
    }
    true
}

fn is_outbound(log: &OutLog, told: &[Vec<PlainEntry>]) -> bool {
    if u64::from(log.series()) != told.len() as u64 {
        return false;
    }
    let mut series = 0u32;
    for entries in told {
        series = series.wrapping_add(1);
        if !is_series(log, series, entries.as_slice()) {
            return false;
        }
    }
    true
}

fn is_series(log: &OutLog, series: u32, told: &[PlainEntry]) -> bool {
    if log.len_of(series) != Some(told.len() as u64) {
        return false;
    }
    let mut number = 0u64;
    for entry in told {
        number = number.wrapping_add(1);
        if !is_entry(log, series, number, entry) {
            return false;
        }
    }
    true
}

fn is_entry(log: &OutLog, series: u32, number: u64, told: &PlainEntry) -> bool {
    log.entry(series, number).is_some_and(|entry| {
        entry.at == told.at
            && entry.admin == told.is_filled()
            && entry.body.as_slice() == told.body.as_slice()
    })
}

// None is told of the first two.
fn connections_differ(left: &Left, told: &[PlainConnection]) -> Option<Difference> {
    let mut place = 2usize;
    for connection in told {
        let Some(record) = left.record(place) else {
            return Some(Difference::Connections);
        };
        place = place.saturating_add(1);
        if !is_taken(record, connection) {
            return Some(Difference::Taken);
        }
        if !is_written(record, connection, place == left.connections()) {
            return Some(Difference::Written);
        }
    }
    if place == left.connections() {
        return None;
    }
    Some(Difference::Connections)
}

fn is_taken(record: &ConnRecord, told: &PlainConnection) -> bool {
    record.taken.as_slice() == told.taken.as_slice()
        && record.garbled == told.garbled
        && record.cause == told.cause
        && record.session.is_some() == told.bound
}

// All of the last connection's text is written, and a beginning of each other's.
fn is_written(record: &ConnRecord, told: &PlainConnection, is_last: bool) -> bool {
    let written = record.written.as_slice();
    told.text.as_slice().starts_with(written) && (!is_last || written.len() == told.text.len())
}

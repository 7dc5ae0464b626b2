//! What can be asked of the session and of its last connection.

use crate::desk::Desk;
use crate::texts::T;
use connection_core::Connection;
use gate_io::NoMemory;
use message_log::{InLog, OutLog};
use row_text::{Words, legible, said, shown};
use session_book::SessionBook;
use std::alloc::Global;

/// What is asked. Moments are told in milliseconds past the morning's beginning.
#[derive(Clone, Copy)]
pub enum Fact {
    /// `stands`: whether the last connection does.
    Stands,
    /// `cause`: why it ended.
    Cause,
    /// `waits`: how many items wait on it.
    Waits,
    /// `expects`: the number that the session expects.
    Expects,
    /// `owner`: which library has it, or 0, and by which lease, which is the last one.
    Owner,
    /// `reserved`: for which library it waits, and until when.
    Reserved,
    /// `due`: when the next tick does something.
    Due,
    /// `inbound POS`: how many messages were accepted, and the one at this position.
    Inbound(u64),
    /// `outbound SERIES NUMBER`: the body with this number of a series, with its moment, and how many the
    /// series has.
    Outbound(u32, u64),
}

pub fn fact_of(name: &str, words: &mut Words<'_>) -> Option<Fact> {
    Some(match name {
        "stands" => Fact::Stands,
        "cause" => Fact::Cause,
        "waits" => Fact::Waits,
        "expects" => Fact::Expects,
        "owner" => Fact::Owner,
        "reserved" => Fact::Reserved,
        "due" => Fact::Due,
        "inbound" => Fact::Inbound(words.number()?),
        "outbound" => Fact::Outbound(words.u32()?, words.number()?),
        _ => return None,
    })
}

/// What is so.
pub fn what_is(alloc: Global, desk: &Desk, fact: Fact) -> Result<Option<String>, NoMemory> {
    let book = desk.book();
    let connection = desk.connection();
    match fact {
        Fact::Stands => stands(alloc, connection),
        Fact::Cause => shown(alloc, &connection.cause()),
        Fact::Waits => shown(alloc, &connection.waiting_items()),
        Fact::Expects => shown(alloc, &book.expected()),
        Fact::Owner => owner(alloc, book),
        Fact::Reserved => reserved(alloc, book),
        Fact::Due => shown(alloc, &book.due().map(|at| at.wrapping_sub(T))),
        Fact::Inbound(pos) => inbound(alloc, book.inbound(), pos),
        Fact::Outbound(series, number) => outbound(alloc, book.outbound(), series, number),
    }
}

fn stands(alloc: Global, connection: &Connection) -> Result<Option<String>, NoMemory> {
    if connection.has_ended() {
        return said(alloc, "that it has ended");
    }
    Ok(None)
}

fn owner(alloc: Global, book: &SessionBook) -> Result<Option<String>, NoMemory> {
    let (library, lease) = book.owner();
    Ok(Some(format!(in alloc; "library {library}, lease {lease}")?))
}

fn reserved(alloc: Global, book: &SessionBook) -> Result<Option<String>, NoMemory> {
    let Some((library, until)) = book.reserved() else {
        return said(alloc, "for nobody");
    };
    let past = until.wrapping_sub(T);
    Ok(Some(format!(in alloc; "for library {library} until {past}")?))
}

fn inbound(alloc: Global, log: &InLog, pos: u64) -> Result<Option<String>, NoMemory> {
    let count = log.len();
    let Some(body) = log.body(pos) else {
        return said(alloc, "no such message");
    };
    let body = legible(alloc, body)?;
    Ok(Some(format!(in alloc; "of {count}: {body}")?))
}

fn outbound(
    alloc: Global,
    log: &OutLog,
    series: u32,
    number: u64,
) -> Result<Option<String>, NoMemory> {
    let (Some(entry), Some(count)) = (log.entry(series, number), log.len_of(series)) else {
        return said(alloc, "no such body");
    };
    let past = entry.at.wrapping_sub(T);
    let body = legible(alloc, entry.body.as_slice())?;
    Ok(Some(format!(in alloc; "at {past}, of {count}: {body}")?))
}

//! What counterparties do on connections.

ghost use Rattle.std.specs.Prelude.{◌≤◌, OnOk};
ghost use Rattle.desk_tests.specs.Running.{IsRunning};

use crate::engine_desk::EngineDesk;
use crate::making::HOLD;
use crate::texts::{moment, order, soh};
use crate::{counterparty, engine};
use gate_io::{LAST_MOMENT, NoMemory};
use library_desk::Shared;
use row_text::Words;
use session_core::Cause;
use std::alloc::Global;

/// Connections are named by their places.
#[derive(Clone, Copy)]
pub enum Coming<'a> {
    /// `connect`: the next connection is accepted.
    Connect,
    /// `hears K BODY`: a body comes. What the session's library did is gathered before it.
    Hears(usize, &'a str),
    /// `orders K S FIRST LAST`: the orders from one number to another come for session 0 or 1.
    Orders(usize, u16, u64, u64),
    /// `ends K CAUSE`: the connection ends.
    Ends(usize, Cause),
    /// `writes K`: all that can be written is.
    Writes(usize),
}

/// What comes by this name and these words, but for a body.
pub fn coming_of<'a>(name: &str, words: &mut Words<'a>) -> Option<Coming<'a>> {
    Some(match name {
        "connect" => Coming::Connect,
        "orders" => Coming::Orders(
            words.place()?,
            words.u16()?,
            words.number()?,
            words.number()?,
        ),
        "ends" => Coming::Ends(words.place()?, cause_of(words.word()?)?),
        "writes" => Coming::Writes(words.place()?),
        _ => return None,
    })
}

// The cause by which the outside ends a connection.
fn cause_of(word: &str) -> Option<Cause> {
    match word {
        "End" => Some(Cause::End),
        "ReadFault" => Some(Cause::ReadFault),
        "WriteFault" => Some(Cause::WriteFault),
        _ => None,
    }
}

// The orders of these numbers come.
fn orders(
    alloc: Global,
    shared: &Shared,
    desk: &mut EngineDesk,
    k: usize,
    s: u16,
    first: u64,
    last: u64,
    at: u64,
    until: u64,
) -> Result<bool, NoMemory>
    requires running { IsRunning shared.now desk.old }
    requires moment { at ≤ LAST_MOMENT }
    ensures running { OnOk result (IsRunning shared.now desk.new) }
{
    for number in first..last.saturating_add(1) {
        let body = order(alloc, s, number)?;
        if !counterparty::hear(alloc, shared, desk, k, body, at, until)? {
            return Ok(false);
        }
    }
    Ok(true)
}

/// It comes. Says whether it could.
pub fn come(
    alloc: Global,
    shared: &Shared,
    desk: &mut EngineDesk,
    past: u64,
    coming: Coming<'_>,
) -> Result<bool, NoMemory>
    requires running { IsRunning shared.now desk.old }
    ensures running { OnOk result (IsRunning shared.now desk.new) }
{
    let at = moment(past);
    let until = at.saturating_add(HOLD);
    match coming {
        Coming::Orders(k, s, first, last) => {
            orders(alloc, shared, desk, k, s, first, last, at, until)
        }
        Coming::Connect => counterparty::connect(alloc, shared, desk, at),
        Coming::Hears(k, text) => {
            let body = soh(alloc, text)?;
            counterparty::hear(alloc, shared, desk, k, body, at, until)
        }
        Coming::Ends(k, cause) => counterparty::end(shared, desk, k, cause),
        Coming::Writes(k) => engine::write(shared, desk, k),
    }
}

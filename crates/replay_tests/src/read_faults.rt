//! A read fails in a morning, in each of its turns and on each of its connections.

use crate::morning::{Fault, TURNS, morning};
use crate::reports::left_by_text;
use anyhow::{Context, Result, bail};
use connection_core::ConnRecord;
use lease_core::Holding;
use row_text::{holds, same};
use run_report::RunRecord;
use session_core::Cause;
use std::alloc::Global;

/// What the morning leaves, with a fault or without.
fn left_by_morning(alloc: Global, fault: Option<Fault>) -> Result<RunRecord> {
    left_by_text(alloc, morning(alloc, fault)?.as_bytes())
}

/// The engine has the session first. Each holding begins where the one before ends, engine and libraries take
/// turns, and the last one ends where the inbound log does.
fn adjoin(holdings: &[Holding], end: u64) -> Result<()> {
    let mut place = 0;
    let mut engine = true;
    for holding in holdings {
        same("start of a holding", &holding.start, &place)?;
        same("the engine's", &(holding.library == 0), &engine)?;
        place = holding.end;
        engine = !engine;
    }
    same("end of the last holding", &place, &end)
}

fn all_adjoin(left: &RunRecord) -> Result<()> {
    for session in left.engine.sessions.as_slice() {
        adjoin(session.registry.holdings(), session.inbound.len())?;
    }
    Ok(())
}

/// What was read and what was written begin what they are without the fault.
fn begins(connection: &ConnRecord, whole: &ConnRecord) -> Result<()> {
    let (taken, written) = (connection.taken.as_slice(), connection.written.as_slice());
    let is_taken = whole.taken.as_slice().starts_with(taken);
    holds(
        "what was read begins what it is without the fault",
        is_taken,
    )?;
    let is_written = whole.written.as_slice().starts_with(written);
    holds(
        "what was written begins what it is without the fault",
        is_written,
    )
}

/// What a connection without the fault wrote and why it ended are as without it.
fn is_unharmed(connection: &ConnRecord, whole: &ConnRecord) -> Result<()> {
    same("cause", &connection.cause, &Some(Cause::LoggedOut))?;
    let is_whole = connection.written.as_slice() == whole.written.as_slice();
    holds("the other connection wrote all", is_whole)
}

/// The connection with the fault ends by it, and the other one is as without it.
fn compare(fault: Fault, left: &RunRecord, whole: &RunRecord) -> Result<()> {
    let connections = left.engine.connections.as_slice();
    let wholes = whole.engine.connections.as_slice();
    same("connections", &connections.len(), &2)?;
    for (c, (connection, whole)) in (0..2).zip(connections.iter().zip(wholes)) {
        begins(connection, whole)?;
        if c == fault.connection {
            same("cause", &connection.cause, &Some(Cause::ReadFault))?;
        } else {
            is_unharmed(connection, whole)?;
        }
    }
    Ok(())
}

/// What the morning leaves without a fault.
fn is_whole(left: &RunRecord) -> Result<()> {
    all_adjoin(left)?;
    let [buyer, desk] = left.engine.sessions.as_slice() else {
        bail!("not two sessions");
    };
    same(
        "BUYER",
        &(buyer.inbound.len(), buyer.outbound.len()),
        &(40, 42),
    )?;
    same("DESK", &(desk.inbound.len(), desk.outbound.len()), &(0, 3))?;
    same("holdings", &buyer.registry.holdings().len(), &5)
}

pub(crate) fn the_morning_without_a_fault(alloc: Global) -> Result<()> {
    is_whole(&left_by_morning(alloc, None)?)
}

/// The morning with a fault leaves the holdings in order, and harms no other connection.
fn compare_with(alloc: Global, fault: Fault, whole: &RunRecord) -> Result<()> {
    let left = left_by_morning(alloc, Some(fault))?;
    all_adjoin(&left)?;
    compare(fault, &left, whole)
}

/// So it is with a fault of each connection in this turn.
fn compare_turn(alloc: Global, turn: u32, whole: &RunRecord) -> Result<()> {
    for connection in 0..2 {
        let fault = Fault { turn, connection };
        compare_with(alloc, fault, whole).context(format_args!("{fault:?}"))?;
    }
    Ok(())
}

fn compare_turns(alloc: Global, whole: &RunRecord) -> Result<()> {
    for turn in 1..=TURNS {
        compare_turn(alloc, turn, whole)?;
    }
    Ok(())
}

pub(crate) fn a_read_fails_in_each_turn_of_the_morning(alloc: Global) -> Result<()> {
    let whole = left_by_morning(alloc, None)?;
    compare_turns(alloc, &whole)
}

//! Runs in each of which one read, write, accept or dial fails, in turn, or each write takes one byte.

ghost use Rattle.std.specs.Prelude.{◌≡◌, IfOk};

use crate::audited::verdict;
use crate::drowsy::DrowsyGate;
use crate::faulty::{Fault, FaultyWire};
use crate::frames::{come, logon, put_frame};
use crate::served::{Ran, recorded, words};
use anyhow::{Result, bail};
use gate_io::{Clock, FIRST_DIALLED, Gate, MemWire, RealClock};
use gateway_run::{RunRecord, Status};
use journal_audit::Verdict;
use session_core::Cause;
use std::alloc::Global;
use std::rt;
use std::rt::Runtime;
use std::thread::Threads;

/// Room for what is written to a connection, and for the report of a run.
const ROOM: usize = 65_536;

const REPORT: usize = 1_048_576;

/// How many of a kind are let fail at most, one in each run.
const MOST: u64 = 400;

/// Two sessions that accept and one that dials, two libraries, and each library's lines.
const SCRIPT: &str = "session GATE P0
session GATE P1
dial GATE HUB hub:1 30 2
libraries 2
connections 2
dials 1
lib 1 request 0 0
lib 1 answer
lib 1 poll
lib 1 send 0 35=8|37=R0|
lib 1 request 2 0
lib 1 answer
lib 1 send 2 35=8|37=R2|
lib 1 release 2
lib 2 request 1 0
lib 2 answer
lib 2 poll
lib 2 poll
lib 2 send 1 35=8|37=R1|
lib 2 hand 1 1
";

/// What a counterparty sends that logs on, sends three orders and logs out.
fn bytes_of(alloc: Global, them: &str) -> Result<Vec<u8>> {
    let mut bytes = logon(alloc, them)?;
    for number in 2..5 {
        put_frame(
            alloc,
            them,
            number,
            "D",
            "11=A1\x0155=ACME\x0154=1\x0138=100\x01",
            &mut bytes,
        )?;
    }
    put_frame(alloc, them, 5, "5", "", &mut bytes)?;
    Ok(bytes)
}

/// A wire at which two come, and one is called up.
fn wire(alloc: Global) -> Result<MemWire>
    ensures accepted { IfOk result (λ wire. wire.accepted ≡ 0) }
    ensures dialled { IfOk result (λ wire. wire.dialled ≡ 0) }
{
    let mut wire = MemWire::new(alloc);
    let one = bytes_of(alloc, "P0")?;
    let two = bytes_of(alloc, "P1")?;
    let hub = bytes_of(alloc, "HUB")?;
    come(alloc, &mut wire, one.as_slice())?;
    come(alloc, &mut wire, two.as_slice())?;
    wire.take(alloc)?;
    wire.give(alloc, FIRST_DIALLED, hub.as_slice())?;
    wire.finish(FIRST_DIALLED);
    wire.reserve(alloc, ROOM)?;
    Ok(wire)
}

/// Whether a connection of a record ended by this cause.
fn ended_by(record: &RunRecord, place: usize, cause: Cause) -> bool {
    match record.engine.connections.as_slice().get(place) {
        Some(connection) => connection.cause == Some(cause),
        None => false,
    }
}

/// How many connections of a record ended by a fault.
fn faults(record: &RunRecord) -> u64 {
    let mut count = 0u64;
    for connection in record.engine.connections.as_slice() {
        if let Some(Cause::ReadFault | Cause::WriteFault) = connection.cause {
            count = count.saturating_add(1);
        }
    }
    count
}

/// The place in a record of a connection with this number, where two were accepted.
fn place_of(connection: u32) -> usize {
    if connection < FIRST_DIALLED {
        connection as usize
    } else {
        2
    }
}

/// Whether the connections ended as they should: the one that failed by its fault, unless a write failed behind its end.
fn is_right(record: &RunRecord, fault: Fault, connection: Option<u32>) -> bool {
    match (fault, connection) {
        (Fault::Read, Some(c)) => {
            faults(record) == 1 && ended_by(record, place_of(c), Cause::ReadFault)
        }
        (Fault::Write, Some(c)) => {
            let count = faults(record);
            count == 0 || (count == 1 && ended_by(record, place_of(c), Cause::WriteFault))
        }
        _ => faults(record) == 0,
    }
}

/// What came of a run: whether the fault came, and whether all is right.
#[derive(Clone, Copy, Debug)]
struct Came {
    failed: bool,
    right: bool,
}

/// Whether a run came to its end, with a report that is right.
fn has_ended(alloc: Global, ran: &Ran) -> Result<bool> {
    let ended = matches!(ran.status, Status::Ok | Status::TurnsSpent { .. });
    let audited = matches!(verdict(alloc, ran)?, Verdict::Yes);
    Ok(ended && audited)
}

/// One run, in which so many succeed before one fails.
fn run<R: Threads + Sync, C: Clock + Send, G: Gate + Sync>(
    rt: &R,
    alloc: Global,
    fault: Fault,
    before: u64,
    clock: &mut C,
    gate: &G,
) -> Result<Came> {
    let words = words(alloc, "200000")?;
    let mut wire = FaultyWire::new(wire(alloc)?, fault, before);
    let (ran, record) = recorded(
        rt,
        alloc,
        SCRIPT,
        words.as_slice(),
        &mut wire,
        clock,
        gate,
        REPORT,
    )?;
    let right = has_ended(alloc, &ran)? && is_right(&record, fault, wire.connection());
    Ok(Came {
        failed: wire.has_failed(),
        right,
    })
}

/// The run in which so many succeed before one fails. Prints where it ends wrong.
fn fail_one(
    rt: &(impl Runtime + rt::Clock + Threads + Copy + Send + Sync),
    alloc: Global,
    fault: Fault,
    before: u64,
) -> Result<Came> {
    let mut clock = RealClock::new(*rt);
    let gate = DrowsyGate::new(*rt, before);
    let came = run(rt, alloc, fault, before, &mut clock, &gate)?;
    if !came.right {
        println!(rt; "{fault:?} {before} ends wrong")?;
    }
    Ok(came)
}

/// Lets each of a kind fail, one in each run. Answers how many runs ended wrong.
fn fail_kind(
    rt: &(impl Runtime + rt::Clock + Threads + Copy + Send + Sync),
    alloc: Global,
    fault: Fault,
) -> Result<u64> {
    let mut wrong = 0u64;
    for before in 0..MOST {
        let came = fail_one(rt, alloc, fault, before)?;
        if !came.right {
            wrong = wrong.saturating_add(1);
        }
        if !came.failed {
            println!(rt; "{fault:?}: {before} failed, one in each run")?;
            break;
        }
    }
    Ok(wrong)
}

/// Lets each of each kind fail. Fails where a run ended wrong.
pub(crate) fn fail_each(
    rt: &(impl Runtime + rt::Clock + Threads + Copy + Send + Sync),
    alloc: Global,
) -> Result<()> {
    let mut wrong = 0u64;
    for fault in Fault::ALL {
        wrong = wrong.saturating_add(fail_kind(rt, alloc, fault)?);
    }
    if wrong > 0 {
        bail!("{wrong} runs ended wrong");
    }
    Ok(())
}

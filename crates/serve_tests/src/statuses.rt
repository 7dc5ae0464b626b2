//! The statuses that `serve` has beside those of `replay`.

ghost use Rattle.std.specs.Prelude.{◌≡◌, IfOk};

use crate::frames::logon;
use crate::served::{MOMENT, Ran, recorded, served, words};
use anyhow::{Context, Result};
use gate_io::{MemWire, OpenGate, StepClock};
use gateway_run::Status;
use script_text::ScriptKind;
use std::alloc::Global;
use std::thread::Threads;

const ROOM: usize = 1_048_576;

/// A session that accepts one connection.
const ONE: &str = "session GATE BUYER\nconnections 1\n";

/// Serves a script over a wire, with so many turns and so much room for the report.
fn run(
    rt: &(impl Threads + Sync),
    alloc: Global,
    wire: &mut MemWire,
    script: &str,
    turns: &str,
    room: usize,
) -> Result<Ran>
    requires accepted { wire.old.accepted ≡ 0 }
    requires dialled { wire.old.dialled ≡ 0 }
{
    let mut clock = StepClock::new(MOMENT);
    let gate = OpenGate::new();
    served(rt, alloc, script, turns, wire, &mut clock, &gate, room)
}

/// So over a wire at which nobody comes.
fn run_alone(
    rt: &(impl Threads + Sync),
    alloc: Global,
    script: &str,
    turns: &str,
    room: usize,
) -> Result<Ran> {
    let mut wire = MemWire::new(alloc);
    run(rt, alloc, &mut wire, script, turns, room)
}

/// No connection comes, and the engine's turns are spent.
pub(crate) fn the_engine_spends_its_turns(rt: &(impl Threads + Sync), alloc: Global) -> Result<()> {
    let ran = run_alone(rt, alloc, ONE, "3", ROOM)?;
    ran.ended_as(Status::TurnsSpent {
        turns: 3,
        library: 0,
    })?;
    ran.has(&["session 0 GATE BUYER owner 0 lease 0 in 0 out 0\n"])
}

/// A dial that never succeeds is awaited as well.
pub(crate) fn dials_are_awaited(rt: &(impl Threads + Sync), alloc: Global) -> Result<()> {
    let ran = run_alone(
        rt,
        alloc,
        "dial GATE HUB hub:1 30 1000\ndials 1\n",
        "5",
        ROOM,
    )?;
    ran.ended_as(Status::TurnsSpent {
        turns: 5,
        library: 0,
    })
}

/// An empty script is over at once.
pub(crate) fn nothing_is_awaited(rt: &(impl Threads + Sync), alloc: Global) -> Result<()> {
    let ran = run_alone(rt, alloc, "", "1", ROOM)?;
    ran.ended_as(Status::Ok)?;
    ran.has_written(b"fixgate report 1\nend\n")
}

pub(crate) fn the_address_cannot_be_listened_at(
    rt: &(impl Threads + Sync),
    alloc: Global,
) -> Result<()> {
    let mut wire = MemWire::new(alloc);
    wire.fail_listen();
    let ran = run(rt, alloc, &mut wire, "", "1", ROOM)?;
    ran.ended_as(Status::ListenFault)?;
    ran.has_written(b"")
}

/// The report can't be written whole, whatever else is to be told.
pub(crate) fn the_report_cannot_be_written(
    rt: &(impl Threads + Sync),
    alloc: Global,
) -> Result<()> {
    let ran = run_alone(rt, alloc, ONE, "3", 10)?;
    ran.ended_as(Status::WriteFault)?;
    ran.has_written(b"fixgate re")
}

/// A line of `replay` is misplaced.
pub(crate) fn a_line_of_replay_is_misplaced(
    rt: &(impl Threads + Sync),
    alloc: Global,
) -> Result<()> {
    let ran = run_alone(rt, alloc, "session GATE BUYER\nturn\n", "3", ROOM)?;
    ran.ended_as(Status::ScriptFault {
        line: 2,
        kind: ScriptKind::Misplaced,
    })
}

/// Words that serve nothing give the status of a wrong use, and nothing is written.
fn is_refused(rt: &(impl Threads + Sync), alloc: Global, words: &[String]) -> Result<()> {
    let mut wire = MemWire::new(alloc);
    let mut clock = StepClock::new(MOMENT);
    let gate = OpenGate::new();
    let (ran, _record) = recorded(rt, alloc, "", words, &mut wire, &mut clock, &gate, ROOM)?;
    ran.ended_as(Status::Usage)?;
    ran.has_written(b"")
}

/// The words of `replay`.
fn words_of_replay(alloc: Global) -> Result<Vec<String>> {
    let mut replay = Vec::new(alloc);
    for text in ["replay", "a.script"] {
        replay.push(String::from_str(alloc, text)?)?;
    }
    Ok(replay)
}

/// The words of another command, or none.
pub(crate) fn words_of_another_command(rt: &(impl Threads + Sync), alloc: Global) -> Result<()> {
    let replay = words_of_replay(alloc)?;
    is_refused(rt, alloc, replay.as_slice()).context("words of replay")?;
    let no_turns = words(alloc, "0")?;
    is_refused(rt, alloc, no_turns.as_slice()).context("no turns")?;
    is_refused(rt, alloc, &[]).context("no words")
}

/// A wire at which a stranger logs on.
fn wire_with_stranger(alloc: Global) -> Result<MemWire>
    ensures accepted { IfOk result (λ wire. wire.accepted ≡ 0) }
    ensures dialled { IfOk result (λ wire. wire.dialled ≡ 0) }
{
    let mut wire = MemWire::new(alloc);
    let stranger = logon(alloc, "NOBODY")?;
    let c = wire.connect(alloc)?;
    wire.give(alloc, c, stranger.as_slice())?;
    wire.reserve(alloc, ROOM)?;
    Ok(wire)
}

/// Accepted connections, a refused one among them, are awaited to their end.
pub(crate) fn a_refused_connection_counts(rt: &(impl Threads + Sync), alloc: Global) -> Result<()> {
    let mut wire = wire_with_stranger(alloc)?;
    let ran = run(rt, alloc, &mut wire, ONE, "100", ROOM)?;
    ran.ended_as(Status::Ok)?;
    ran.has(&["connection 0 session - taken ", " cause no-such-session\n"])
}

//! Engine and libraries run side by side.

ghost use Rattle.std.specs.Prelude.{◌≡◌, IfOk, length};

use crate::frames::{come, logon, put_frame};
use crate::gates::{HeldGate, SlowGate};
use crate::held_wire::HeldWire;
use crate::served::{MOMENT, Ran, served};
use crate::watched::Watched;
use anyhow::Result;
use gate_io::{MemWire, OpenGate, RealClock, StepClock};
use gateway_run::Status;
use row_text::same;
use std::alloc::Global;
use std::rt;
use std::thread::Threads;

/// Room for what is written to a connection.
const ROOM: usize = 1_048_576;

/// A wire at which BUYER comes and logs on.
fn wire_with_buyer(alloc: Global) -> Result<MemWire>
    ensures accepted { IfOk result (λ wire. wire.accepted ≡ 0) }
    ensures dialled { IfOk result (λ wire. wire.dialled ≡ 0) }
{
    let mut wire = MemWire::new(alloc);
    let logon = logon(alloc, "BUYER")?;
    come(alloc, &mut wire, logon.as_slice())?;
    wire.reserve(alloc, ROOM)?;
    Ok(wire)
}

/// A wire at which nobody comes.
fn wire_alone(alloc: Global) -> Result<MemWire>
    ensures accepted { IfOk result (λ wire. wire.accepted ≡ 0) }
    ensures dialled { IfOk result (λ wire. wire.dialled ≡ 0) }
{
    let mut wire = MemWire::new(alloc);
    wire.reserve(alloc, ROOM)?;
    Ok(wire)
}

fn run_held(
    rt: &(impl rt::Clock + Threads + Copy + Send + Sync),
    alloc: Global,
    watched: &Watched,
) -> Result<Ran> {
    let mut wire = HeldWire::new(wire_with_buyer(alloc)?, *rt, watched, true);
    let gate = HeldGate::new(*rt, watched);
    let script = "session GATE BUYER\nlibraries 2\nconnections 1\nlib 2 request 0 0\nlib 2 answer\n\
        lib 2 send 0 35=8|37=GO|\nlib 2 release 0\nlib 1 beat\n";
    let mut clock = StepClock::new(MOMENT);
    served(
        rt, alloc, script, "10000", &mut wire, &mut clock, &gate, ROOM,
    )
}

/// Library 1 doesn't pass before library 2's order was written, and library 2 not before library 1 has come; the
/// connection gives nothing behind its Logon before that order was written. Whoever runs the engine and the libraries
/// one after another, or by turns, waits in vain.
pub(crate) fn nobody_waits_for_another_to_end(
    rt: &(impl rt::Clock + Threads + Copy + Send + Sync),
    alloc: Global,
) -> Result<()> {
    let watched = Watched::new();
    let ran = run_held(rt, alloc, &watched)?;
    same("failures", &watched.failures(), &0)?;
    ran.ended_as(Status::Ok)?;
    ran.has(&[" send 0 35=8|37=GO|: sent 1 1\n", "cause end\n"])
}

/// What a counterparty sends that logs on and orders.
fn logon_and_order(alloc: Global, them: &str) -> Result<Vec<u8>> {
    let mut bytes = logon(alloc, them)?;
    put_frame(alloc, them, 2, "D", "11=A1\x01", &mut bytes)?;
    Ok(bytes)
}

/// The four come, each of which logs on and orders, to a wire to which nobody came.
fn come_all_four(alloc: Global, wire: &mut MemWire) -> Result<()>
    requires none { length wire.old.links ≡ 0 }
    ensures accepted { wire.new.accepted ≡ wire.old.accepted }
    ensures dialled { wire.new.dialled ≡ wire.old.dialled }
{
    come(alloc, wire, &logon_and_order(alloc, "P0")?)?;
    come(alloc, wire, &logon_and_order(alloc, "P1")?)?;
    come(alloc, wire, &logon_and_order(alloc, "P2")?)?;
    come(alloc, wire, &logon_and_order(alloc, "P3")?)
}

/// A wire at which four come, each of which logs on and orders.
fn wire_with_four(alloc: Global) -> Result<MemWire>
    ensures accepted { IfOk result (λ wire. wire.accepted ≡ 0) }
    ensures dialled { IfOk result (λ wire. wire.dialled ≡ 0) }
{
    let mut wire = MemWire::new(alloc);
    come_all_four(alloc, &mut wire)?;
    wire.reserve(alloc, ROOM)?;
    Ok(wire)
}

/// Four libraries, each with a session of its own.
fn script_of_four(alloc: Global) -> Result<String> {
    let mut script = String::from_str(
        alloc,
        "session GATE P0\nsession GATE P1\nsession GATE P2\nsession GATE P3\nlibraries 4\nconnections 4\n",
    )?;
    for s in 0..4u32 {
        let l = s + 1;
        let lines = format!(in alloc;
            "lib {l} request {s} 0\nlib {l} answer\nlib {l} read 1\nlib {l} send {s} 35=8|37=R{l}|\nlib {l} release {s}\n"
        )?;
        script.push_str(lines.as_str())?;
    }
    Ok(script)
}

fn run_four(rt: &(impl rt::Clock + Threads + Copy + Send + Sync), alloc: Global) -> Result<Ran> {
    let watched = Watched::new();
    let mut wire = HeldWire::new(wire_with_four(alloc)?, *rt, &watched, false);
    let script = script_of_four(alloc)?;
    let gate = SlowGate::new(*rt);
    let mut clock = StepClock::new(MOMENT);
    served(
        rt,
        alloc,
        script.as_str(),
        "10000",
        &mut wire,
        &mut clock,
        &gate,
        ROOM,
    )
}

/// Four libraries, each with a session of its own whose counterparty logs on and sends an order.
pub(crate) fn four_libraries_trade(
    rt: &(impl rt::Clock + Threads + Copy + Send + Sync),
    alloc: Global,
) -> Result<()> {
    let ran = run_four(rt, alloc)?;
    ran.ended_as(Status::Ok)?;
    let counts = [
        (" granted ", 8),
        (" reads 1\n", 4),
        (": sent 1 1\n", 4),
        (": released 1 1\n", 4),
        (" cause end\n", 4),
    ];
    for (text, count) in counts {
        ran.has_often(text, count)?;
    }
    Ok(())
}

/// A library polls for longer than it may be silent, naps, and sends.
fn script_of_a_nap(alloc: Global) -> Result<String> {
    let mut script = String::from_str(
        alloc,
        "session GATE BUYER\nlibraries 1\noption timeout 50\nlib 1 request 0 0\nlib 1 answer\n",
    )?;
    for _ in 0..600u32 {
        script.push_str("lib 1 poll\n")?;
    }
    script.push_str("lib 1 send 0 35=8|37=LATE|\n")?;
    Ok(script)
}

fn run_nap(rt: &(impl rt::Clock + Threads + Copy + Send + Sync), alloc: Global) -> Result<Ran> {
    let watched = Watched::new();
    let mut wire = HeldWire::new(wire_alone(alloc)?, *rt, &watched, false);
    let script = script_of_a_nap(alloc)?;
    let gate = SlowGate::new(*rt);
    let mut clock = RealClock::new(*rt);
    served(
        rt,
        alloc,
        script.as_str(),
        "100000",
        &mut wire,
        &mut clock,
        &gate,
        ROOM,
    )
}

/// A library that shows no sign of life while it naps loses its session, and a send tells it so.
pub(crate) fn a_silent_library_loses_its_session(
    rt: &(impl rt::Clock + Threads + Copy + Send + Sync),
    alloc: Global,
) -> Result<()> {
    let ran = run_nap(rt, alloc)?;
    ran.ended_as(Status::Ok)?;
    ran.has(&[
        " timeout 1 1 0\n",
        " send 0 35=8|37=LATE|: lost 1 1 revoked 0\n",
    ])
}

fn run_long_wait(
    rt: &(impl rt::Clock + Threads + Copy + Send + Sync),
    alloc: Global,
) -> Result<Ran> {
    let watched = Watched::new();
    let mut wire = HeldWire::new(wire_alone(alloc)?, *rt, &watched, false);
    let script =
        "session GATE BUYER\nlibraries 2\nlib 1 beat\nlib 2 beat\nlib 2 read 1\nlib 2 beat\n";
    let gate = OpenGate::new();
    let mut clock = StepClock::new(MOMENT);
    served(rt, alloc, script, "500", &mut wire, &mut clock, &gate, ROOM)
}

/// A plan is given up, and the report is written all the same.
pub(crate) fn a_plan_is_given_up(
    rt: &(impl rt::Clock + Threads + Copy + Send + Sync),
    alloc: Global,
) -> Result<()> {
    let ran = run_long_wait(rt, alloc)?;
    ran.ended_as(Status::TurnsSpent {
        turns: 500,
        library: 2,
    })?;
    ran.has(&["library 2 reads 0\n beat: beaten\nend\n"])
}

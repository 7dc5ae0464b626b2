//! A session goes from one library to another while orders come.

ghost use Rattle.std.specs.Prelude.{◌≡◌, IfOk};

use crate::frames::{come, logon, put_frame};
use crate::gates::SecondGate;
use crate::held_wire::HeldWire;
use crate::served::{MOMENT, Ran, served};
use crate::watched::Watched;
use anyhow::Result;
use gate_io::{MemWire, StepClock};
use gateway_run::Status;
use row_text::same;
use std::alloc::Global;
use std::rt;
use std::thread::Threads;

/// Room for what is written to a connection.
const ROOM: usize = 1_048_576;

/// What each library's plan begins with: library 1 hands the session on behind twenty orders.
const FIRST: &str =
    "session GATE BUYER\nlibraries 2\nconnections 1\nlib 1 request 0 0\nlib 1 answer\nlib 1 read 20\n\
    lib 1 send 0 35=8|37=GO|\nlib 1 hand 0 2\n";

const HEIR: &str =
    "lib 2 request 0 20\nlib 2 answer\nlib 2 read 20\nlib 2 send 0 35=8|37=LAST|\nlib 2 release 0\n";

/// How often library 1 beats behind that.
const BEATS: u32 = 200;

const ORDERS: u32 = 40;

/// A Logon and forty orders.
fn logon_and_orders(alloc: Global) -> Result<Vec<u8>> {
    let mut bytes = logon(alloc, "BUYER")?;
    for order in 0..ORDERS {
        put_frame(alloc, "BUYER", order + 2, "D", "11=A1\x01", &mut bytes)?;
    }
    Ok(bytes)
}

fn script(alloc: Global) -> Result<String> {
    let mut script = String::from_str(alloc, FIRST)?;
    for _ in 0..BEATS {
        script.push_str("lib 1 beat\n")?;
    }
    script.push_str(HEIR)?;
    Ok(script)
}

/// A wire at which the counterparty comes.
fn wire(alloc: Global) -> Result<MemWire>
    ensures accepted { IfOk result (λ wire. wire.accepted ≡ 0) }
    ensures dialled { IfOk result (λ wire. wire.dialled ≡ 0) }
{
    let mut wire = MemWire::new(alloc);
    let bytes = logon_and_orders(alloc)?;
    come(alloc, &mut wire, bytes.as_slice())?;
    wire.reserve(alloc, ROOM)?;
    Ok(wire)
}

fn run(
    rt: &(impl rt::Clock + Threads + Copy + Send + Sync),
    alloc: Global,
    watched: &Watched,
) -> Result<Ran> {
    let mut wire = HeldWire::new(wire(alloc)?, *rt, watched, true);
    let gate = SecondGate::new(*rt, watched);
    let mut clock = StepClock::new(MOMENT);
    let script = script(alloc)?;
    served(
        rt,
        alloc,
        script.as_str(),
        "100000",
        &mut wire,
        &mut clock,
        &gate,
        ROOM,
    )
}

fn is_handed_over(ran: &Ran) -> Result<()> {
    ran.ended_as(Status::Ok)?;
    ran.has(&[
        " hand 1 1 1 2\n",
        "library 1 reads 20\n",
        "library 2 reads 20\n",
        " hand 0 2: handed 1 1\n",
        " poll: message 0 lease 1 pos 19 ",
        " poll: message 0 lease 2 pos 20 ",
        " poll: message 0 lease 2 pos 39 ",
        " holding 1 1 from 0 start ",
    ])
}

/// Library 1 reads twenty orders, reports the last one and hands the session to library 2, which asks for it behind
/// that and reads the others from where library 1 stopped.
pub(crate) fn the_heir_goes_on_where_the_first_stopped(
    rt: &(impl rt::Clock + Threads + Copy + Send + Sync),
    alloc: Global,
) -> Result<()> {
    let watched = Watched::new();
    let ran = run(rt, alloc, &watched)?;
    same("failures", &watched.failures(), &0)?;
    is_handed_over(&ran)
}

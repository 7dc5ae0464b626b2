//! Libraries that sleep beside their bells while they wait.

ghost use Rattle.std.specs.Prelude.{◌≡◌, IfOk, true};

use crate::frames::{come, logon, put_frame};
use crate::held_wire::HeldWire;
use crate::served::{Ran, served};
use crate::watched::Watched;
use anyhow::{Result, bail};
use gate_io::{Gate, Lack, MemWire, RealClock};
use gateway_run::Status;
use std::alloc::Global;
use std::sync::Wait;
use std::thread::Threads;
use std::time::{Duration, Instant};
use std::{rt, thread};
use thread_bells::{BellGate, Bells};

/// Room for what is written to a connection.
const ROOM: usize = 1_048_576;

/// How many orders BUYER sends: more than one read gives.
const ORDERS: u32 = 60;

/// For how many milliseconds library 2 stays away before its first call, and the last orders with it.
const LATE: u64 = 600;

/// A run lasts at most so many seconds, though its turns would be worth more with everyone asleep.
const MOST_SECONDS: u64 = 60;

/// The gate of some bells, at which library 2 comes late, and the wire's last bytes with it. It may not tell the bells how
/// long a library may be silent.
pub struct LateGate<'a, R: Wait + rt::Clock> {
    gate: BellGate<'a, R>,
    rt: &'a R,
    watched: &'a Watched,
    tells_silence: bool,
}

impl<'a, R: Wait + rt::Clock> Drop for LateGate<'a, R> {
    fn drop(self) {
        let LateGate {
            gate: _,
            rt: _,
            watched: _,
            tells_silence: _,
        } = self;
    }
}

impl<'a, R: Wait + rt::Clock> Gate for LateGate<'a, R> {
    ghost open_wide = { λ _. true };

    fn pass(&self, lib: u32, turn: u64) -> bool {
        if lib == 2 && turn == 0 {
            thread::sleep(self.rt, Duration::from_millis(LATE));
            self.watched.tell();
        }
        true
    }

    fn begin(&self, silence: u64) {
        if self.tells_silence {
            self.gate.begin(silence);
        }
    }

    fn acted(&self, lib: u32) {
        self.gate.acted(lib);
    }

    fn wait(&self, lib: u32, lack: Lack) {
        self.gate.wait(lib, lack);
    }

    fn turned(&self, lib: u32, notices: u64) {
        self.gate.turned(lib, notices);
    }

    fn end(&self) {
        self.gate.end();
    }
}

/// BUYER logs on and orders.
fn wire(alloc: Global) -> Result<MemWire>
    ensures accepted { IfOk result (λ wire. wire.accepted ≡ 0) }
    ensures dialled { IfOk result (λ wire. wire.dialled ≡ 0) }
{
    let mut wire = MemWire::new(alloc);
    let mut bytes = logon(alloc, "BUYER")?;
    for order in 0..ORDERS {
        put_frame(alloc, "BUYER", order + 2, "D", "11=A1\x01", &mut bytes)?;
    }
    come(alloc, &mut wire, bytes.as_slice())?;
    wire.reserve(alloc, ROOM)?;
    Ok(wire)
}

/// Library 1 waits for all orders of BUYER, of which the last ones come once library 2 has come.
fn script(alloc: Global, timeout: u64) -> Result<String> {
    Ok(format!(in alloc;
        "session GATE BUYER\nlibraries 2\nconnections 1\noption timeout {timeout}\n\
        lib 1 request 0 0\nlib 1 answer\nlib 1 read {ORDERS}\nlib 1 send 0 35=8|37=LAST|\nlib 1 release 0\n\
        lib 2 beat\n"
    )?)
}

/// Serves that with so many turns, at a gate that tells the bells how long a library may be silent, or not.
fn run(
    rt: &(impl rt::Clock + Threads + Wait + Copy + Send + Sync),
    alloc: Global,
    bells: &Bells,
    timeout: u64,
    turns: &str,
    tells_silence: bool,
) -> Result<Ran> {
    let watched = Watched::new();
    let mut wire = HeldWire::new(wire(alloc)?, *rt, &watched, true);
    let script = script(alloc, timeout)?;
    let gate = LateGate {
        gate: BellGate::new(rt, bells),
        rt,
        watched: &watched,
        tells_silence,
    };
    let mut clock = RealClock::new(*rt);
    served(
        rt,
        alloc,
        script.as_str(),
        turns,
        &mut wire,
        &mut clock,
        &gate,
        ROOM,
    )
}

/// A library that sleeps for longer than it may be silent, but wakes in time to beat, keeps its session.
pub(crate) fn a_library_that_waits_beats_in_time(
    rt: &(impl rt::Clock + Threads + Wait + Copy + Send + Sync),
    alloc: Global,
) -> Result<()> {
    let bells = Bells::new(alloc, 2)?;
    let ran = run(rt, alloc, &bells, 200, "100000", true)?;
    ran.ended_as(Status::Ok)?;
    ran.has_often(" timeout ", 0)?;
    ran.has(&[" reads 60\n", " send 0 35=8|37=LAST|: sent 1 1\n"])
}

/// One that sleeps on loses its session in its sleep. The engine's turns are spent while it waits: it is woken, and gives
/// its plan up.
pub(crate) fn a_library_that_oversleeps_loses_its_session(
    rt: &(impl rt::Clock + Threads + Wait + Copy + Send + Sync),
    alloc: Global,
) -> Result<()> {
    let bells = Bells::new(alloc, 2)?;
    // (it is told of a longer time than the engine goes by)
    bells.begin(3_600_000);
    let begun = Instant::now(rt)?;
    let ran = run(rt, alloc, &bells, 50, "3000", false)?;
    if begun.elapsed(rt)? > Duration::from_secs(MOST_SECONDS) {
        bail!("a library waited for an engine that had ended");
    }
    ran.ended_as(Status::TurnsSpent {
        turns: 3_000,
        library: 0,
    })?;
    ran.has(&[" timeout 1 1 0\n", "library 2 reads 0\n beat: beaten\n"])
}

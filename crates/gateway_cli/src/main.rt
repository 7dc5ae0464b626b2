//! The program `fixgate`: it makes the real objects, calls the top call that its words name, and ends with its
//! status. Its stored run is the drill of seven rounds.
//!
//! Stands on `gateway_run` (the command line and the top calls), `wire_edge` (the wire over TCP), `thread_bells` (the
//! bells by which engine and libraries wake each other, and the gate at which libraries wait), `lease_core` (how many
//! libraries there can be) and `gate_io` (source, sink and clock). Its rules are told in docs/outside.md and
//! docs/promises.md.
#![tactic(auto)]

use gate_io::{FileSource, RealClock, StdSink};
use gateway_run::{Status, end, run, script_to_serve, serve, words_of};
use lease_core::MOST_LIBRARIES;
use std::process::ExitCode;
use thread_bells::{BellGate, Bells};
use wire_edge::NetWire;

fn main(rt: HostRuntime) -> ExitCode {
    let alloc = rt.alloc();
    let words = match words_of(&rt) {
        Ok(words) => words,
        Err(status) => return end(&rt, status),
    };
    let path = match script_to_serve(alloc, words.as_slice()) {
        Ok(Some(path)) => path,
        Ok(None) => return end(&rt, run(&rt, words.as_slice())),
        Err(status) => return end(&rt, status),
    };
    let Ok(bells) = Bells::new(alloc, usize::from(MOST_LIBRARIES)) else {
        return end(&rt, Status::OutOfMemory);
    };
    let mut script = FileSource::new(rt, path);
    let mut wire = NetWire::new(rt, alloc, bells.engine());
    let mut clock = RealClock::new(rt);
    let gate = BellGate::new(&rt, &bells);
    let mut out = StdSink::new(rt);
    let (status, _record) = serve(
        &rt,
        alloc,
        words.as_slice(),
        &mut script,
        &mut wire,
        &mut clock,
        &gate,
        &mut out,
    );
    wire.finish();
    end(&rt, status)
}

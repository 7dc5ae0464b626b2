//! A sink in memory, with scripted failures.

ghost use Rattle.std.specs.Prelude.{◌≡◌, ◌<◌, ◌≤◌, ℕ, List, [], Some, IfOk, length, take};
ghost use Rattle.gate_io.specs.Counts.{HasRisen};
ghost use Rattle.gate_io.specs.Sink.{WroteWithin, TakesFrom};
ghost use Rattle.gate_io.specs.MemSink.{SinkState, sink_takes, sink_after};

use crate::no_memory::NoMemory;
use crate::sinks::{Sink, Wrote};
use std::alloc::Global;
use std::marker::Model;

/// A sink that keeps what it takes in memory. Its room is how many bytes more it takes: a write
/// takes as much of the piece as there is room for. A write fails with no room left, and at the
/// calls that the sink is told.
#[derive(Debug, Drop)]
pub struct MemSink {
    held: Vec<u8>,
    room: usize,
    fails: Vec<u64>,
    calls: u64,
    faults: u64,
}

impl Model for MemSink {
    ghost use Rattle.std.specs.Prelude.{◌≤◌, ◌+◌, vec_len, vec_capacity};
    ghost use Rattle.gate_io.specs.MemSink.{SinkState};

    ghost Value = { SinkState };

    ghost view = { λ s. record { held = s.held.items; room = s.room; fails = s.fails.items; calls = s.calls; faults = s.faults } };

    ghost invariant = { λ s. vec_len s.held + s.room ≤ vec_capacity s.held };
}

impl MemSink {
    /// An empty sink with room for so many bytes in all. `fails` lists the calls, counted from 0,
    /// that fail.
    pub fn new(alloc: Global, room: usize, fails: Vec<u64>) -> Result<MemSink, NoMemory>
        ensures { IfOk result (λ s. s ≡ record { held = []; room = room; fails = fails.items; calls = 0; faults = 0 }) }
    {
        let held = Vec::with_capacity(alloc, room)?;
        Ok(MemSink {
            held,
            room,
            fails,
            calls: 0,
            faults: 0,
        })
    }

    /// What was taken so far.
    pub fn bytes(&self) -> &[u8]
        ensures { result.now ≡ (self.now).held }
    {
        self.held.as_slice()
    }
}

impl Sink for MemSink {
    ghost held = { λ s. Some s.held };

    ghost faults = { λ s. s.faults };

    fn write(&mut self, piece: &[u8]) -> Wrote
        requires { 0 < length piece.now }
        ensures answer { result ≡ sink_takes self.old (length piece.now) }
        ensures after { self.new ≡ sink_after self.old piece.now result }
        ensures within { WroteWithin (length piece.now) result }
        ensures content { TakesFrom (Some (self.old).held) result piece.now (Some (self.new).held) }
        ensures fault_counted { result ≡ Wrote.Failed → HasRisen (self.old).faults (self.new).faults }
        ensures faults_kept { (self.old).faults ≤ (self.new).faults }
    {
        let fails = self.fails.contains(&self.calls);
        self.calls = self.calls.saturating_add(1);
        if fails || self.room == 0 {
            self.faults = self.faults.saturating_add(1);
            return Wrote::Failed;
        }
        let n = piece.len().min(self.room);
        self.held.extend_from_slice(&piece[..n]).unwrap();
        self.room -= n;
        Wrote::Bytes(n)
    }
}

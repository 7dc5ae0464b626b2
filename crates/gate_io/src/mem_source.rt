//! A source in memory, cut as a script says.

ghost use Rattle.std.specs.Prelude.{◌≡◌, ◌<◌, ◌≤◌, ℕ, List, [], Some, length, take, drop};
ghost use Rattle.gate_io.specs.Counts.{HasRisen};
ghost use Rattle.gate_io.specs.Source.{GotWithin, GivesFrom};
ghost use Rattle.gate_io.specs.MemSource.{SourceState, source_gives, source_after};

use crate::sources::{Got, Source};
use std::marker::Model;

/// A source over bytes in memory, which fails at the calls that it is told.
#[derive(Debug, Drop)]
pub struct MemSource {
    bytes: Vec<u8>,
    at: usize,
    fails: Vec<u64>,
    calls: u64,
    faults: u64,
    ends: u64,
}

impl Model for MemSource {
    ghost use Rattle.std.specs.Prelude.{◌≤◌, drop, length};
    ghost use Rattle.gate_io.specs.MemSource.{SourceState};

    ghost Value = { SourceState };

    ghost view = { λ s. record { left = drop s.at s.bytes.items; fails = s.fails.items; calls = s.calls; faults = s.faults; ends = s.ends } };

    ghost invariant = { λ s. s.at ≤ length s.bytes.items };
}

impl MemSource {
    /// A source of these bytes. `fails` lists the calls, counted from 0, that fail.
    pub fn new(bytes: Vec<u8>, fails: Vec<u64>) -> MemSource
        ensures { result ≡ record { left = bytes.items; fails = fails.items; calls = 0; faults = 0; ends = 0 } }
    {
        MemSource {
            bytes,
            at: 0,
            fails,
            calls: 0,
            faults: 0,
            ends: 0,
        }
    }
}

impl Source for MemSource {
    ghost left = { λ s. Some s.left };

    ghost faults = { λ s. s.faults };

    ghost ends = { λ s. s.ends };

    fn read(&mut self, buf: &mut [u8]) -> Got
        requires { 0 < length buf.old }
        ensures answer { result ≡ source_gives self.old (length buf.old) }
        ensures after { self.new ≡ source_after self.old result }
        ensures within { GotWithin (length buf.old) result }
        ensures content { GivesFrom (Some (self.old).left) result buf.new (Some (self.new).left) }
        ensures end_counted { result ≡ Got.End → HasRisen (self.old).ends (self.new).ends }
        ensures fault_counted { result ≡ Got.Failed → HasRisen (self.old).faults (self.new).faults }
        ensures ends_kept { (self.old).ends ≤ (self.new).ends }
        ensures faults_kept { (self.old).faults ≤ (self.new).faults }
    {
        let fails = self.fails.contains(&self.calls);
        self.calls = self.calls.saturating_add(1);
        if fails {
            self.faults = self.faults.saturating_add(1);
            return Got::Failed;
        }
        let n = buf.len().min(self.bytes.len() - self.at);
        if n == 0 {
            self.ends = self.ends.saturating_add(1);
            return Got::End;
        }
        buf[..n].copy_from_slice(&self.bytes[self.at..self.at + n]);
        self.at += n;
        Got::Bytes(n)
    }
}

//! One connection of the wire in memory: what it brings, what it took, and its scripted failures.

ghost use Rattle.std.specs.Prelude.{◌≡◌, ◌<◌, ◌≤◌, ℕ, None, Some, true, false, length, take, OnOk, OnErr};
ghost use Rattle.gate_io.specs.MemWire.{LinkState, new_link, link_given, link_reserved, without_room, link_gives, link_after_read, link_plan_of, link_takes, link_after_write, shown};
ghost use Rattle.gate_io.specs.Plan.{planned_count};
ghost use Rattle.gate_io.specs.Wire.{LinkGoesOn, ReadsAsPlanned, WritesAsPlanned};

use crate::no_memory::NoMemory;
use crate::places::Place;
use crate::wires::{WireGot, WireWrote};
use std::alloc::Global;
use std::marker::Model;

/// A connection in memory: what a counterparty sends, what it was sent, and which calls fail or are
/// blocked.
#[derive(Debug, Drop)]
pub struct MemLink {
    input: Vec<u8>,
    at: usize,
    finished: bool,
    read_fails: bool,
    written: Vec<u8>,
    room: usize,
    fails: Place,
    blocks: Place,
    closed: bool,
    read_faults: u64,
    read_blocks: u64,
    ends: u64,
    write_faults: u64,
    write_blocks: u64,
}

impl Model for MemLink {
    ghost use Rattle.std.specs.Prelude.{◌≤◌, ◌+◌, drop, length, vec_len, vec_capacity};
    ghost use Rattle.gate_io.specs.MemWire.{LinkState};

    ghost Value = { LinkState };

    ghost view = { λ l. record { left = drop l.at l.input.items; finished = l.finished; read_fails = l.read_fails; written = l.written.items; room = l.room; fails_after = l.fails; blocks_after = l.blocks; closed = l.closed; read_faults = l.read_faults; read_blocks = l.read_blocks; ends = l.ends; write_faults = l.write_faults; write_blocks = l.write_blocks } };

    ghost invariant = { λ l. (l.at ≤ length l.input.items) × (vec_len l.written + l.room ≤ vec_capacity l.written) };
}

impl MemLink {
    pub fn new(alloc: Global) -> MemLink
        ensures { result ≡ new_link }
    {
        MemLink {
            input: Vec::new(alloc),
            at: 0,
            finished: false,
            read_fails: false,
            written: Vec::new(alloc),
            room: 0,
            fails: Place::nowhere(),
            blocks: Place::nowhere(),
            closed: false,
            read_faults: 0,
            read_blocks: 0,
            ends: 0,
            write_faults: 0,
            write_blocks: 0,
        }
    }

    /// Puts bytes behind what can be read, unless the input is finished or the connection closed.
    pub fn give(&mut self, bytes: &[u8]) -> Result<(), NoMemory>
        ensures ok { OnOk result (self.new ≡ link_given self.old bytes.now) }
        ensures err { OnErr result (self.new ≡ self.old) }
    {
        if self.finished || self.closed {
            return Ok(());
        }
        self.input.extend_from_slice(bytes)?;
        Ok(())
    }

    pub fn finish(&mut self)
        ensures { self.new ≡ record self.old { finished = true } }
    {
        self.finished = true;
    }

    pub fn fail_read(&mut self)
        ensures { self.new ≡ record self.old { read_fails = true } }
    {
        self.read_fails = true;
    }

    pub fn fail_write(&mut self, after: u64)
        ensures { self.new ≡ record self.old { fails_after = Some after } }
    {
        self.fails = Place::behind(after);
    }

    pub fn block(&mut self, after: u64)
        ensures { self.new ≡ record self.old { blocks_after = Some after } }
    {
        self.blocks = Place::behind(after);
    }

    pub fn unblock(&mut self)
        ensures { self.new ≡ record self.old { blocks_after = None } }
    {
        self.blocks = Place::nowhere();
    }

    pub fn close(&mut self)
        ensures { self.new ≡ record self.old { closed = true } }
    {
        self.closed = true;
    }

    /// Room for at least so many more written bytes, unless the connection is closed.
    pub fn reserve(&mut self, n: usize) -> Result<(), NoMemory>
        ensures ok { OnOk result (self.new ≡ link_reserved n self.old) }
        ensures err { OnErr result (self.new ≡ self.old) }
        ensures kept { without_room self.new ≡ without_room self.old }
    {
        if !self.closed {
            self.written.reserve(n)?;
            self.room = self.room.max(n);
        }
        Ok(())
    }

    pub fn read(&mut self, buf: &mut [u8]) -> WireGot
        requires { 0 < length buf.old }
        ensures answer { result ≡ link_gives self.old (length buf.old) }
        ensures after { self.new ≡ link_after_read self.old result }
        ensures goes_on { LinkGoesOn (shown self.old) (shown self.new) }
        ensures planned { ReadsAsPlanned (shown self.old) (length buf.old) result (shown self.new) }
        ensures front { (n : ℕ) → result ≡ WireGot.Bytes n → take n buf.new ≡ take n (self.old).left }
    {
        if self.read_fails {
            self.read_fails = false;
            self.read_faults = self.read_faults.saturating_add(1);
            return WireGot::Failed;
        }
        let n = buf.len().min(self.input.len() - self.at);
        if n > 0 {
            buf[..n].copy_from_slice(&self.input[self.at..self.at + n]);
            self.at += n;
            return WireGot::Bytes(n);
        }
        if self.finished {
            self.ends = self.ends.saturating_add(1);
            WireGot::End
        } else {
            self.read_blocks = self.read_blocks.saturating_add(1);
            WireGot::Blocked
        }
    }

    pub fn write(&mut self, piece: &[u8]) -> WireWrote
        requires { 0 < length piece.now }
        ensures answer { result ≡ link_takes self.old (length piece.now) }
        ensures after { self.new ≡ link_after_write self.old piece.now result }
        ensures goes_on { LinkGoesOn (shown self.old) (shown self.new) }
        ensures planned { WritesAsPlanned (shown self.old) (length piece.now) result (shown self.new) }
        ensures some { (n : ℕ) → result ≡ WireWrote.Bytes n → (0 < n) × (n ≤ length piece.now) }
    {
        if self.fails.is_reached() || self.room == 0 {
            self.fails.meet();
            self.write_faults = self.write_faults.saturating_add(1);
            return WireWrote::Failed;
        }
        if self.blocks.is_reached() {
            self.write_blocks = self.write_blocks.saturating_add(1);
            return WireWrote::Blocked;
        }
        let n = self.written_count(piece.len());
        self.written.extend_from_slice(&piece[..n]).unwrap();
        self.room -= n;
        self.fails.pass(n);
        self.blocks.pass(n);
        WireWrote::Bytes(n)
    }

    /// How many of so many bytes are written: those before both places, as far as there is room.
    fn written_count(&self, len: usize) -> usize
        ensures { result ≡ planned_count (link_plan_of self.now) len }
    {
        self.fails
            .count_before(self.blocks.count_before(len))
            .min(self.room)
    }
}

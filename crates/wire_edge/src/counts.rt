//! How often a call of a connection failed, was blocked or found the end.

ghost use Rattle.std.specs.Prelude.{◌≡◌, true};
ghost use Rattle.gate_io.specs.Wire.{LinkGoesOn};
ghost use Rattle.wire_edge.specs.NetWire.{new_link, link_after_read, link_after_write, shown};

use gate_io::{WireGot, WireWrote};
use std::marker::Model;

/// Whether a connection is closed, and how often each answer of it but bytes came, counted up to
/// 2^64 - 1.
#[derive(Drop)]
pub struct LinkCounts {
    closed: bool,
    read_faults: u64,
    read_blocks: u64,
    ends: u64,
    write_faults: u64,
    write_blocks: u64,
}

impl Model for LinkCounts {
    ghost use Rattle.wire_edge.specs.NetWire.{NetLink};

    ghost Value = { NetLink };

    ghost view = { λ l. record { closed = l.closed; read_faults = l.read_faults; read_blocks = l.read_blocks; ends = l.ends; write_faults = l.write_faults; write_blocks = l.write_blocks } };
}

impl LinkCounts {
    pub fn new() -> LinkCounts
        ensures { result ≡ new_link }
    {
        LinkCounts {
            closed: false,
            read_faults: 0,
            read_blocks: 0,
            ends: 0,
            write_faults: 0,
            write_blocks: 0,
        }
    }

    /// Counts what a read gave, unless that is bytes.
    pub fn read(&mut self, got: WireGot)
        ensures after { self.new ≡ link_after_read self.old got }
        ensures goes_on { LinkGoesOn (shown self.old) (shown self.new) }
    {
        match got {
            WireGot::Bytes(_) => {}
            WireGot::End => self.ends = self.ends.saturating_add(1),
            WireGot::Blocked => self.read_blocks = self.read_blocks.saturating_add(1),
            WireGot::Failed => self.read_faults = self.read_faults.saturating_add(1),
        }
    }

    /// Counts what a write came to, unless it took bytes.
    pub fn write(&mut self, wrote: WireWrote)
        ensures after { self.new ≡ link_after_write self.old wrote }
        ensures goes_on { LinkGoesOn (shown self.old) (shown self.new) }
    {
        match wrote {
            WireWrote::Bytes(_) => {}
            WireWrote::Blocked => self.write_blocks = self.write_blocks.saturating_add(1),
            WireWrote::Failed => self.write_faults = self.write_faults.saturating_add(1),
        }
    }

    pub fn close(&mut self)
        ensures { self.new ≡ record self.old { closed = true } }
    {
        self.closed = true;
    }
}

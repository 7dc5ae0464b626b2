//! A wire of which one read, write, accept or dial fails.

ghost use Rattle.std.specs.Prelude.{◌≡◌, ◌==◌, ◌+◌, None, ℕ, false, if◌then◌else◌, true};
ghost use Rattle.gate_io.specs.MemWire.{door_of, link_at};
ghost use Rattle.gate_io.specs.Wire.{Link};

use gate_io::{Accepted, Dial, Dialled, Listened, MemWire, Wire, WireGot, WireWrote};

/// How many bytes a read gives at most, and a write takes.
const MOST_READ: usize = 48;

const MOST_WRITTEN: usize = 64;

/// What fails, or nothing where each write takes one byte.
#[derive(Clone, Copy, Debug, PartialEq, Eq)]
pub(crate) enum Fault {
    Read,
    Write,
    Accept,
    Dial,
    OneByte,
}

impl Fault {
    /// All of them.
    pub(crate) const ALL: [Fault; 5] = [
        Fault::Read,
        Fault::Write,
        Fault::Accept,
        Fault::Dial,
        Fault::OneByte,
    ];
}

/// A wire round one in memory. It tells nothing of bytes.
pub(crate) struct FaultyWire {
    wire: MemWire,
    fault: Fault,
    /// How many of them come before the one that fails.
    before: u64,
    /// How many failed, none or one, and the connection of the one that did.
    reads: u64,
    writes: u64,
    accepts: u64,
    dials: u64,
    connection: u32,
}

impl Drop for FaultyWire {
    fn drop(self) {
        let FaultyWire {
            wire: _,
            fault: _,
            before: _,
            reads: _,
            writes: _,
            accepts: _,
            dials: _,
            connection: _,
        } = self;
    }
}

impl FaultyWire {
    /// A wire round this one, of which so many succeed before one fails.
    pub(crate) fn new(wire: MemWire, fault: Fault, before: u64) -> FaultyWire
        ensures wire { result.wire ≡ wire }
    {
        FaultyWire {
            wire,
            fault,
            before,
            reads: 0,
            writes: 0,
            accepts: 0,
            dials: 0,
            connection: 0,
        }
    }

    /// Whether the fault came.
    pub(crate) fn has_failed(&self) -> bool
        ensures none { result ≡ false → (self.now.reads ≡ 0) × ((self.now.writes ≡ 0) × ((self.now.accepts ≡ 0) × (self.now.dials ≡ 0))) }
    {
        self.reads != 0 || self.writes != 0 || self.accepts != 0 || self.dials != 0
    }

    /// The connection of which a read or a write failed.
    pub(crate) fn connection(&self) -> Option<u32> {
        if self.reads != 0 || self.writes != 0 {
            Some(self.connection)
        } else {
            None
        }
    }

    /// Whether this one fails. It counts those that come before.
    fn fails(&mut self, fault: Fault) -> bool
        ensures rest { self.new ≡ record self.old { before = self.new.before } }
        ensures none { result ≡ true → (self.new.reads ≡ 0) × ((self.new.writes ≡ 0) × ((self.new.accepts ≡ 0) × (self.new.dials ≡ 0))) }
    {
        if self.has_failed() || self.fault != fault {
            return false;
        }
        if self.before == 0 {
            return true;
        }
        self.before -= 1;
        false
    }
}

impl Wire for FaultyWire {
    ghost link = { λ w c. record (link_at w.wire c) {
      left = None;
      written = None;
      plan = None;
      read_faults = (link_at w.wire c).read_faults + (if c == w.connection then w.reads else 0);
      write_faults = (link_at w.wire c).write_faults + (if c == w.connection then w.writes else 0);
    } };

    ghost door = { λ w. record (door_of w.wire) {
      plan = None;
      accept_faults = (door_of w.wire).accept_faults + w.accepts;
      dial_faults = (door_of w.wire).dial_faults + w.dials;
    } };

    fn listen(&mut self, address: &str) -> Listened {
        self.wire.listen(address)
    }

    fn accept(&mut self) -> Accepted {
        if self.fails(Fault::Accept) {
            self.accepts = 1;
            return Accepted::Failed;
        }
        self.wire.accept()
    }

    fn read(&mut self, c: u32, buf: &mut [u8]) -> WireGot {
        if self.fails(Fault::Read) {
            self.reads = 1;
            self.connection = c;
            return WireGot::Failed;
        }
        let most = buf.len().min(MOST_READ);
        self.wire.read(c, &mut buf[..most])
    }

    fn write(&mut self, c: u32, piece: &[u8]) -> WireWrote {
        if self.fails(Fault::Write) {
            self.writes = 1;
            self.connection = c;
            return WireWrote::Failed;
        }
        let most = match self.fault {
            Fault::OneByte => 1,
            _ => piece.len().min(MOST_WRITTEN),
        };
        self.wire.write(c, &piece[..most])
    }

    fn close(&mut self, c: u32) {
        self.wire.close(c);
    }

    fn pause(&mut self, ms: u32) {
        self.wire.pause(ms);
    }
}

impl Dial for FaultyWire {
    fn dial(&mut self, address: &str) -> Dialled {
        if self.fails(Fault::Dial) {
            self.dials = 1;
            return Dialled::Failed;
        }
        self.wire.dial(address)
    }
}

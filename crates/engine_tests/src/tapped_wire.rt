//! A memory wire of which a test can tell what was asked of it and written to it.

ghost use Rattle.std.specs.Prelude.{◌≡◌, length, IsTrue, OnOk};
ghost use Rattle.gate_io.specs.MemWire.{IsMade, door_of, link_at, new_wire};
ghost use Rattle.wire_desk.specs.Lines.{StaysKnown};

use gate_io::{
    Accepted, Dial, Dialled, FIRST_DIALLED, Listened, MOST_CONNECTIONS, MOST_DIALLED, MemWire,
    NoMemory, Wire, WireGot, WireWrote,
};
use std::alloc::Global;

/// The room that each turn finds for written bytes.
const ROOM: usize = 1_048_576;

/// A wire in memory, and what it was asked for.
#[derive(Drop)]
pub(crate) struct TappedWire {
    wire: MemWire,
    /// How many connections were made that come of themselves, and how many that answer a dial.
    coming: u32,
    answering: u32,
    told: Told,
    ghost coming_is: { length wire.links ≡ coming },
    ghost answering_is: { length wire.taken ≡ answering },
}

/// What a wire was asked for.
#[derive(Drop)]
struct Told {
    /// The bytes that were written and not looked at yet, each with its connection's number.
    written: Vec<(u32, u8)>,
    /// The connections that were closed, in order.
    closed: Vec<u32>,
    /// How often a connection was asked for, and how often one was dialled.
    accepts: u32,
    dials: u32,
    /// The address that was dialled last.
    address: Vec<u8>,
    /// Memory was wanting for what stands here.
    lost: bool,
}

impl Told {
    fn new(alloc: Global) -> Told {
        Told {
            written: Vec::new(alloc),
            closed: Vec::new(alloc),
            accepts: 0,
            dials: 0,
            address: Vec::new(alloc),
            lost: false,
        }
    }

    fn write(&mut self, c: u32, bytes: &[u8]) {
        for byte in bytes {
            self.lost = self.lost || self.written.push((c, *byte)).is_err();
        }
    }

    fn close(&mut self, c: u32) {
        self.lost = self.lost || self.closed.push(c).is_err();
    }

    fn dial(&mut self, address: &str) {
        self.dials = self.dials.saturating_add(1);
        self.address.clear();
        self.lost = self.lost || self.address.extend_from_slice(address.as_bytes()).is_err();
    }
}

impl TappedWire {
    /// A wire without connections.
    pub(crate) fn new(alloc: Global) -> TappedWire
        ensures { result.wire ≡ new_wire }
    {
        TappedWire {
            wire: MemWire::new(alloc),
            coming: 0,
            answering: 0,
            told: Told::new(alloc),
        }
    }

    /// One more connection comes, if there are fewer than can be.
    pub(crate) fn connect(&mut self, alloc: Global) -> Result<bool, NoMemory>
        ensures { OnOk result (StaysKnown self.old.wire self.new.wire) }
    {
        if self.coming >= MOST_CONNECTIONS {
            return Ok(false);
        }
        self.wire.connect(alloc)?;
        self.coming += 1;
        Ok(true)
    }

    /// One more dial succeeds, if there are fewer than can be.
    pub(crate) fn take(&mut self, alloc: Global) -> Result<bool, NoMemory>
        ensures { OnOk result (StaysKnown self.old.wire self.new.wire) }
    {
        if self.answering >= MOST_DIALLED {
            return Ok(false);
        }
        self.wire.take(alloc)?;
        self.answering += 1;
        Ok(true)
    }

    /// Whether this connection was made.
    fn is_made(&self, c: u32) -> bool
        ensures { IsTrue result → IsMade self.now.wire c }
    {
        if c < FIRST_DIALLED {
            c < self.coming
        } else {
            c - FIRST_DIALLED < self.answering
        }
    }

    /// Bytes come on a connection, if it was made.
    pub(crate) fn give(&mut self, alloc: Global, c: u32, bytes: &[u8]) -> Result<bool, NoMemory>
        ensures { OnOk result (StaysKnown self.old.wire self.new.wire) }
    {
        let is_made = self.is_made(c);
        if is_made {
            self.wire.give(alloc, c, bytes)?;
        }
        Ok(is_made)
    }

    /// The input of a connection ends, if it was made.
    pub(crate) fn finish(&mut self, c: u32) -> bool
        ensures { StaysKnown self.old.wire self.new.wire }
    {
        let is_made = self.is_made(c);
        if is_made {
            self.wire.finish(c);
        }
        is_made
    }

    /// The next read of a connection fails, if it was made.
    pub(crate) fn fail_read(&mut self, c: u32) -> bool
        ensures { StaysKnown self.old.wire self.new.wire }
    {
        let is_made = self.is_made(c);
        if is_made {
            self.wire.fail_read(c);
        }
        is_made
    }

    /// A connection takes so many more bytes before a write fails, if it was made.
    pub(crate) fn fail_write(&mut self, c: u32, after: u64) -> bool
        ensures { StaysKnown self.old.wire self.new.wire }
    {
        let is_made = self.is_made(c);
        if is_made {
            self.wire.fail_write(c, after);
        }
        is_made
    }

    /// A connection takes so many more bytes before writes are blocked, if it was made.
    pub(crate) fn block(&mut self, c: u32, after: u64) -> bool
        ensures { StaysKnown self.old.wire self.new.wire }
    {
        let is_made = self.is_made(c);
        if is_made {
            self.wire.block(c, after);
        }
        is_made
    }

    /// Ends the block of a connection, if it was made.
    pub(crate) fn unblock(&mut self, c: u32) -> bool
        ensures { StaysKnown self.old.wire self.new.wire }
    {
        let is_made = self.is_made(c);
        if is_made {
            self.wire.unblock(c);
        }
        is_made
    }

    /// The next accept fails.
    pub(crate) fn fail_accept(&mut self)
        ensures { StaysKnown self.old.wire self.new.wire }
    {
        self.wire.fail_accept();
    }

    /// Room for what a turn writes.
    pub(crate) fn reserve(&mut self, alloc: Global) -> Result<(), NoMemory>
        ensures { OnOk result (StaysKnown self.old.wire self.new.wire) }
    {
        self.wire.reserve(alloc, ROOM)
    }

    /// The bytes that were written to a connection since the last call for it.
    pub(crate) fn written(&mut self, alloc: Global, c: u32) -> Result<Vec<u8>, NoMemory>
        ensures { self.new.wire ≡ self.old.wire }
    {
        let mut bytes = Vec::new(alloc);
        for (number, byte) in self.told.written.as_slice() {
            if *number == c {
                bytes.push(*byte)?;
            }
        }
        self.told.written.retain(|piece| piece.0 != c);
        Ok(bytes)
    }

    /// The connections that were closed, in order.
    pub(crate) fn closed(&self) -> &[u32] {
        self.told.closed.as_slice()
    }

    /// The address that was dialled last.
    pub(crate) fn address(&self) -> &[u8] {
        self.told.address.as_slice()
    }

    /// How often a connection was asked for, and how often one was dialled.
    pub(crate) fn asked(&self) -> (u32, u32) {
        (self.told.accepts, self.told.dials)
    }

    /// Memory was wanting for what was written or closed.
    pub(crate) fn has_lost(&self) -> bool {
        self.told.lost
    }
}

impl Wire for TappedWire {
    ghost link = { λ w. link_at w.wire };

    ghost door = { λ w. door_of w.wire };

    fn listen(&mut self, address: &str) -> Listened {
        self.wire.listen(address)
    }

    fn accept(&mut self) -> Accepted {
        self.told.accepts = self.told.accepts.saturating_add(1);
        self.wire.accept()
    }

    fn read(&mut self, c: u32, buf: &mut [u8]) -> WireGot {
        self.wire.read(c, buf)
    }

    fn write(&mut self, c: u32, piece: &[u8]) -> WireWrote {
        let answer = self.wire.write(c, piece);
        if let WireWrote::Bytes(n) = answer {
            self.told.write(c, &piece[..n]);
        }
        answer
    }

    fn close(&mut self, c: u32) {
        self.told.close(c);
        self.wire.close(c);
    }

    fn pause(&mut self, ms: u32) {
        self.wire.pause(ms);
    }
}

impl Dial for TappedWire {
    fn dial(&mut self, address: &str) -> Dialled {
        self.told.dial(address);
        self.wire.dial(address)
    }
}

//! A wire in memory with an open connection, which is told what to do and asked for its answers.

ghost use Rattle.gate_io.specs.MemWire.{IsMade, door_of, link_at};
ghost use Rattle.gate_io.specs.Wire.{IsOpen};

use gate_io::{
    Accepted, Dial, Dialled, FIRST_DIALLED, MemWire, NoMemory, Wire, WireGot, WireWrote,
};
use std::alloc::Global;

/// What is done with a connection, and the answer that it must give.
#[derive(Clone, Copy, Debug)]
pub enum Step {
    Reserve(usize),
    Give(&'static str),
    Finish,
    FailRead,
    FailWrite(u64),
    Block(u64),
    Unblock,
    Read(WireGot),
    Write(&'static str, WireWrote),
}

/// A wire whose connection `c` is open.
#[derive(Drop)]
pub struct OpenWire {
    wire: MemWire,
    c: u32,
    ghost made: { IsMade wire c },
    ghost open_still: { IsOpen (door_of wire) (link_at wire) c },
}

impl OpenWire {
    /// A wire with one connection, that was accepted.
    pub fn accepted(alloc: Global) -> Result<Option<OpenWire>, NoMemory> {
        let mut wire = MemWire::new(alloc);
        let c = wire.connect(alloc)?;
        match wire.accept() {
            Accepted::New(_) => Ok(Some(OpenWire { wire, c })),
            _ => Ok(None),
        }
    }

    /// A wire with one connection, that was dialled.
    pub fn dialled(alloc: Global) -> Result<Option<OpenWire>, NoMemory> {
        let mut wire = MemWire::new(alloc);
        wire.take(alloc)?;
        match wire.dial("hub:1") {
            Dialled::New(_) => Ok(Some(OpenWire {
                wire,
                c: FIRST_DIALLED,
            })),
            Dialled::Failed => Ok(None),
        }
    }

    /// Whether the step can be made and the answer is as it must be.
    pub fn keeps_to(&mut self, alloc: Global, step: Step) -> Result<bool, NoMemory> {
        match step {
            Step::Read(answer) => return Ok(self.reads() == answer),
            Step::Write(piece, answer) => return Ok(self.writes(piece.as_bytes()) == Some(answer)),
            Step::Reserve(n) => self.wire.reserve(alloc, n)?,
            Step::Give(bytes) => self.wire.give(alloc, self.c, bytes.as_bytes())?,
            Step::Finish => self.wire.finish(self.c),
            Step::FailRead => self.wire.fail_read(self.c),
            Step::FailWrite(after) => self.wire.fail_write(self.c, after),
            Step::Block(after) => self.wire.block(self.c, after),
            Step::Unblock => self.wire.unblock(self.c),
        }
        Ok(true)
    }

    fn reads(&mut self) -> WireGot {
        let mut buf = [0u8; 4];
        self.wire.read(self.c, &mut buf)
    }

    fn writes(&mut self, piece: &[u8]) -> Option<WireWrote> {
        if piece.is_empty() {
            return None;
        }
        Some(self.wire.write(self.c, piece))
    }
}

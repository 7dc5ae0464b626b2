//! A wire in memory that waits where it is told to pause, and whose first connection gives nothing behind its first
//! bytes until a text was written.

ghost use Rattle.std.specs.Prelude.{◌≡◌, ◌==◌, None, ℕ, if◌then◌else◌};
ghost use Rattle.gate_io.specs.MemWire.{door_of, link_at, new_wire};
ghost use Rattle.gate_io.specs.Wire.{Link};

use crate::watched::Watched;
use gate_io::{Accepted, Dial, Dialled, Listened, MemWire, Wire, WireGot, WireWrote};
use std::time::Duration;
use std::{rt, thread};

/// For how many milliseconds it waits at most where it is told to pause.
const NAP: u32 = 1;

/// The text that it waits for.
const GO: &[u8] = b"37=GO";

/// A wire round one in memory. It tells nothing of bytes.
pub struct HeldWire<'a, R: rt::Clock> {
    wire: MemWire,
    rt: R,
    watched: &'a Watched,
    /// Whether connection 0 holds its bytes back behind the first ones.
    holds: bool,
    begun: bool,
    /// How often a read of connection 0 was blocked.
    blocks: u64,
}

impl<'a, R: rt::Clock + Drop> Drop for HeldWire<'a, R> {
    fn drop(self) {
        let HeldWire {
            wire: _,
            rt: _,
            watched: _,
            holds: _,
            begun: _,
            blocks: _,
        } = self;
    }
}

impl<'a, R: rt::Clock> HeldWire<'a, R> {
    /// A wire round this one, of which connection 0 holds back, or not.
    pub fn new(wire: MemWire, rt: R, watched: &'a Watched, holds: bool) -> HeldWire<'a, R>
        ensures { result.wire ≡ wire }
    {
        HeldWire {
            wire,
            rt,
            watched,
            holds,
            begun: false,
            blocks: 0,
        }
    }

    /// Whether connection 0 holds back now.
    fn is_held(&self) -> bool {
        self.holds && self.begun && !self.watched.is_told()
    }
}

/// Whether the text stands in a piece.
fn has_go(piece: &[u8]) -> bool {
    for at in 0..piece.len() {
        if piece[at..].starts_with(GO) {
            return true;
        }
    }
    false
}

impl<'a, R: rt::Clock> Wire for HeldWire<'a, R> {
    ghost link = { λ w c. if c == 0 then record (link_at w.wire c) { left = None; written = None; plan = None; read_blocks = w.blocks } else record (link_at w.wire c) { left = None; written = None; plan = None } };

    ghost door = { λ w. record (door_of w.wire) { plan = None } };

    fn listen(&mut self, address: &str) -> Listened {
        self.wire.listen(address)
    }

    fn accept(&mut self) -> Accepted {
        self.wire.accept()
    }

    fn read(&mut self, c: u32, buf: &mut [u8]) -> WireGot {
        if c == 0 {
            if self.is_held() {
                self.blocks = self.blocks.saturating_add(1);
                return WireGot::Blocked;
            }
            self.begun = true;
            let got = self.wire.read(c, buf);
            if let WireGot::Blocked = got {
                self.blocks = self.blocks.saturating_add(1);
            }
            return got;
        }
        self.wire.read(c, buf)
    }

    fn write(&mut self, c: u32, piece: &[u8]) -> WireWrote {
        if has_go(piece) {
            self.watched.tell();
        }
        self.wire.write(c, piece)
    }

    fn close(&mut self, c: u32) {
        self.wire.close(c);
    }

    fn pause(&mut self, ms: u32) {
        thread::sleep(&self.rt, Duration::from_millis(u64::from(ms.min(NAP))));
        self.wire.pause(ms);
    }
}

impl<'a, R: rt::Clock> Dial for HeldWire<'a, R> {
    fn dial(&mut self, address: &str) -> Dialled {
        self.wire.dial(address)
    }
}

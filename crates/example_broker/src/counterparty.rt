//! A counterparty for a run without a network: a wire in memory whose one connection logs on, orders, and logs out once
//! each order has its fill.

ghost use Rattle.std.specs.Prelude.{◌≡◌, ◌==◌, IfOk, None, ℕ, if◌then◌else◌};
ghost use Rattle.gate_io.specs.MemWire.{door_of, link_at};

use crate::floor::{Floor, SHIFT};
use fix_frame::{is_body, write_frame};
use gate_io::{Accepted, Dial, Dialled, Listened, MemWire, NoMemory, Wire, WireGot, WireWrote};
use std::alloc::Global;
use std::sync::Wait;
use std::time::Duration;

/// How many orders it sends: some of them behind the first hand-over.
pub(crate) const ORDERS: u64 = 1_200;

/// Room for what is written to it.
const ROOM: usize = 1_048_576;

/// Where a report says its type.
const REPORT: &[u8] = b"\x0135=8\x01";

/// What it has to say, and how far it is.
#[derive(Drop)]
pub struct Speech {
    bytes: usize,
    /// How many bytes it says before the first hand-over, and how many before each order has its fill.
    before_move: usize,
    before_fills: usize,
    said: usize,
    /// How many reports came, and how much of the next one's beginning.
    reports: u64,
    begun: usize,
}

impl Speech {
    /// How many bytes it says now.
    fn room(&self, floor: &Floor) -> usize {
        let until = if !has_moved(floor) {
            self.before_move
        } else if self.reports < ORDERS {
            self.before_fills
        } else {
            self.bytes
        };
        until.saturating_sub(self.said)
    }

    /// Hears bytes that were written to it.
    fn hear(&mut self, piece: &[u8]) {
        for byte in piece {
            self.hear_one(*byte);
        }
    }

    fn hear_one(&mut self, byte: u8) {
        if self.begun < REPORT.len() && byte == REPORT[self.begun] {
            self.begun += 1;
        } else {
            self.begun = usize::from(byte == REPORT[0]);
        }
        if self.begun == REPORT.len() {
            self.reports = self.reports.saturating_add(1);
            self.begun = 1;
        }
    }
}

fn has_moved(floor: &Floor) -> bool {
    floor.place(0).moves() > 0
}

/// The wire with the counterparty.
#[derive(Drop)]
pub struct SpokenWire<'a, R: Wait> {
    wire: MemWire,
    rt: R,
    floor: &'a Floor,
    speech: Speech,
    /// How often a read of the connection was blocked.
    blocks: u64,
}

impl<'a, R: Wait + Drop> SpokenWire<'a, R> {
    /// A wire of which the counterparty's connection waits to be accepted.
    pub(crate) fn new(alloc: Global, rt: R, floor: &'a Floor) -> Result<SpokenWire<'a, R>, NoMemory>
        ensures accepted { IfOk result (λ w. w.wire.accepted ≡ 0) }
        ensures dialled { IfOk result (λ w. w.wire.dialled ≡ 0) }
    {
        let mut text = message(alloc, "A", 1, "98=0\x01108=0\x01")?;
        put_orders(alloc, &mut text, 0, SHIFT)?;
        let before_move = text.len();
        put_orders(alloc, &mut text, SHIFT, ORDERS)?;
        let before_fills = text.len();
        let mut logout = message(alloc, "5", ORDERS + 2, "")?;
        text.append(&mut logout)?;
        let mut wire = MemWire::new(alloc);
        let c = wire.connect(alloc)?;
        wire.give(alloc, c, text.as_slice())?;
        wire.finish(c);
        wire.reserve(alloc, ROOM)?;
        Ok(SpokenWire {
            wire,
            rt,
            floor,
            speech: Speech {
                bytes: text.len(),
                before_move,
                before_fills,
                said: 0,
                reports: 0,
                begun: 0,
            },
            blocks: 0,
        })
    }

    /// How many reports came.
    pub(crate) fn reports(&self) -> u64 {
        self.speech.reports
    }
}

/// Orders from one number to another.
fn put_orders(alloc: Global, text: &mut Vec<u8>, from: u64, to: u64) -> Result<(), NoMemory> {
    for order in from..to {
        let rest = format!(in alloc;
            "11=N{order}\x0155=ACME\x0154=1\x0138=100\x0140=2\x0144=12.50\x01"
        )?;
        let mut one = message(alloc, "D", order.saturating_add(2), rest.as_str())?;
        text.append(&mut one)?;
    }
    Ok(())
}

/// The frame of a message with its number.
fn message(alloc: Global, kind: &str, number: u64, rest: &str) -> Result<Vec<u8>, NoMemory> {
    let body = format!(in alloc;
        "35={kind}\x0149=BUYER\x0156=GATE\x0134={number}\x0152=20260105-09:30:00.000\x01{rest}"
    )?;
    if is_body(body.as_bytes()) {
        match write_frame(alloc, body.as_bytes()) {
            Ok(frame) => Ok(frame),
            Err(_) => Err(NoMemory::OutOfMemory),
        }
    } else {
        Ok(Vec::new(alloc))
    }
}

impl<'a, R: Wait> Wire for SpokenWire<'a, R> {
    ghost link = { λ w c. if c == 0 then record (link_at w.wire c) { left = None; written = None; plan = None; read_blocks = w.blocks } else record (link_at w.wire c) { left = None; written = None; plan = None } };

    ghost door = { λ w. record (door_of w.wire) { plan = None } };

    fn listen(&mut self, address: &str) -> Listened {
        self.wire.listen(address)
    }

    fn accept(&mut self) -> Accepted {
        self.wire.accept()
    }

    fn read(&mut self, c: u32, buf: &mut [u8]) -> WireGot {
        if c > 0 {
            return self.wire.read(c, buf);
        }
        let room = self.speech.room(self.floor).min(buf.len());
        if room == 0 && self.speech.said < self.speech.bytes {
            self.blocks = self.blocks.saturating_add(1);
            return WireGot::Blocked;
        }
        let got = if room == 0 {
            self.wire.read(c, buf)
        } else {
            self.wire.read(c, &mut buf[..room])
        };
        match got {
            WireGot::Bytes(n) => self.speech.said = self.speech.said.saturating_add(n),
            WireGot::Blocked => self.blocks = self.blocks.saturating_add(1),
            WireGot::End | WireGot::Failed => {}
        }
        got
    }

    fn write(&mut self, c: u32, piece: &[u8]) -> WireWrote {
        self.speech.hear(piece);
        self.wire.write(c, piece)
    }

    fn close(&mut self, c: u32) {
        self.wire.close(c);
    }

    fn pause(&mut self, ms: u32) {
        let bell = self.floor.bells().engine();
        bell.sleep(&self.rt, Duration::from_millis(u64::from(ms)));
        self.wire.pause(ms);
    }
}

impl<'a, R: Wait> Dial for SpokenWire<'a, R> {
    fn dial(&mut self, address: &str) -> Dialled {
        self.wire.dial(address)
    }
}

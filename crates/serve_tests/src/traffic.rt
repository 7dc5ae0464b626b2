//! What eight counterparties send.

ghost use Rattle.std.specs.Prelude.{◌≡◌, ◌<◌, ◌≤◌, ◌+◌, IfOk, length};
ghost use Rattle.gate_io.specs.declared.wires.TheConstants.{MOST_CONNECTIONS};

use crate::frames::{come, logon, put_frame};
use anyhow::Result;
use draws::Draw;
use gate_io::MemWire;
use std::alloc::Global;

/// Room for what is written to a connection.
const ROOM: usize = 4_194_304;

/// A gap: the number before it comes later, as a gap fill.
fn put_gap(alloc: Global, them: &str, number: u32, bytes: &mut Vec<u8>) -> Result<()> {
    let next = number.saturating_add(1);
    put_frame(alloc, them, next, "D", "11=LATE\x01", bytes)?;
    let rest = format!(in alloc; "43=Y\x01123=Y\x0136={next}\x01")?;
    put_frame(alloc, them, number, "4", rest.as_str(), bytes)
}

/// One message behind the Logon: mostly an order, and sometimes one that has the session answer. Answers how many
/// numbers it takes.
fn put_message(
    alloc: Global,
    draw: &mut Draw,
    them: &str,
    number: u32,
    bytes: &mut Vec<u8>,
) -> Result<u32> {
    let kind = draw.below(40);
    if kind == 2 {
        put_gap(alloc, them, number, bytes)?;
        return Ok(2);
    }
    let (of, rest) = match kind {
        0 => ("1", "112=T\x01"),
        1 => ("2", "7=1\x0116=0\x01"),
        _ => ("D", "11=A1\x0155=ACME\x0154=1\x0138=100\x01"),
    };
    if kind == 3 {
        bytes.extend_from_slice(b"8=FIX.4.4\x019=5\x01junk")?;
    }
    put_frame(alloc, them, number, of, rest, bytes)?;
    Ok(1)
}

/// All that a counterparty sends.
fn bytes_of(alloc: Global, draw: &mut Draw, them: &str) -> Result<Vec<u8>> {
    let mut bytes = logon(alloc, them)?;
    let mut number = 2u32;
    let count = draw.below(400).saturating_add(20);
    for _message in 0..count {
        let taken = put_message(alloc, draw, them, number, &mut bytes)?;
        number = number.saturating_add(taken);
    }
    if draw.below(2) == 0 {
        put_frame(alloc, them, number, "5", "", &mut bytes)?;
    }
    Ok(bytes)
}

/// The counterparty of this number comes, with all its bytes and no more.
fn come_in(alloc: Global, draw: &mut Draw, them: u32, wire: &mut MemWire) -> Result<()>
    requires few { length wire.old.links < MOST_CONNECTIONS }
    ensures links { length wire.new.links ≤ length wire.old.links + 1 }
    ensures accepted { wire.new.accepted ≡ wire.old.accepted }
    ensures dialled { wire.new.dialled ≡ wire.old.dialled }
{
    let them = format!(in alloc; "P{them}")?;
    let bytes = bytes_of(alloc, draw, them.as_str())?;
    come(alloc, wire, bytes.as_slice())
}

/// They all come, to a wire to which nobody came.
fn come_all(alloc: Global, draw: &mut Draw, wire: &mut MemWire) -> Result<()>
    requires none { length wire.old.links ≡ 0 }
    ensures accepted { wire.new.accepted ≡ wire.old.accepted }
    ensures dialled { wire.new.dialled ≡ wire.old.dialled }
{
    come_in(alloc, draw, 0, wire)?;
    come_in(alloc, draw, 1, wire)?;
    come_in(alloc, draw, 2, wire)?;
    come_in(alloc, draw, 3, wire)?;
    come_in(alloc, draw, 4, wire)?;
    come_in(alloc, draw, 5, wire)?;
    come_in(alloc, draw, 6, wire)?;
    come_in(alloc, draw, 7, wire)
}

/// A wire at which they all come.
pub(crate) fn wire(alloc: Global, draw: &mut Draw) -> Result<MemWire>
    ensures accepted { IfOk result (λ wire. wire.accepted ≡ 0) }
    ensures dialled { IfOk result (λ wire. wire.dialled ≡ 0) }
{
    let mut wire = MemWire::new(alloc);
    come_all(alloc, draw, &mut wire)?;
    wire.reserve(alloc, ROOM)?;
    Ok(wire)
}

//! Frames of counterparties, and connections that bring them.

ghost use Rattle.std.specs.Prelude.{◌≡◌, ◌<◌, ◌≤◌, ◌+◌, length};
ghost use Rattle.gate_io.specs.declared.wires.TheConstants.{MOST_CONNECTIONS};

use anyhow::{Result, bail};
use fix_frame::{is_body, write_frame};
use gate_io::MemWire;
use std::alloc::Global;

/// What stands behind the header of a Logon.
pub(crate) const LOGON: &str = "98=0\x01108=30\x01";

/// Puts the frame of a counterparty's message behind others: its number and type, and what stands behind its header.
pub(crate) fn put_frame(
    alloc: Global,
    them: &str,
    number: u32,
    kind: &str,
    rest: &str,
    bytes: &mut Vec<u8>,
) -> Result<()> {
    let body = format!(in alloc;
        "35={kind}\x0149={them}\x0156=GATE\x0134={number}\x0152=20260105-09:30:00.000\x01{rest}"
    )?;
    if !is_body(body.as_bytes()) {
        bail!("no body");
    }
    let mut frame = write_frame(alloc, body.as_bytes())?;
    bytes.append(&mut frame)?;
    Ok(())
}

/// The frame of a counterparty's Logon, which is its first message.
pub(crate) fn logon(alloc: Global, them: &str) -> Result<Vec<u8>> {
    let mut bytes = Vec::new(alloc);
    put_frame(alloc, them, 1, "A", LOGON, &mut bytes)?;
    Ok(bytes)
}

/// One more connection comes at a wire, with these bytes and no more.
pub(crate) fn come(alloc: Global, wire: &mut MemWire, bytes: &[u8]) -> Result<()>
    requires few { length wire.old.links < MOST_CONNECTIONS }
    ensures links { length wire.new.links ≤ length wire.old.links + 1 }
    ensures accepted { wire.new.accepted ≡ wire.old.accepted }
    ensures dialled { wire.new.dialled ≡ wire.old.dialled }
    ensures taken { wire.new.taken ≡ wire.old.taken }
{
    let c = wire.connect(alloc)?;
    wire.give(alloc, c, bytes)?;
    wire.finish(c);
    Ok(())
}

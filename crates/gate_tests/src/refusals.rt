//! Calls that find no memory.

use crate::checks::same;
use gate_io::{Accepted, MemSink, MemWire, NoMemory, Wire, WireWrote};
use std::test::Fail;

/// More bytes than any machine has.
const TOO_MANY: usize = usize::MAX / 2;

#[test]
fn a_sink_finds_no_room(rt: HostRuntime) {
    let alloc = rt.alloc();
    let refused = MemSink::new(alloc, TOO_MANY, Vec::new(alloc));
    same(&rt, &refused.err(), &Some(NoMemory::OutOfMemory));
}

#[test]
fn a_wire_finds_no_room(rt: HostRuntime) -> Result<(), Fail> {
    let alloc = rt.alloc();
    let mut wire = MemWire::new(alloc);
    let c = wire.connect(alloc)?;
    wire.take(alloc)?;
    wire.reserve(alloc, 3)?;
    same(
        &rt,
        &wire.reserve(alloc, TOO_MANY),
        &Err(NoMemory::OutOfMemory),
    );
    // The connection and its room are as they were.
    same(&rt, &wire.accept(), &Accepted::New(c));
    same(&rt, &wire.write(0, b"back"), &WireWrote::Bytes(3));
    same(&rt, &wire.write(0, b"k"), &WireWrote::Failed);
    Ok(())
}

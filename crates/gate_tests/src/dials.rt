//! Dials of a wire in memory.

use crate::checks::same;
use gate_io::{Accepted, Dial, Dialled, MemWire, Wire, WireGot, WireWrote};
use std::test::Fail;

#[test]
fn dials_succeed_where_a_connection_was_made(rt: HostRuntime) -> Result<(), Fail> {
    let alloc = rt.alloc();
    let mut wire = MemWire::new(alloc);
    same(&rt, &wire.dial("hub:1"), &Dialled::Failed);
    wire.take(alloc)?;
    same(&rt, &wire.dial("hub:1"), &Dialled::New(1024));
    same(&rt, &wire.dial("hub:1"), &Dialled::Failed);
    wire.take(alloc)?;
    wire.take(alloc)?;
    same(&rt, &wire.dial("hub:2"), &Dialled::New(1025));
    same(&rt, &wire.dial("hub:3"), &Dialled::New(1026));
    same(&rt, &wire.dial("hub:3"), &Dialled::Failed);
    Ok(())
}

#[test]
fn accepts_and_dials_count_for_themselves(rt: HostRuntime) -> Result<(), Fail> {
    let alloc = rt.alloc();
    let mut wire = MemWire::new(alloc);
    wire.take(alloc)?;
    same(&rt, &wire.accept(), &Accepted::Nothing);
    same(&rt, &wire.connect(alloc)?, &0);
    same(&rt, &wire.dial("hub:1"), &Dialled::New(1024));
    same(&rt, &wire.dial("hub:1"), &Dialled::Failed);
    same(&rt, &wire.accept(), &Accepted::New(0));
    Ok(())
}

#[test]
fn a_dialled_connection_has_bytes_of_its_own(rt: HostRuntime) -> Result<(), Fail> {
    let alloc = rt.alloc();
    let mut wire = MemWire::new(alloc);
    let mut buf = [0u8; 4];
    let c = wire.connect(alloc)?;
    wire.take(alloc)?;
    // Both before they are accepted or dialled.
    wire.give(alloc, 1024, b"hub")?;
    wire.give(alloc, c, b"peer")?;
    wire.reserve(alloc, 2)?;
    same(&rt, &wire.accept(), &Accepted::New(0));
    same(&rt, &wire.dial("hub:1"), &Dialled::New(1024));
    same(&rt, &wire.read(1024, &mut buf), &WireGot::Bytes(3));
    same(&rt, &&buf[..3], &b"hub".as_slice());
    same(&rt, &wire.read(0, &mut buf), &WireGot::Bytes(4));
    same(&rt, &buf.as_slice(), &b"peer".as_slice());
    same(&rt, &wire.write(1024, b"back"), &WireWrote::Bytes(2));
    same(&rt, &wire.write(1024, b"ck"), &WireWrote::Failed);
    same(&rt, &wire.write(0, b"ok"), &WireWrote::Bytes(2));
    wire.finish(1024);
    same(&rt, &wire.read(1024, &mut buf), &WireGot::End);
    same(&rt, &wire.read(0, &mut buf), &WireGot::Blocked);
    wire.close(1024);
    same(&rt, &wire.read(0, &mut buf), &WireGot::Blocked);
    Ok(())
}

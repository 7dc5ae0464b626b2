//! Connections of a wire in memory, and its listening.

use crate::checks::same;
use gate_io::{Accepted, Listened, MemWire, Wire, WireGot, WireWrote};
use std::test::Fail;

#[test]
fn a_connection_in_memory(rt: HostRuntime) -> Result<(), Fail> {
    let alloc = rt.alloc();
    let mut wire = MemWire::new(alloc);
    let mut buf = [0u8; 4];
    let c = wire.connect(alloc)?;
    wire.give(alloc, c, b"in the wire")?;
    same(&rt, &wire.accept(), &Accepted::New(0));
    wire.reserve(alloc, 3)?;
    same(&rt, &wire.read(0, &mut buf), &WireGot::Bytes(4));
    same(&rt, &buf.as_slice(), &b"in t".as_slice());
    same(&rt, &wire.write(0, b"back"), &WireWrote::Bytes(3));
    same(&rt, &wire.write(0, b"k"), &WireWrote::Failed);
    same(&rt, &wire.read(0, &mut buf), &WireGot::Bytes(4));
    same(&rt, &wire.read(0, &mut buf), &WireGot::Bytes(3));
    same(&rt, &wire.read(0, &mut buf), &WireGot::Blocked);
    wire.finish(0);
    same(&rt, &wire.read(0, &mut buf), &WireGot::End);
    wire.close(0);
    Ok(())
}

#[test]
fn accepts(rt: HostRuntime) -> Result<(), Fail> {
    let alloc = rt.alloc();
    let mut wire = MemWire::new(alloc);
    same(&rt, &wire.accept(), &Accepted::Nothing);
    same(&rt, &wire.connect(alloc)?, &0);
    same(&rt, &wire.connect(alloc)?, &1);
    wire.fail_accept();
    wire.fail_accept();
    same(&rt, &wire.accept(), &Accepted::Failed);
    same(&rt, &wire.accept(), &Accepted::New(0));
    wire.pause(1);
    same(&rt, &wire.accept(), &Accepted::New(1));
    same(&rt, &wire.accept(), &Accepted::Nothing);
    wire.fail_accept();
    same(&rt, &wire.accept(), &Accepted::Failed);
    same(&rt, &wire.accept(), &Accepted::Nothing);
    Ok(())
}

#[test]
fn listens(rt: HostRuntime) {
    let mut wire = MemWire::new(rt.alloc());
    same(&rt, &wire.listen("127.0.0.1:0"), &Listened::Ready);
    wire.fail_listen();
    same(&rt, &wire.listen("127.0.0.1:0"), &Listened::Failed);
    same(&rt, &wire.listen("127.0.0.1:0"), &Listened::Ready);
}

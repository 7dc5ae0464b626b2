//! Where a wire listens, and what it answers with nobody there.

use crate::checks::{same, same_at};
use crate::sides::{address_of, listening, settle};
use gate_io::{Accepted, Dial, Dialled, Listened, Wire, WireGot};
use std::test::Fail;
use thread_bells::Bell;
use wire_edge::NetWire;

#[test]
fn nothing_before_the_listen(rt: HostRuntime) {
    let wire_bell = Bell::new();
    let mut wire = NetWire::new(rt, rt.alloc(), &wire_bell);
    same(&rt, &wire.port(), &None);
    same(&rt, &wire.accept(), &Accepted::Nothing);
    same(&rt, &wire.dial("127.0.0.1:1"), &Dialled::Failed);
    wire.pause(1);
    wire.finish();
}

#[test]
fn addresses_at_which_nothing_listens(rt: HostRuntime) -> Result<(), Fail> {
    let wire_bell = Bell::new();
    let mut wire = NetWire::new(rt, rt.alloc(), &wire_bell);
    for address in ["", "127.0.0.1", "127.0.0.1:", "127.0.0.1:65536", ":"] {
        same_at(&rt, &wire.listen(address), &Listened::Failed, &address);
    }
    Ok(())
}

#[test]
fn a_port_is_taken_by_the_first_that_listens(rt: HostRuntime) -> Result<(), Fail> {
    let first_bell = Bell::new();
    let first = listening(rt, &first_bell)?;
    let address = address_of(rt, &first)?;
    let wire_bell = Bell::new();
    let mut wire = NetWire::new(rt, rt.alloc(), &wire_bell);
    same(&rt, &wire.listen(address.as_str()), &Listened::Failed);
    same(&rt, &wire.listen("127.0.0.1:0"), &Listened::Ready);
    same(&rt, &wire.accept(), &Accepted::Nothing);
    Ok(())
}

#[test]
fn addresses_that_cannot_be_dialled(rt: HostRuntime) -> Result<(), Fail> {
    let wire_bell = Bell::new();
    let mut wire = listening(rt, &wire_bell)?;
    for address in ["", "127.0.0.1", "127.0.0.1:", "127.0.0.1:65536", ":"] {
        same_at(&rt, &wire.dial(address), &Dialled::Failed, &address);
    }
    Ok(())
}

#[test]
fn a_refused_dial_is_a_failed_read(rt: HostRuntime) -> Result<(), Fail> {
    let gone_bell = Bell::new();
    let gone = listening(rt, &gone_bell)?;
    let address = address_of(rt, &gone)?;
    gone.finish();
    let wire_bell = Bell::new();
    let mut wire = listening(rt, &wire_bell)?;
    let mut buf = [0u8; 8];
    same(&rt, &wire.dial(address.as_str()), &Dialled::New(1024));
    settle(&mut wire);
    same(&rt, &wire.read(1024, &mut buf), &WireGot::Failed);
    wire.close(1024);
    // The next dial is a connection of its own.
    same(&rt, &wire.dial(address.as_str()), &Dialled::New(1025));
    settle(&mut wire);
    same(&rt, &wire.read(1025, &mut buf), &WireGot::Failed);
    Ok(())
}

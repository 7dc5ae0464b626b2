//! Bytes both ways, over a wire's own listener and between two wires.

use crate::checks::same;
use crate::sides::{address_of, listening, settle};
use gate_io::{Accepted, Dial, Dialled, Wire, WireGot, WireWrote};
use std::test::Fail;
use thread_bells::Bell;

#[test]
fn a_wire_dials_its_own_listener(rt: HostRuntime) -> Result<(), Fail> {
    let wire_bell = Bell::new();
    let mut wire = listening(rt, &wire_bell)?;
    let address = address_of(rt, &wire)?;
    let mut buf = [0u8; 8];
    same(&rt, &wire.accept(), &Accepted::Nothing);
    same(&rt, &wire.dial(address.as_str()), &Dialled::New(1024));
    settle(&mut wire);
    same(&rt, &wire.accept(), &Accepted::New(0));
    same(&rt, &wire.accept(), &Accepted::Nothing);
    same(&rt, &wire.read(0, &mut buf), &WireGot::Blocked);
    same(&rt, &wire.read(1024, &mut buf), &WireGot::Blocked);
    same(&rt, &wire.write(1024, b"hello"), &WireWrote::Bytes(5));
    same(&rt, &wire.write(0, b"gateway"), &WireWrote::Bytes(7));
    settle(&mut wire);
    same(&rt, &wire.read(0, &mut buf), &WireGot::Bytes(5));
    same(&rt, &&buf[..5], &b"hello".as_slice());
    same(&rt, &wire.read(1024, &mut buf), &WireGot::Bytes(7));
    same(&rt, &&buf[..7], &b"gateway".as_slice());
    same(&rt, &wire.read(0, &mut buf), &WireGot::Blocked);
    Ok(())
}

#[test]
fn a_read_takes_what_fits_and_leaves_the_rest(rt: HostRuntime) -> Result<(), Fail> {
    let wire_bell = Bell::new();
    let mut wire = listening(rt, &wire_bell)?;
    let address = address_of(rt, &wire)?;
    let mut buf = [0u8; 4];
    same(&rt, &wire.dial(address.as_str()), &Dialled::New(1024));
    settle(&mut wire);
    same(&rt, &wire.accept(), &Accepted::New(0));
    same(&rt, &wire.write(1024, b"123456"), &WireWrote::Bytes(6));
    settle(&mut wire);
    same(&rt, &wire.read(0, &mut buf), &WireGot::Bytes(4));
    same(&rt, &buf.as_slice(), &b"1234".as_slice());
    same(&rt, &wire.read(0, &mut buf), &WireGot::Bytes(2));
    same(&rt, &&buf[..2], &b"56".as_slice());
    same(&rt, &wire.read(0, &mut buf), &WireGot::Blocked);
    Ok(())
}

#[test]
fn connections_are_numbered_as_they_come(rt: HostRuntime) -> Result<(), Fail> {
    let gateway_bell = Bell::new();
    let mut gateway = listening(rt, &gateway_bell)?;
    let clients_bell = Bell::new();
    let mut clients = listening(rt, &clients_bell)?;
    let address = address_of(rt, &gateway)?;
    let mut buf = [0u8; 8];
    same(&rt, &clients.dial(address.as_str()), &Dialled::New(1024));
    same(&rt, &clients.dial(address.as_str()), &Dialled::New(1025));
    settle(&mut clients);
    same(&rt, &clients.write(1024, b"first"), &WireWrote::Bytes(5));
    same(&rt, &clients.write(1025, b"second"), &WireWrote::Bytes(6));
    settle(&mut gateway);
    same(&rt, &gateway.accept(), &Accepted::New(0));
    same(&rt, &gateway.accept(), &Accepted::New(1));
    same(&rt, &gateway.read(0, &mut buf), &WireGot::Bytes(5));
    same(&rt, &gateway.read(1, &mut buf), &WireGot::Bytes(6));
    Ok(())
}

#[test]
fn a_descriptor_that_is_given_again_is_a_new_connection(rt: HostRuntime) -> Result<(), Fail> {
    let wire_bell = Bell::new();
    let mut wire = listening(rt, &wire_bell)?;
    let address = address_of(rt, &wire)?;
    let mut buf = [0u8; 8];
    same(&rt, &wire.dial(address.as_str()), &Dialled::New(1024));
    settle(&mut wire);
    same(&rt, &wire.accept(), &Accepted::New(0));
    // Both sides are gone, with their descriptors.
    wire.close(0);
    wire.close(1024);
    settle(&mut wire);
    same(&rt, &wire.dial(address.as_str()), &Dialled::New(1025));
    settle(&mut wire);
    same(&rt, &wire.accept(), &Accepted::New(1));
    same(&rt, &wire.write(1025, b"again"), &WireWrote::Bytes(5));
    settle(&mut wire);
    same(&rt, &wire.read(1, &mut buf), &WireGot::Bytes(5));
    Ok(())
}

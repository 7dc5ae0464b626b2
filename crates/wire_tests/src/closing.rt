//! How connections end.

use crate::checks::same;
use crate::sides::{address_of, listening, settle};
use gate_io::{Accepted, Dial, Dialled, Wire, WireGot, WireWrote};
use std::test::Fail;
use thread_bells::Bell;

#[test]
fn the_input_ends_behind_its_bytes(rt: HostRuntime) -> Result<(), Fail> {
    let gateway_bell = Bell::new();
    let mut gateway = listening(rt, &gateway_bell)?;
    let client_bell = Bell::new();
    let mut client = listening(rt, &client_bell)?;
    let address = address_of(rt, &gateway)?;
    let mut buf = [0u8; 8];
    same(&rt, &client.dial(address.as_str()), &Dialled::New(1024));
    settle(&mut client);
    same(&rt, &client.write(1024, b"bye"), &WireWrote::Bytes(3));
    client.close(1024);
    settle(&mut gateway);
    same(&rt, &gateway.accept(), &Accepted::New(0));
    same(&rt, &gateway.read(0, &mut buf), &WireGot::Bytes(3));
    same(&rt, &gateway.read(0, &mut buf), &WireGot::End);
    same(&rt, &gateway.read(0, &mut buf), &WireGot::End);
    // The client still takes bytes, and drops them.
    same(&rt, &gateway.write(0, b"bye"), &WireWrote::Bytes(3));
    gateway.close(0);
    settle(&mut client);
    client.finish();
    gateway.finish();
    Ok(())
}

#[test]
fn last_bytes_come_through_though_input_was_left(rt: HostRuntime) -> Result<(), Fail> {
    let gateway_bell = Bell::new();
    let mut gateway = listening(rt, &gateway_bell)?;
    let client_bell = Bell::new();
    let mut client = listening(rt, &client_bell)?;
    let address = address_of(rt, &gateway)?;
    let mut buf = [0u8; 8];
    same(&rt, &client.dial(address.as_str()), &Dialled::New(1024));
    settle(&mut client);
    same(&rt, &client.write(1024, b"unread"), &WireWrote::Bytes(6));
    settle(&mut gateway);
    same(&rt, &gateway.accept(), &Accepted::New(0));
    same(&rt, &gateway.write(0, b"logout"), &WireWrote::Bytes(6));
    gateway.close(0);
    // Also bytes that come behind the close reset nothing.
    same(&rt, &client.write(1024, b"late"), &WireWrote::Bytes(4));
    settle(&mut gateway);
    same(&rt, &client.write(1024, b"later"), &WireWrote::Bytes(5));
    settle(&mut gateway);
    settle(&mut client);
    same(&rt, &client.read(1024, &mut buf), &WireGot::Bytes(6));
    same(&rt, &&buf[..6], &b"logout".as_slice());
    same(&rt, &client.read(1024, &mut buf), &WireGot::End);
    client.close(1024);
    gateway.finish();
    Ok(())
}

#[test]
fn a_run_ends_though_a_counterparty_stays(rt: HostRuntime) -> Result<(), Fail> {
    let gateway_bell = Bell::new();
    let mut gateway = listening(rt, &gateway_bell)?;
    let client_bell = Bell::new();
    let mut client = listening(rt, &client_bell)?;
    let address = address_of(rt, &gateway)?;
    let mut buf = [0u8; 8];
    same(&rt, &client.dial(address.as_str()), &Dialled::New(1024));
    settle(&mut client);
    same(&rt, &client.write(1024, b"unread"), &WireWrote::Bytes(6));
    settle(&mut gateway);
    same(&rt, &gateway.accept(), &Accepted::New(0));
    same(&rt, &gateway.write(0, b"logout"), &WireWrote::Bytes(6));
    gateway.finish();
    settle(&mut client);
    same(&rt, &client.read(1024, &mut buf), &WireGot::Bytes(6));
    same(&rt, &client.read(1024, &mut buf), &WireGot::End);
    Ok(())
}

//! A wire that listens on a port of its own, and the wait until the system has done what was asked of it.

ghost use Rattle.std.specs.Prelude.{◌≡◌, IfOk};
ghost use Rattle.wire_edge.specs.NetWire.{new_wire};

use gate_io::{Listened, Wire};
use std::test::Fail;
use thread_bells::Bell;
use wire_edge::NetWire;

/// How many pauses there are until nothing more is to come. Those that sleep alternate with those that only ask.
const PAUSES: u32 = 50;

/// For how many milliseconds a pause sleeps at most.
const WAIT: u32 = 5;

/// A wire that listens at a port that the system chose.
pub fn listening<'a>(rt: HostRuntime, bell: &'a Bell) -> Result<NetWire<'a, HostRuntime>, Fail>
    ensures { IfOk result (λ wire. wire ≡ new_wire) }
{
    let mut wire = NetWire::new(rt, rt.alloc(), bell);
    match wire.listen("127.0.0.1:0") {
        Listened::Ready => Ok(wire),
        _ => Err(Fail::new("no port to listen at")),
    }
}

/// The address at which a wire listens.
pub fn address_of(rt: HostRuntime, wire: &NetWire<'_, HostRuntime>) -> Result<String, Fail> {
    match wire.port() {
        Some(port) => Ok(format!(in rt.alloc(); "127.0.0.1:{port}")?),
        None => Err(Fail::new("no port")),
    }
}

/// Pauses until nothing more is to come.
pub fn settle(wire: &mut NetWire<'_, HostRuntime>)
    ensures { wire.new ≡ wire.old }
{
    for _round in 0..PAUSES {
        wire.pause(WAIT);
    }
}

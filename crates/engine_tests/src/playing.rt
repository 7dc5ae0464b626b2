//! A step of a row is carried out on the engine, its counterparties and its libraries.

ghost use Rattle.std.specs.Prelude.{◌≡◌, OnOk, false};
ghost use Rattle.engine_tests.specs.Outside.{IsOver};
ghost use Rattle.wire_desk.specs.Lines.{StaysKnown};

use crate::facts::instead_of;
use crate::gateway::Gateway;
use crate::steps::Step;
use crate::tapped_wire::TappedWire;
use crate::texts::{ORDER, T, frames, run};
use crate::told::{Instead, unless_so, unless_told};
use engine_loop::laws::engines_stay;
use gate_io::NoMemory;
use library_desk::Shared;
use std::alloc::Global;

// Whether what comes at the wire can come.
fn comes(alloc: Global, wire: &mut TappedWire, step: Step<'_>) -> Result<bool, NoMemory>
    ensures { OnOk result (StaysKnown wire.old.wire wire.new.wire) }
{
    match step {
        Step::Connect => wire.connect(alloc),
        Step::Answers => wire.take(alloc),
        Step::Hears(c, text) => wire.give(alloc, c, frames(alloc, text)?.as_slice()),
        Step::HearsEach(c, first, last, text) => {
            wire.give(alloc, c, run(alloc, text, first, last)?.as_slice())
        }
        Step::Orders(c, first, last) => {
            wire.give(alloc, c, run(alloc, ORDER, first, last)?.as_slice())
        }
        _ => Ok(stops(wire, step)),
    }
}

// Whether what comes to an end at the wire, fails or is blocked can do so.
fn stops(wire: &mut TappedWire, step: Step<'_>) -> bool
    ensures { StaysKnown wire.old.wire wire.new.wire }
{
    match step {
        Step::Finishes(c) => wire.finish(c),
        Step::FailsRead(c) => wire.fail_read(c),
        Step::FailsWrite(c, after) => wire.fail_write(c, after),
        Step::Blocks(c, after) => wire.block(c, after),
        Step::Unblocks(c) => wire.unblock(c),
        Step::FailsAccept => {
            wire.fail_accept();
            true
        }
        _ => false,
    }
}

// The engine makes a turn.
fn turn(alloc: Global, shared: &Shared, gateway: &mut Gateway) -> Result<(), NoMemory>
    requires running { IsOver shared.now gateway.old.engine gateway.old.wire.wire }
    ensures running { OnOk result (IsOver shared.now gateway.new.engine gateway.new.wire.wire) }
    ensures stands { OnOk result (gateway.new.engine.failed ≡ false) }
{
    engines_stay();
    gateway.wire.reserve(alloc)?;
    let turn = gateway
        .engine
        .turn(alloc, shared, &mut gateway.wire, &mut gateway.clock)?;
    gateway.turn = Some(turn);
    Ok(())
}

// It makes so many turns.
fn turns(
    alloc: Global,
    shared: &Shared,
    gateway: &mut Gateway,
    count: u32,
) -> Result<Instead, NoMemory>
    requires running { IsOver shared.now gateway.old.engine gateway.old.wire.wire }
    ensures running { OnOk result (IsOver shared.now gateway.new.engine gateway.new.wire.wire) }
{
    for _turn in 0..count {
        turn(alloc, shared, gateway)?;
    }
    Ok(None)
}

// It makes a turn behind each of the bytes.
fn trickles(
    alloc: Global,
    shared: &Shared,
    gateway: &mut Gateway,
    c: u32,
    bytes: &[u8],
) -> Result<Instead, NoMemory>
    requires running { IsOver shared.now gateway.old.engine gateway.old.wire.wire }
    ensures running { OnOk result (IsOver shared.now gateway.new.engine gateway.new.wire.wire) }
{
    engines_stay();
    for byte in bytes {
        if !gateway.wire.give(alloc, c, &[*byte])? {
            return unless_so(alloc, false, "no such connection");
        }
        turn(alloc, shared, gateway)?;
    }
    Ok(None)
}

// What came to a session's journal since the last call for it, in place of these entries.
fn tells(
    alloc: Global,
    _shared: &Shared,
    gateway: &mut Gateway,
    s: u16,
    wanted: &str,
) -> Result<Instead, NoMemory>
    requires running { IsOver _shared.now gateway.old.engine gateway.old.wire.wire }
    ensures running { OnOk result (IsOver _shared.now gateway.new.engine gateway.new.wire.wire) }
{
    let mut records = gateway.engine.fresh(alloc)?;
    gateway.records.append(&mut records)?;
    let mut told = Vec::new(alloc);
    for record in gateway.records.as_slice() {
        if record.s == s {
            told.push(record.entry)?;
        }
    }
    gateway.records.retain(|record| record.s != s);
    let instead = unless_told(alloc, wanted, &told.as_slice())?;
    Ok(instead)
}

/// What the engine does, what comes at its wire, and what is so: what a step comes to in place of what it says.
pub(crate) fn play(
    alloc: Global,
    shared: &Shared,
    gateway: &mut Gateway,
    step: Step<'_>,
) -> Result<Instead, NoMemory>
    requires running { IsOver shared.now gateway.old.engine gateway.old.wire.wire }
    ensures running { OnOk result (IsOver shared.now gateway.new.engine gateway.new.wire.wire) }
{
    engines_stay();
    match step {
        Step::At(past) => {
            gateway.clock.set(T.saturating_add(past));
            Ok(None)
        }
        Step::Turn => turns(alloc, shared, gateway, 1),
        Step::Turns(count) => turns(alloc, shared, gateway, count),
        Step::Trickles(c, texts) => {
            trickles(alloc, shared, gateway, c, frames(alloc, texts)?.as_slice())
        }
        Step::Tells(s, wanted) => tells(alloc, shared, gateway, s, wanted),
        Step::Is(fact) => instead_of(alloc, gateway, fact),
        _ => {
            let can_be = comes(alloc, &mut gateway.wire, step)?;
            unless_so(alloc, can_be, "no such connection")
        }
    }
}

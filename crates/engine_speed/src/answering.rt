//! Orders are taken, read by a library and answered, all in one thread.

ghost use Rattle.std.specs.Prelude.{◌≡◌};
ghost use Rattle.engine_speed.specs.Over.{IsOver};

use crate::application::{Application, library};
use crate::gateway::{Gateway, open};
use crate::texts::morning;
use anyhow::bail;
use library_desk::Shared;
use std::alloc::Global;
use std::time::{Clock, Instant};

// How many orders a library answers between two turns: as many as its lane holds.
const LANE: u64 = 16;

// How many bytes a report takes on the wire at most.
const LONGEST_REPORT: u64 = 256;

/// How many nanoseconds it takes to answer so many orders.
pub fn orders<R: Clock>(rt: &R, alloc: Global, count: u64) -> Result<u128, anyhow::Error> {
    let input = morning(alloc, count)?;
    let (mut gateway, shared, ends) = open(alloc, 1, input.as_slice(), room_for(count))?;
    let mut library = library(&shared, ends);
    let timed = time_orders(rt, alloc, &shared, &mut gateway, &mut library, count);
    checked(alloc, &shared, gateway, timed, count)
}

// How many nanoseconds it takes, once the library has the session, and how many bytes were written.
fn time_orders<R: Clock>(
    rt: &R,
    alloc: Global,
    shared: &Shared,
    gateway: &mut Gateway,
    library: &mut Application,
    count: u64,
) -> Result<(u128, u64), anyhow::Error>
    requires over { IsOver shared.now gateway.old.engine gateway.old.wire }
    ensures over { IsOver shared.now gateway.new.engine gateway.new.wire }
{
    take_session(alloc, shared, gateway, library)?;
    let start = Instant::now(rt)?;
    let written = answer_all(alloc, shared, gateway, library, count)?;
    let time = start.elapsed(rt)?;
    Ok((time.as_nanos(), written))
}

/// Room for so many reports, and the answer to the Logon.
pub fn room_for(count: u64) -> usize {
    count.saturating_add(1).saturating_mul(LONGEST_REPORT) as usize
}

/// The library gets the session.
pub fn take_session(
    alloc: Global,
    shared: &Shared,
    gateway: &mut Gateway,
    library: &mut Application,
) -> Result<(), anyhow::Error>
    requires over { IsOver shared.now gateway.old.engine gateway.old.wire }
    ensures over { IsOver shared.now gateway.new.engine gateway.new.wire }
{
    let asked = library.request();
    gateway.turn(alloc, shared)?;
    if !asked || !library.is_granted() {
        bail!("the session was not granted");
    }
    Ok(())
}

// The library answers the orders that came, and the engine makes a turn.
fn round(
    alloc: Global,
    shared: &Shared,
    gateway: &mut Gateway,
    library: &mut Application,
) -> Result<u64, anyhow::Error>
    requires over { IsOver shared.now gateway.old.engine gateway.old.wire }
    ensures over { IsOver shared.now gateway.new.engine gateway.new.wire }
{
    for _ in 0..LANE {
        if !library.answer(alloc)? {
            break;
        }
    }
    Ok(gateway.turn(alloc, shared)?.written)
}

// Answers so many orders, in at most so many rounds. Answers how many bytes were written.
fn answer_all(
    alloc: Global,
    shared: &Shared,
    gateway: &mut Gateway,
    library: &mut Application,
    count: u64,
) -> Result<u64, anyhow::Error>
    requires over { IsOver shared.now gateway.old.engine gateway.old.wire }
    ensures over { IsOver shared.now gateway.new.engine gateway.new.wire }
{
    let mut written = 0u64;
    for _round in 0..count {
        written = written.wrapping_add(round(alloc, shared, gateway, library)?);
        if library.answered >= count {
            return Ok(written);
        }
    }
    bail!("some orders were not answered")
}

/// The time, if so many reports were sent and their bytes written.
pub fn checked(
    alloc: Global,
    shared: &Shared,
    gateway: Gateway,
    timed: Result<(u128, u64), anyhow::Error>,
    count: u64,
) -> Result<u128, anyhow::Error>
    requires over { IsOver shared.now gateway.engine gateway.wire }
{
    let (time, written) = timed?;
    // (the Logon's answer was written before)
    if written < count || gateway.end(alloc, shared)? != count.wrapping_add(1) {
        bail!("some reports were not written");
    }
    Ok(time)
}

//! Orders are answered while the engine makes turns in one thread and the library polls in another.

ghost use Rattle.std.specs.Prelude.{◌≡◌};
ghost use Rattle.engine_speed.specs.Over.{IsOver};

use crate::answering::{checked, room_for, take_session};
use crate::application::{Application, library};
use crate::gateway::{Gateway, open};
use crate::texts::morning;
use anyhow::bail;
use gate_io::NoMemory;
use library_desk::Shared;
use std::alloc::Global;
use std::sync::atomic::{AtomicBool, Ordering};
use std::thread;
use std::thread::{Threads, join_mut};
use std::time::{Clock, Instant};

// Behind so many turns or polls in a row that found nothing a side gives up.
const PATIENCE: u64 = 10_000_000;

/// How many nanoseconds it takes to answer so many orders, the library in a thread of its own.
pub fn orders_apart<R: Clock + Threads + Sync>(
    rt: &R,
    alloc: Global,
    count: u64,
) -> Result<u128, anyhow::Error> {
    let input = morning(alloc, count)?;
    let (mut gateway, shared, ends) = open(alloc, 1, input.as_slice(), room_for(count))?;
    let mut library = library(&shared, ends);
    let timed = time_beside(rt, alloc, &shared, &mut gateway, &mut library, count);
    checked(alloc, &shared, gateway, timed, count)
}

// How many nanoseconds it takes, once the library has the session, and how many bytes were written.
fn time_beside<R: Clock + Threads + Sync>(
    rt: &R,
    alloc: Global,
    shared: &Shared,
    gateway: &mut Gateway,
    library: &mut Application,
    count: u64,
) -> Result<(u128, u64), anyhow::Error>
    requires over { IsOver shared.now gateway.old.engine gateway.old.wire }
    ensures over { IsOver shared.now gateway.new.engine gateway.new.wire }
{
    take_session(alloc, shared, gateway, library)?;
    let start = Instant::now(rt)?;
    let written = answer_beside(rt, alloc, shared, gateway, library, count)?;
    let time = start.elapsed(rt)?;
    if library.answered != count {
        bail!("some orders were not answered");
    }
    Ok((time.as_nanos(), written))
}

// The engine makes turns while the library answers so many orders. Answers how many bytes were written.
fn answer_beside<R: Threads + Sync>(
    rt: &R,
    alloc: Global,
    shared: &Shared,
    gateway: &mut Gateway,
    library: &mut Application,
    count: u64,
) -> Result<u64, NoMemory>
    requires over { IsOver shared.now gateway.old.engine gateway.old.wire }
    ensures over { IsOver shared.now gateway.new.engine gateway.new.wire }
{
    let over = AtomicBool::new(false);
    // (the second of them stays in this thread)
    let (answered, written) = join_mut(
        rt,
        &mut || answer(alloc, library, count, &over),
        &mut || -> Result<u64, NoMemory>
            requires { IsOver shared.now gateway.now.engine gateway.now.wire }
            ensures { IsOver shared.entry.now gateway.exit.now.engine gateway.exit.now.wire }
        { drive(alloc, shared, gateway, &over) },
    );
    answered?;
    written
}

// The engine's side: turns until the other side is over. Answers how many bytes were written.
fn drive(
    alloc: Global,
    shared: &Shared,
    gateway: &mut Gateway,
    over: &AtomicBool,
) -> Result<u64, NoMemory>
    requires over { IsOver shared.now gateway.old.engine gateway.old.wire }
    ensures over { IsOver shared.now gateway.new.engine gateway.new.wire }
{
    let written = drive_all(alloc, shared, gateway, over);
    over.store(true, Ordering::SeqCst);
    written
}

// Makes turns until the library is over and a further turn finds nothing, or too many in a row found nothing.
fn drive_all(
    alloc: Global,
    shared: &Shared,
    gateway: &mut Gateway,
    over: &AtomicBool,
) -> Result<u64, NoMemory>
    requires over { IsOver shared.now gateway.old.engine gateway.old.wire }
    ensures over { IsOver shared.now gateway.new.engine gateway.new.wire }
{
    let mut written = 0u64;
    let mut idle = 0u64;
    for _turn in 0..u64::MAX {
        // A turn that begins behind the library's end takes all that it sent.
        let last = over.load(Ordering::SeqCst);
        let turn = gateway.turn(alloc, shared)?;
        written = written.wrapping_add(turn.written);
        if !turn.is_idle() {
            idle = 0;
            continue;
        }
        idle = idle.wrapping_add(1);
        if last || idle > PATIENCE {
            break;
        }
        thread::yield_now();
    }
    Ok(written)
}

// The library's side: it answers so many orders, unless the other side is over before.
fn answer(
    alloc: Global,
    library: &mut Application,
    count: u64,
    over: &AtomicBool,
) -> Result<(), NoMemory> {
    let answered = answer_all(alloc, library, count, over);
    over.store(true, Ordering::SeqCst);
    answered
}

// Answers orders until so many were answered, the engine is over, or too many polls in a row found nothing.
fn answer_all(
    alloc: Global,
    library: &mut Application,
    count: u64,
    over: &AtomicBool,
) -> Result<(), NoMemory> {
    let mut idle = 0u64;
    for _order in 0..u64::MAX {
        if library.answered >= count || idle > PATIENCE {
            break;
        }
        if library.answer(alloc)? {
            idle = 0;
            continue;
        }
        idle = idle.wrapping_add(1);
        if over.load(Ordering::SeqCst) {
            break;
        }
        thread::yield_now();
    }
    Ok(())
}

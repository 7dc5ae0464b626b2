//! An engine and a library in threads of their own: once the library is settled, one look and takes
//! until `None` leave nothing untaken of what it sent.
ghost use Rattle.std.specs.Prelude.{◌≡◌, ◌<◌, ◌≤◌};
ghost use Rattle.lease_words.specs.Views.{engine_at, library_at, taken_of};

use crate::engine::Engine;
use crate::library::Library;
use anyhow::{Context, Result, ensure};
use lease_words::{EngineSeat, Leases, LibrarySeat, settled_lanes_are_taken};
use std::alloc::Global;
use std::thread;
use std::thread::Threads;

const BODY: &[u8] = b"35=8\x0137=7\x01";

const ROUNDS: u32 = 20_000;

// Takes a library's seat in, looks once at a session, and takes until there is none.
fn settle_whole(leases: &Leases, engine: &mut EngineSeat, library: LibrarySeat, s: u16)
    requires tables { (engine.old.table ≡ leases.now) × (library.table ≡ leases.now) }
    requires session { s < leases.now.shape.sessions }
    requires depth { leases.now.shape.depth ≤ 16 }
    ensures table { engine.new.table ≡ leases.now }
    ensures taken { taken_of (engine_at engine.new s) library.knows.number ≡ (library_at library s).items }
{
    let _number = library.number();
    leases.settle(engine, library);
    leases.look(engine, s);
    settled_lanes_are_taken();
    for _ in 0..17u32 {
        let Some(_item) = leases.take(engine, s) else {
            return;
        };
    }
    unreachable!()
}

// Grants session 0 where it can, and takes an item, so many times.
fn grant_often(engine: &mut Engine<'_>)
    ensures { engine.new.leases ≡ engine.old.leases }
{
    for _ in 0..ROUNDS {
        engine.look(0);
        engine.grant(0, 1);
        engine.take(0);
        thread::yield_now();
    }
}

fn run_engine(leases: &Leases, seat: EngineSeat) -> EngineSeat
    requires table { seat.table ≡ leases.now }
    requires sessions { leases.now.shape.sessions ≡ 1 }
    ensures { result.table ≡ leases.now }
{
    let mut engine = Engine::of(leases, seat, 1);
    grant_often(&mut engine);
    engine.seat
}

// Sends as often as a lease is held and there is room, so many times.
fn send_often(alloc: Global, library: &mut Library<'_>)
    ensures { library.new.leases ≡ library.old.leases }
{
    for _ in 0..ROUNDS {
        if library.hold(0).is_some() && library.send(alloc, 0, BODY).is_err() {
            break;
        }
        thread::yield_now();
    }
}

fn run_library(alloc: Global, leases: &Leases, seat: LibrarySeat) -> LibrarySeat
    requires { seat.table ≡ leases.now }
    ensures { result.table ≡ leases.now }
{
    let mut library = Library::new(leases, seat);
    send_often(alloc, &mut library);
    library.seat
}

// Runs both side by side, and settles the library.
fn run_and_settle<R: Threads + Sync>(
    rt: &R,
    alloc: Global,
    leases: &Leases,
    engine: EngineSeat,
    library: LibrarySeat,
) -> EngineSeat
    requires tables { (engine.table ≡ leases.now) × (library.table ≡ leases.now) }
    requires sessions { leases.now.shape.sessions ≡ 1 }
    requires depth { leases.now.shape.depth ≤ 16 }
    ensures { result.table ≡ leases.now }
{
    let (mut engine, library) = thread::join(
        rt,
        move || -> EngineSeat
            requires { (engine.table ≡ leases.now) × (leases.now.shape.sessions ≡ 1) }
            ensures { result.table ≡ leases.entry.now }
        { run_engine(leases, engine) },
        move || -> LibrarySeat
            requires { library.table ≡ leases.now }
            ensures { result.table ≡ leases.entry.now }
        { run_library(alloc, leases, library) },
    );
    settle_whole(leases, &mut engine, library, 0);
    engine
}

/// Runs both, settles the library, and fails where one look shows something that wasn't taken.
pub(crate) fn settle<R: Threads + Sync>(rt: &R, alloc: Global) -> Result<()> {
    let (leases, engine, seats) = Leases::new(alloc, 1, 2, 16, 1_000_000)?;
    let library = seats.into_iter().next().context("a seat")?;
    let mut engine = run_and_settle(rt, alloc, &leases, engine, library);
    leases.look(&mut engine, 0);
    ensure!(leases.take(&mut engine, 0).is_none(), "something was left");
    Ok(())
}

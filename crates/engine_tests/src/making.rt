//! How an engine is configured, and how it and its libraries begin.

ghost use Rattle.std.specs.Prelude.{◌≡◌, ◌≤◌, ◌<◌, IfOk, Some, false, length, slice_get};
ghost use Rattle.engine_config.specs.Config.{IsConfig};
ghost use Rattle.engine_start.specs.Starts.{AreLibraryEnds};
ghost use Rattle.engine_tests.specs.Outside.{AreAllEnds, AreEnds, IsOver};

use crate::gateway::Gateway;
use crate::limits::Limits;
use crate::tapped_wire::TappedWire;
use crate::texts::T;
use engine_config::{Config, DialTo};
use engine_start::LibraryEnds;
use gate_io::{Bytes, Label, MOST_CONNECTIONS, MOST_DIALLED, NoMemory, Rows, StepClock};
use lease_core::MOST_LEASES;
use lease_words::LANE_SLOTS;
use library_api::LibraryEnds2;
use library_desk::Shared;
use session_core::Names;
use std::alloc::Global;

/// How many libraries there are.
const LIBRARIES: u8 = 3;

/// How long a library's beat may stand still, how long an heir is waited for, and how long a session waits
/// before it dials again, in milliseconds.
const TIMEOUT: u64 = 5_000;

pub(crate) const HOLD: u64 = 2_000;

const WAIT: u64 = 1_000;

/// The HeartBtInt of the session that dials, in seconds.
const HEART: u32 = 30;

/// Why no engine was made.
#[derive(Debug, Drop, thiserror::Error)]
pub(crate) enum NotMade {
    #[error("out of memory")]
    OutOfMemory,
    #[error("a library is missing")]
    NoLibrary,
}

impl From<NoMemory> for NotMade {
    fn from(_no_memory: NoMemory) -> NotMade {
        NotMade::OutOfMemory
    }
}

/// The engine, and the three libraries' ends.
#[derive(Drop)]
pub(crate) struct Sides {
    pub(crate) gateway: Gateway,
    pub(crate) first: LibraryEnds2,
    pub(crate) second: LibraryEnds2,
    pub(crate) third: LibraryEnds2,
}

/// The sessions GATE/BUYER and GATE/DESK, which accept, and GATE/HUB, which dials.
pub(crate) fn config(alloc: Global, limits: Limits) -> Result<Config, NoMemory>
    requires connections { limits.connections ≤ MOST_CONNECTIONS }
    requires dials { limits.dials ≤ MOST_DIALLED }
    requires leases { (1 ≤ limits.leases) × (limits.leases ≤ MOST_LEASES) }
    requires sends { 1 ≤ limits.sends }
    ensures valid { IfOk result IsConfig }
    ensures sessions { IfOk result (λ config. length config.names ≡ 3) }
    ensures leases { IfOk result (λ config. config.leases ≡ limits.leases) }
{
    let buyer = names(alloc, b"BUYER")?;
    let desk = names(alloc, b"DESK")?;
    let hub = names(alloc, b"HUB")?;
    let dial = DialTo {
        address: Label::of(format!(in alloc; "hub:1")?),
        heart: HEART,
        wait: WAIT,
    };
    Ok(Config {
        names: Rows::of(Vec::from_array(alloc, [buyer, desk, hub])?),
        libraries: LIBRARIES,
        connections: limits.connections,
        lane: LANE_SLOTS as u8,
        leases: limits.leases,
        sends: limits.sends,
        asks: u32::MAX,
        timeout: TIMEOUT,
        hold: HOLD,
        dialled: Rows::of(Vec::from_array(alloc, [None, None, Some(dial)])?),
        dials: limits.dials,
    })
}

/// GATE's names with a counterparty.
fn names(alloc: Global, them: &[u8]) -> Result<Names, NoMemory>
    ensures us { IfOk result (λ names. length names.us ≡ 4) }
    ensures them { IfOk result (λ names. names.them ≡ them.now) }
{
    Ok(Names {
        us: name(alloc, b"GATE")?,
        them: name(alloc, them)?,
    })
}

/// A name of these bytes.
fn name(alloc: Global, bytes: &[u8]) -> Result<Bytes, NoMemory>
    ensures { IfOk result (λ name. name ≡ bytes.now) }
{
    Ok(Bytes::of(Vec::from_slice(alloc, bytes)?))
}

/// An engine that made no turn, over a wire without connections, and its libraries.
pub(crate) fn make(alloc: Global, limits: Limits) -> Result<(Shared, Sides), NotMade>
    requires connections { limits.connections ≤ MOST_CONNECTIONS }
    requires dials { limits.dials ≤ MOST_DIALLED }
    requires leases { (1 ≤ limits.leases) × (limits.leases ≤ MOST_LEASES) }
    requires sends { 1 ≤ limits.sends }
    ensures stands { IfOk result (λ made. made.1.gateway.engine.failed ≡ false) }
    ensures running { IfOk result (λ made. IsOver made.0 made.1.gateway.engine made.1.gateway.wire.wire) }
    ensures first { IfOk result (λ made. AreEnds made.0 0 made.1.first) }
    ensures second { IfOk result (λ made. AreEnds made.0 1 made.1.second) }
    ensures third { IfOk result (λ made. AreEnds made.0 2 made.1.third) }
{
    let (engine, shared, ends) = engine_loop::start(alloc, config(alloc, limits)?, T)?;
    let (first, second, third) = first_three(&shared, ends)?;
    let gateway = Gateway {
        engine,
        wire: TappedWire::new(alloc),
        clock: StepClock::new(T),
        turn: None,
        records: Vec::new(alloc),
    };
    let sides = Sides {
        gateway,
        first,
        second,
        third,
    };
    Ok((shared, sides))
}

/// The ends of the first three libraries, as the libraries take them.
fn first_three(
    _shared: &Shared,
    ends: Vec<LibraryEnds>,
) -> Result<(LibraryEnds2, LibraryEnds2, LibraryEnds2), NotMade>
    requires libraries { AreAllEnds _shared.now ends.items }
    ensures first { IfOk result (λ three. AreEnds _shared.now 0 three.0) }
    ensures second { IfOk result (λ three. AreEnds _shared.now 1 three.1) }
    ensures third { IfOk result (λ three. AreEnds _shared.now 2 three.2) }
{
    let mut ends = ends.into_iter();
    let first = ends.next().ok_or(NotMade::NoLibrary)?;
    let second = ends.next().ok_or(NotMade::NoLibrary)?;
    let third = ends.next().ok_or(NotMade::NoLibrary)?;
    Ok((
        ends_of(_shared, 0, first),
        ends_of(_shared, 1, second),
        ends_of(_shared, 2, third),
    ))
}

/// The ends of the library at a place, as the library takes them.
fn ends_of(_shared: &Shared, _place: usize, ends: LibraryEnds) -> LibraryEnds2
    requires { AreLibraryEnds _shared.now _place ends }
    ensures { AreEnds _shared.now _place result }
{
    LibraryEnds2 {
        number: ends.number,
        seat: ends.seat,
        tail: ends.tail,
        head: ends.head,
    }
}

//! An engine over a wire in memory, as any configuration has it or with one session and one library.

ghost use Rattle.std.specs.Prelude.{◌≡◌, ◌≤◌, ◌<◌, ◌∷◌, [], ℕ, IfOk, OnOk, Some, length, slice_get};
ghost use Rattle.engine_config.specs.Config.{IsConfig};
ghost use Rattle.engine_speed.specs.Over.{IsOver, IsUntouched};
ghost use Rattle.engine_start.specs.Starts.{AreLibraryEnds};
ghost use Rattle.engine_start.specs.declared.ends.LibraryEnds.{LibraryEnds as TheEnds};
ghost use Rattle.gate_io.specs.MemWire.{IsMade};

use crate::texts::MORNING;
use anyhow::{Context, bail};
use engine_config::Config;
use engine_loop::{Engine, Turn};
use engine_start::LibraryEnds;
use gate_io::{Bytes, MOST_CONNECTIONS, MemWire, NoMemory, Rows, StepClock};
use library_desk::Shared;
use session_core::Names;
use std::alloc::Global;

/// An engine, its wire and its clock.
#[derive(Drop)]
pub struct Gateway {
    pub engine: Engine,
    pub wire: MemWire,
    pub clock: StepClock,
}

impl Gateway {
    /// Makes a turn.
    pub fn turn(&mut self, alloc: Global, shared: &Shared) -> Result<Turn, NoMemory>
        requires over { IsOver shared.now self.old.engine self.old.wire }
        ensures over { IsOver shared.now self.new.engine self.new.wire }
    {
        self.engine
            .turn(alloc, shared, &mut self.wire, &mut self.clock)
    }

    /// Makes so many turns. Answers how many bytes they wrote.
    pub fn turns(&mut self, alloc: Global, shared: &Shared, count: u64) -> Result<u64, NoMemory>
        requires over { IsOver shared.now self.old.engine self.old.wire }
        ensures over { IsOver shared.now self.new.engine self.new.wire }
    {
        let mut written = 0u64;
        for _turn in 0..count {
            written = written.wrapping_add(self.turn(alloc, shared)?.written);
        }
        Ok(written)
    }

    /// How many messages the outbound log of the first session has as the run ends.
    pub fn end(self, alloc: Global, shared: &Shared) -> Result<u64, anyhow::Error>
        requires over { IsOver shared.now self.engine self.wire }
    {
        let Gateway { engine, .. } = self;
        let Ok(left) = engine.finish(alloc, shared, Vec::new(alloc)) else {
            bail!("the run did not end")
        };
        let session = left.sessions.as_slice().first().context("a session")?;
        Ok(session.outbound.len())
    }
}

/// The session GATE/BUYER, and one library.
fn config(alloc: Global) -> Result<Config, NoMemory>
    ensures { IfOk result IsConfig }
{
    let names = Names {
        us: Bytes::of(Vec::from_slice(alloc, b"GATE")?),
        them: Bytes::of(Vec::from_slice(alloc, b"BUYER")?),
    };
    Ok(Config {
        names: Rows::of(Vec::from_array(alloc, [names])?),
        libraries: 1,
        connections: MOST_CONNECTIONS,
        lane: 16,
        leases: 9,
        sends: u32::MAX,
        asks: u32::MAX,
        timeout: 5_000,
        hold: 1_000,
        dialled: Rows::of(Vec::from_array(alloc, [None])?),
        dials: 0,
    })
}

/// So many connections that wait, of which the first one has this input, and room for what is written.
fn wire(alloc: Global, connections: u32, input: &[u8], room: usize) -> Result<MemWire, NoMemory>
    requires some { 0 < connections }
    requires few { connections ≤ MOST_CONNECTIONS }
    ensures { IfOk result IsUntouched }
{
    let mut wire = MemWire::new(alloc);
    for _c in 0..connections {
        wire.connect(alloc)?;
    }
    wire.give(alloc, 0, input)?;
    wire.reserve(alloc, room)?;
    Ok(wire)
}

/// A gateway that made no turn, over a wire of which nothing was accepted, what it shares with its libraries,
/// and their ends.
pub fn begin(
    alloc: Global,
    config: Config,
    wire: MemWire,
) -> Result<(Gateway, Shared, Vec<LibraryEnds>), NoMemory>
    requires config { IsConfig config }
    requires wire { IsUntouched wire }
    ensures over { IfOk result (λ made. IsOver made.1 made.0.engine made.0.wire) }
    ensures ends { IfOk result (λ made. (j : ℕ) (e : TheEnds) → slice_get made.2.items j ≡ Some e → AreLibraryEnds made.1 j e) }
{
    let (engine, shared, ends) = engine_loop::start(alloc, config, MORNING)?;
    let gateway = Gateway {
        engine,
        wire,
        clock: StepClock::new(MORNING),
    };
    Ok((gateway, shared, ends))
}

/// A gateway that made no turn, what it shares with its library, and the library's ends.
pub fn open(
    alloc: Global,
    connections: u32,
    input: &[u8],
    room: usize,
) -> Result<(Gateway, Shared, LibraryEnds), anyhow::Error>
    requires some { 0 < connections }
    requires few { connections ≤ MOST_CONNECTIONS }
    ensures over { IfOk result (λ made. IsOver made.1 made.0.engine made.0.wire) }
    ensures ends { IfOk result (λ made. AreLibraryEnds made.1 0 made.2) }
{
    let wire = wire(alloc, connections, input, room)?;
    let (gateway, shared, ends) = begin(alloc, config(alloc)?, wire)?;
    let ends = ends.into_iter().next().context("a library")?;
    Ok((gateway, shared, ends))
}

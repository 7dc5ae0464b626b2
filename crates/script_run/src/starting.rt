//! A run begins.

ghost use Rattle.std.specs.Prelude.{◌≡◌, ◌≤◌, ℕ, IfOk, Some, false, length, slice_get};
ghost use Rattle.engine_config.specs.Config.{IsConfig};
ghost use Rattle.engine_loop.specs.Starts.{AreLibraryEnds};
ghost use Rattle.gate_io.specs.declared.clocks.TheConstants.{LAST_MOMENT};
ghost use Rattle.script_run.specs.Comes.{next_of};
ghost use Rattle.script_run.specs.Means.{StartsAll, StartsCaller, StartsRun};
ghost use Rattle.script_run.specs.Runs.{IsRunning};
ghost use Rattle.engine_loop.specs.LibraryEnds.{LibraryEnds as TheEnds};
ghost use Rattle.script_text.specs.SoFar.{first_numbers};

use crate::callers::Caller;
use crate::run::Run;
use engine_config::Config;
use engine_loop::LibraryEnds;
use gate_io::{MemWire, NoMemory, StepClock};
use library_api::{Library, LibraryEnds2};
use library_desk::Shared;
use std::alloc::Global;

/// A run as it is configured, of which nothing happened yet. The engine begins at the moment.
pub(crate) fn start(alloc: Global, config: Config, moment: u64) -> Result<(Shared, Run), NoMemory>
    requires config { IsConfig config }
    requires moment { moment ≤ LAST_MOMENT }
    ensures starts { IfOk result (λ made. StartsRun config moment made.0 made.1) }
    ensures running { IfOk result (λ made. IsRunning made.0 made.1) }
    ensures stands { IfOk result (λ made. made.1.engine.failed ≡ false) }
    ensures count { IfOk result (λ made. length made.1.callers.items ≡ config.libraries) }
    ensures made { IfOk result (λ made. next_of made.1.wire ≡ first_numbers) }
{
    let asks = config.asks;
    let (engine, shared, ends) = engine_loop::start(alloc, config, moment)?;
    let callers = callers(alloc, &shared, ends, asks)?;
    let run = Run {
        engine,
        wire: MemWire::new(alloc),
        clock: StepClock::new(0),
        callers,
    };
    Ok((shared, run))
}

/// The libraries with these ends, which made no call. Each may make so many requests.
fn callers(
    alloc: Global,
    _shared: &Shared,
    ends: Vec<LibraryEnds>,
    asks: u32,
) -> Result<Vec<Caller>, NoMemory>
    requires each { (j : ℕ) (e : TheEnds) → slice_get ends.items j ≡ Some e → AreLibraryEnds _shared.now j e }
    ensures { IfOk result (λ callers. StartsAll asks _shared.now ends.items callers.items) }
{
    let mut callers = Vec::with_capacity(alloc, ends.len())?;
    for one in ends {
        let place = count_of(callers.as_slice());
        callers.push(caller(alloc, _shared, place, one, asks))?;
    }
    Ok(callers)
}

/// A library with its ends, which made no call.
fn caller(alloc: Global, _shared: &Shared, _place: usize, ends: LibraryEnds, asks: u32) -> Caller
    requires { AreLibraryEnds _shared.now _place ends }
    ensures { StartsCaller asks _shared.now _place result }
{
    let number = ends.number;
    let ends = LibraryEnds2 {
        number,
        seat: ends.seat,
        tail: ends.tail,
        head: ends.head,
    };
    Caller {
        number,
        library: Library::new(ends, asks),
        calls: Vec::new(alloc),
    }
}

/// How many libraries there are so far.
fn count_of(callers: &[Caller]) -> usize
    ensures { result ≡ length callers.now }
{
    callers.len()
}

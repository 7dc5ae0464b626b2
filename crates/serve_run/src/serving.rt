//! A script, served from its beginning to what it leaves.

ghost use Rattle.std.specs.Prelude.{◌≡◌, ◌≤◌, ℕ, IfErr, IfOk, IsErr, OnErr, OnOk, Some, false, true, length, slice_get, ◌⊎◌};
ghost use Rattle.std.specs.List.{All};
ghost use Rattle.engine_loop.specs.Records.{HasLawfulJournal};
ghost use Rattle.engine_loop.specs.Engines.{IsEngine};
ghost use Rattle.engine_loop.specs.Starts.{AreLibraryEnds};
ghost use Rattle.engine_loop.specs.LibraryEnds.{LibraryEnds as TheEnds};
ghost use Rattle.gate_io.specs.Clock.{TakesReadings};
ghost use Rattle.gate_io.specs.Wire.{Door, Link};
ghost use Rattle.run_report.specs.Records.{no_run};
ghost use Rattle.run_report.specs.Room.{IsRoomFor};
ghost use Rattle.script_text.specs.Lawful.{IsLawful};
ghost use Rattle.serve_run.specs.Meetings.{AreWorkers};
ghost use Rattle.serve_run.specs.Serves.{Concludes, Serves, first_unfinished};
ghost use Rattle.serve_run.specs.Stops.{LeavesInPart, ServesInPart};
ghost use Rattle.serve_run.specs.Workers.{StartsWorkers};

use crate::awaited::Awaited;
use crate::dealing::deal_all;
use crate::leaving::leave;
use crate::meeting::meet_all;
use crate::side_by_side::run_all;
use crate::starting::workers;
use crate::workers::Worker;
use engine_config::Config;
use engine_loop::{Engine, LibraryEnds, start};
use gate_io::{Clock, Dial, Gate, LAST_MOMENT, NoMemory};
use library_desk::Shared;
use run_report::{LibReport, LibraryRoom, RunRecord};
use script_text::{Script, Step};
use std::alloc::Global;
use std::thread::Threads;

/// What a run left that came to its end, and whose turns were spent: 0 for the engine, where connections or
/// libraries were still awaited, or else the first library that gave its plan up.
#[derive(Debug, Drop)]
pub struct Served {
    pub run: RunRecord,
    pub spent: Option<u8>,
}

/// Serves a script over a wire that listens: the engine, and each library with its plan, in threads of their own. The
/// engine makes turns until as many connections as are configured were accepted and ended, as many as `dials` says
/// were dialled and ended, and each library said that all is done; or until it made as many turns as it may. Each
/// library gives its plan up at a line that had as many waiting turns.
///
/// Without memory the run ends, once the libraries have ended too, and leaves what there is, each journal lawful.
///
/// The script is a lawful one of `serve`, as is each that `read_script` reads for it: an engine can be started with
/// its configuration, which has names as a script has them; each step is a line of a library that is there; and
/// sessions and steps have the numbers of their lines, in rising order. `turns` is at least 1. No connection was
/// accepted or dialled over the wire before.
pub fn serve_script<R: Threads + Sync, W: Dial + Send, C: Clock + Send, G: Gate + Sync>(
    rt: &R,
    alloc: Global,
    script: Script,
    turns: u64,
    wire: &mut W,
    clock: &mut C,
    gate: &G,
) -> Result<Served, (NoMemory, RunRecord)>
    requires lawful { IsLawful true script }
    requires turns { 1 ≤ turns }
    // No connection was accepted or dialled over the wire before.
    requires accepted { (W.door wire.old).accepted ≡ 0 }
    requires dialled { (W.door wire.old).dialled ≡ 0 }
    ensures serves { IfOk result (λ served. Serves script turns (G.open_wide gate.now) (λ readings. TakesReadings C.has_read clock.old readings clock.new) (W.door wire.old) (W.door wire.new) (W.link wire.old) (W.link wire.new) served.run served.spent) }
    // Without memory nothing is begun, and nothing asked of the wire; or what engine and libraries did is left.
    ensures in_part { IfErr result (λ e. ((e.1 ≡ no_run) × (wire.new ≡ wire.old)) ⊎ ServesInPart script turns (G.open_wide gate.now) (W.door wire.old) (W.link wire.old) e.1) }
    ensures journals { IfOk result (λ served. All HasLawfulJournal served.run.engine.sessions) }
    ensures journals_short { IfErr result (λ e. All HasLawfulJournal e.1.engine.sessions) }
{
    let Script { config, steps, .. } = script;
    let connections = config.connections as usize + config.dials as usize;
    let libraries = usize::from(config.libraries);
    let asks = config.asks;
    let silence = config.timeout;
    let room = match LibraryRoom::new(alloc, libraries) {
        Ok(room) => room,
        Err(why) => return Err((why, RunRecord::none(alloc))),
    };
    let moment = clock.now().min(LAST_MOMENT);
    let (mut engine, shared, ends) = match start(alloc, config, moment) {
        Ok(made) => made,
        Err(why) => return Err((why, RunRecord::none(alloc))),
    };
    let mut workers = match planned(alloc, &shared, ends, asks, steps.into_inner()) {
        Ok(workers) => workers,
        Err(why) => {
            return match leave(alloc, engine, &shared, Vec::new(alloc), room) {
                Ok(left) | Err((_, left)) => Err((why, left)),
            };
        }
    };
    let mut awaited = Awaited::new(connections, libraries);
    gate.begin(silence);
    let ended = run_all(
        rt,
        alloc,
        &shared,
        gate,
        turns,
        &mut awaited,
        &mut engine,
        wire,
        clock,
        &mut workers,
    );
    conclude(alloc, engine, &shared, workers, room, ended)
}

/// The libraries with their plans.
fn planned(
    alloc: Global,
    shared: &Shared,
    ends: Vec<LibraryEnds>,
    asks: u32,
    steps: Vec<Step>,
) -> Result<Vec<Worker>, NoMemory>
    requires each { (j : ℕ) (e : TheEnds) → slice_get ends.items j ≡ Some e → AreLibraryEnds shared.now j e }
    ensures { IfOk result (λ workers. StartsWorkers asks (length ends.items) shared.now steps.items workers.items) }
{
    let mut workers = workers(alloc, shared, ends, asks)?;
    deal_all(&mut workers, steps)?;
    Ok(workers)
}

/// Ends a run of which engine and libraries have ended: they meet, and what they leave is handed out.
fn conclude(
    alloc: Global,
    mut engine: Engine,
    shared: &Shared,
    mut workers: Vec<Worker>,
    room: LibraryRoom,
    ended: Result<bool, NoMemory>,
) -> Result<Served, (NoMemory, RunRecord)>
    requires engine { (door : Door) × (links : ℕ → Link) × IsEngine shared.now engine door links }
    requires stands { OnOk ended (engine.failed ≡ false) }
    requires workers { AreWorkers shared.now workers.items }
    requires room { IsRoomFor (length workers.items) room }
    ensures concludes { IfOk result (λ served. IfOk ended (λ over. Concludes over engine workers.items served.run served.spent)) }
    ensures in_part { IfErr result (λ e. LeavesInPart engine workers.items e.1) }
    ensures ended { OnErr ended (IsErr result) }
    ensures journals { IfOk result (λ served. All HasLawfulJournal served.run.engine.sessions) }
    ensures journals_short { IfErr result (λ e. All HasLawfulJournal e.1.engine.sessions) }
{
    let over = match ended {
        Ok(over) => over,
        Err(why) => {
            return match leave(alloc, engine, shared, workers, room) {
                Ok(left) | Err((_, left)) => Err((why, left)),
            };
        }
    };
    let is_short = any_short(workers.as_slice());
    meet_all(&mut engine, shared, &mut workers);
    let left = leave(alloc, engine, shared, workers, room)?;
    if is_short {
        return Err((NoMemory::OutOfMemory, left));
    }
    let spent = if over {
        first_unfinished(left.libraries.as_slice())
    } else {
        Some(0)
    };
    Ok(Served { run: left, spent })
}

/// Whether memory was wanting to a library's plan.
fn any_short(workers: &[Worker]) -> bool
    ensures { result ≡ false → All (λ worker. worker.short ≡ false) workers.now }
{
    workers.iter().any(|worker| worker.short)
}

/// The first library that didn't carry out its plan.
fn first_unfinished(reports: &[LibReport]) -> Option<u8>
    ensures { result ≡ first_unfinished reports.now }
{
    for report in reports {
        if !report.finished {
            return Some(report.number);
        }
    }
    None
}

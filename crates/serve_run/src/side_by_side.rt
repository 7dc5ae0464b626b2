//! The engine and the libraries, each in a thread of its own.

ghost use Rattle.std.specs.Prelude.{◌≡◌, ◌≤◌, [], IfOk, OnErr, OnOk, false, true};
ghost use Rattle.std.specs.List.{All};
ghost use Rattle.std.specs.Thread.{IsSync};
ghost use Rattle.engine_loop.specs.Engines.{IsEngine};
ghost use Rattle.engine_loop.specs.Turns.{at_wire};
ghost use Rattle.gate_io.specs.Clock.{TakesReadings};
ghost use Rattle.serve_run.specs.Drives.{DrivesToEnd};
ghost use Rattle.serve_run.specs.Ended.{Awaits};
ghost use Rattle.serve_run.specs.Meetings.{AreWorkers};
ghost use Rattle.serve_run.specs.Stops.{DrivesInPart};
ghost use Rattle.serve_run.specs.Workers.{AllWork, IsReady, IsWorker, Works};

use crate::awaited::Awaited;
use crate::driving::drive;
use crate::workers::Worker;
use engine_loop::Engine;
use gate_io::{Clock, Dial, Gate, NoMemory};
use library_desk::Shared;
use std::alloc::Global;
use std::thread::{Threads, for_each_mut, join_mut};

/// The engine makes its turns while each library carries out its plan. It answers whether all that the run waits for
/// has come, once each library has ended too. Where no further thread can be made, this one does that work as well.
pub(crate) fn run_all<R: Threads + Sync, W: Dial + Send, C: Clock + Send, G: Gate + Sync>(
    rt: &R,
    alloc: Global,
    shared: &Shared,
    gate: &G,
    turns: u64,
    awaited: &mut Awaited,
    engine: &mut Engine,
    wire: &mut W,
    clock: &mut C,
    workers: &mut Vec<Worker>,
) -> Result<bool, NoMemory>
    requires turns { 1 ≤ turns }
    requires engine { IsEngine shared.now engine.old (W.door wire.old) (W.link wire.old) }
    requires stands { engine.old.failed ≡ false }
    requires awaits { Awaits awaited.old.connections awaited.old.libraries [] awaited.old }
    requires ready { All (IsReady shared.now) workers.old.items }
    ensures drives { IfOk result (λ over. DrivesToEnd awaited.old.connections awaited.old.libraries turns over (λ readings. TakesReadings C.has_read clock.old readings clock.new) (at_wire engine.old (W.door wire.old) (W.link wire.old)) (at_wire engine.new (W.door wire.new) (W.link wire.new))) }
    ensures stops { OnErr result (DrivesInPart awaited.old.connections awaited.old.libraries turns (at_wire engine.old (W.door wire.old) (W.link wire.old)) engine.new) }
    ensures engine { IsEngine shared.now engine.new (W.door wire.new) (W.link wire.new) }
    ensures stands { OnOk result (engine.new.failed ≡ false) }
    ensures work { AllWork (G.open_wide gate.now) turns workers.old.items workers.new.items }
    ensures workers { AreWorkers shared.now workers.new.items }
{
    let (ended, ()) = join_mut(
        rt,
        &mut || -> Result<bool, NoMemory>
            requires { IsEngine shared.now engine.now (W.door wire.now) (W.link wire.now) × (engine.now.failed ≡ false) × Awaits awaited.now.connections awaited.now.libraries [] awaited.now }
            ensures { IfOk result (λ over. DrivesToEnd awaited.entry.now.connections awaited.entry.now.libraries turns over (λ readings. TakesReadings C.has_read clock.entry.now readings clock.exit.now) (at_wire engine.entry.now (W.door wire.entry.now) (W.link wire.entry.now)) (at_wire engine.exit.now (W.door wire.exit.now) (W.link wire.exit.now)))
                × IsEngine shared.entry.now engine.exit.now (W.door wire.exit.now) (W.link wire.exit.now)
                × OnOk result (engine.exit.now.failed ≡ false)
                × OnErr result (DrivesInPart awaited.entry.now.connections awaited.entry.now.libraries turns (at_wire engine.entry.now (W.door wire.entry.now) (W.link wire.entry.now)) engine.exit.now) }
        { drive(alloc, shared, turns, awaited, engine, wire, clock, gate) },
        &mut ||
            requires { IsSync R.row × IsSync G.row × (1 ≤ turns) × All (IsReady shared.now) workers.now.items }
            ensures { AllWork (G.open_wide gate.entry.now) turns workers.entry.now.items workers.exit.now.items × AreWorkers shared.entry.now workers.exit.now.items }
        { work_all(rt, alloc, shared, gate, turns, workers) },
    );
    ended
}

/// Each library carries out its plan, in a thread of its own.
fn work_all<R: Threads + Sync, G: Gate + Sync>(
    rt: &R,
    alloc: Global,
    shared: &Shared,
    gate: &G,
    turns: u64,
    workers: &mut Vec<Worker>,
)
    requires turns { 1 ≤ turns }
    requires ready { All (IsReady shared.now) workers.old.items }
    ensures work { AllWork (G.open_wide gate.now) turns workers.old.items workers.new.items }
    ensures workers { AreWorkers shared.now workers.new.items }
{
    let count = workers.len();
    if count == 0 {
        return;
    }
    for_each_mut(
        rt,
        workers.as_mut_slice(),
        count,
        &|_place: usize, worker: &mut Worker|
            requires { (1 ≤ turns) × IsReady shared.now worker.old }
            ensures { Works (G.open_wide gate.entry.now) turns worker.old worker.new × IsWorker shared.entry.now worker.new }
        { worker.work(alloc, shared, gate, turns) },
    );
}

//! The engine and the libraries meet, once, behind their work.

ghost use Rattle.std.specs.Prelude.{◌≡◌, ◌<◌, ℕ, false, length};
ghost use Rattle.engine_loop.specs.Engines.{IsEngine};
ghost use Rattle.gate_io.specs.Wire.{Door, Link};
ghost use Rattle.serve_run.specs.Meetings.{AreWorkers, MeetsWorker, MeetAll, meeting_of};
ghost use Rattle.serve_run.specs.Workers.{IsWorker};

use crate::workers::Worker;
use engine_loop::Engine;
use library_desk::Shared;

/// Tells the engine and each library what the other has done.
pub(crate) fn meet_all(engine: &mut Engine, shared: &Shared, workers: &mut Vec<Worker>)
    requires engine { (door : Door) × (links : ℕ → Link) × IsEngine shared.now engine.old door links }
    requires stands { engine.old.failed ≡ false }
    requires workers { AreWorkers shared.now workers.old.items }
    ensures meet { MeetAll (meeting_of engine.old workers.old.items) (meeting_of engine.new workers.new.items) }
    ensures engine { (door : Door) (links : ℕ → Link) → IsEngine shared.now engine.old door links → IsEngine shared.now engine.new door links }
    ensures stands { engine.new.failed ≡ false }
    ensures workers { AreWorkers shared.now workers.new.items }
    ensures count { length workers.new.items ≡ length workers.old.items }
{
    for place in 0..workers.len() {
        meet(engine, shared, &mut workers[place]);
    }
}

/// Tells the engine and a library what the other has done.
fn meet(engine: &mut Engine, shared: &Shared, worker: &mut Worker)
    requires engine { (door : Door) × (links : ℕ → Link) × IsEngine shared.now engine.old door links }
    requires stands { engine.old.failed ≡ false }
    requires worker { IsWorker shared.now worker.old }
    ensures meets { MeetsWorker engine.old engine.new worker.old worker.new }
    ensures engine { (door : Door) (links : ℕ → Link) → IsEngine shared.now engine.old door links → IsEngine shared.now engine.new door links }
    ensures stands { engine.new.failed ≡ false }
    ensures worker { IsWorker shared.now worker.new }
{
    let number = worker.number;
    let ends = worker.library.ends();
    engine.meet(
        shared,
        number,
        &mut ends.seat,
        &mut ends.tail,
        &mut ends.head,
    );
}

//! What a run leaves.

ghost use Rattle.std.specs.Prelude.{◌≡◌, ℕ, IfErr, IfOk, length, map};
ghost use Rattle.std.specs.List.{All};
ghost use Rattle.engine_loop.specs.Finishing.{Finishes};
ghost use Rattle.engine_loop.specs.Records.{HasLawfulJournal};
ghost use Rattle.engine_loop.specs.Engines.{IsEngine, until_of};
ghost use Rattle.gate_io.specs.Wire.{Door, Link};
ghost use Rattle.engine_loop.specs.Leaving.{LeavesAsItStood};
ghost use Rattle.run_report.specs.Room.{IsRoomFor};
ghost use Rattle.serve_run.specs.Meetings.{AreWorkers};
ghost use Rattle.serve_run.specs.Serves.{LeavesRecord};
ghost use Rattle.serve_run.specs.Workers.{report_of, seat_of};

use crate::workers::Worker;
use engine_loop::Engine;
use engine_loop::laws::engines_leave_as_they_stood;
use gate_io::{NoMemory, Rows};
use lease_words::LibrarySeat;
use library_desk::Shared;
use run_report::{LibReport, LibraryRoom, RunRecord};
use std::alloc::Global;

// What the libraries leave, in the room that was made for it.
fn part_all(workers: Vec<Worker>, mut room: LibraryRoom) -> (Vec<LibrarySeat>, Rows<LibReport>)
    requires { IsRoomFor (length workers.items) room }
    ensures seats { result.0.items ≡ map seat_of workers.items }
    ensures reports { result.1 ≡ map report_of workers.items }
{
    for worker in workers {
        let (seat, report) = part(worker);
        room.put(seat, report);
    }
    room.into_lists()
}

// A library's seat, and what it leaves.
fn part(worker: Worker) -> (LibrarySeat, LibReport)
    ensures seat { result.0 ≡ seat_of worker }
    ensures report { result.1 ≡ report_of worker }
{
    let Worker {
        library,
        report,
        ..
    } = worker;
    (library.seat(), report)
}

/// Ends a run: hands out what engine and libraries leave. Without memory, now or before, that is as it stood.
pub(crate) fn leave(
    alloc: Global,
    engine: Engine,
    shared: &Shared,
    workers: Vec<Worker>,
    room: LibraryRoom,
) -> Result<RunRecord, (NoMemory, RunRecord)>
    requires engine { (door : Door) × (links : ℕ → Link) × IsEngine shared.now engine door links }
    requires workers { AreWorkers shared.now workers.items }
    requires room { IsRoomFor (length workers.items) room }
    ensures leaves { IfOk result (LeavesRecord engine workers.items) }
    // An engine whose turns were whole leaves what one does that stopped between them.
    ensures whole { IfOk result (λ left. LeavesAsItStood (map seat_of workers.items) engine left.engine) }
    ensures in_part { IfErr result (λ e. LeavesAsItStood (map seat_of workers.items) engine e.1.engine) }
    ensures libraries { IfErr result (λ e. e.1.libraries ≡ map report_of workers.items) }
    ensures journals { IfOk result (λ left. All HasLawfulJournal left.engine.sessions) }
    ensures journals_short { IfErr result (λ e. All HasLawfulJournal e.1.engine.sessions) }
{
    engines_leave_as_they_stood();
    let (seats, libraries) = part_all(workers, room);
    match engine.finish(alloc, shared, seats) {
        Ok(engine) => Ok(RunRecord { engine, libraries }),
        Err((why, engine)) => Err((why, RunRecord { engine, libraries })),
    }
}

//! What a run leaves.

ghost use Rattle.std.specs.Prelude.{◌≡◌, IfErr, IfOk, length, map};
ghost use Rattle.std.specs.List.{All};
ghost use Rattle.script_run.specs.Stops.{LeavesInPart};
ghost use Rattle.engine_loop.specs.Records.{HasLawfulJournal};
ghost use Rattle.lease_words.specs.Views.{LibraryView};
ghost use Rattle.run_report.specs.Room.{IsRoomFor};
ghost use Rattle.script_run.specs.Means.{Leaves, report_of, seat_of};
ghost use Rattle.script_run.specs.Runs.{IsRunning};

use crate::callers::Caller;
use crate::run::Run;
use engine_loop::Engine;
use engine_loop::laws::engines_leave_as_they_stood;
use gate_io::{NoMemory, Rows};
use lease_words::LibrarySeat;
use library_calls::reads_of;
use library_desk::Shared;
use run_report::{LibReport, LibraryRoom, RunRecord};
use std::alloc::Global;

// What the libraries leave, in the room that was made for it.
fn part_all(callers: Vec<Caller>, mut room: LibraryRoom) -> (Vec<LibrarySeat>, Rows<LibReport>)
    requires { IsRoomFor (length callers.items) room }
    ensures seats { result.0.items ≡ map seat_of callers.items }
    ensures reports { result.1 ≡ map report_of callers.items }
{
    for caller in callers {
        let (seat, report) = part(caller);
        room.put(seat, report);
    }
    room.into_lists()
}

// A library's seat, and what it leaves.
fn part(caller: Caller) -> (LibrarySeat, LibReport)
    ensures seat { result.0 ≡ seat_of caller }
    ensures report { result.1 ≡ report_of caller }
{
    let Caller {
        number,
        library,
        calls,
    } = caller;
    let report = LibReport {
        number,
        reads: reads_of(calls.as_slice()),
        calls: Rows::of(calls),
        finished: true,
        waited: library.waited(),
    };
    (library.seat(), report)
}

impl Run {
    /// Ends a run: hands out what it leaves. Without memory that is as it stood.
    pub(crate) fn leave(
        self,
        alloc: Global,
        shared: &Shared,
        room: LibraryRoom,
    ) -> Result<RunRecord, (NoMemory, RunRecord)>
        requires running { IsRunning shared.now self }
        requires room { IsRoomFor (length self.callers.items) room }
        ensures leaves { IfOk result (Leaves self) }
        // A run whose turns were whole leaves what one does that stopped between them.
        ensures whole { IfOk result (LeavesInPart self) }
        ensures in_part { IfErr result (λ e. LeavesInPart self e.1) }
        ensures libraries { IfErr result (λ e. e.1.libraries ≡ map report_of self.callers.items) }
        ensures journals { IfOk result (λ left. All HasLawfulJournal left.engine.sessions) }
        ensures journals_short { IfErr result (λ e. All HasLawfulJournal e.1.engine.sessions) }
    {
        engines_leave_as_they_stood();
        let Run {
            engine,
            callers,
            ..
        } = self;
        let (seats, libraries) = part_all(callers, room);
        match engine.finish(alloc, shared, seats) {
            Ok(engine) => Ok(RunRecord { engine, libraries }),
            Err((why, engine)) => Err((why, RunRecord { engine, libraries })),
        }
    }
}

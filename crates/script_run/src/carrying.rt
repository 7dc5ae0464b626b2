//! A script, carried out from its first step to its last.

ghost use Rattle.std.specs.Prelude.{◌≡◌, ◌≤◌, IfErr, IfOk, false, length, ◌⊎◌};
ghost use Rattle.std.specs.List.{All};
ghost use Rattle.run_report.specs.Records.{no_run};
ghost use Rattle.run_report.specs.Room.{IsRoomFor};
ghost use Rattle.script_run.specs.Stops.{LeadsInPart, MeansInPart};
ghost use Rattle.engine_loop.specs.Records.{HasLawfulJournal};
ghost use Rattle.script_run.specs.Comes.{FitBehind};
ghost use Rattle.script_run.specs.Means.{LeadsTo, Means, first_moment};
ghost use Rattle.script_run.specs.Runs.{IsRunning};
ghost use Rattle.script_text.specs.Lawful.{IsLawful};

use crate::run::Run;
use crate::starting::start;
use gate_io::NoMemory;
use library_desk::Shared;
use run_report::{LibraryRoom, RunRecord};
use script_text::{Script, Step};
use std::alloc::Global;

/// Carries out a script on one thread: the engine over a wire and a clock in memory, and the libraries, whose
/// calls meet the engine. It takes time in proportion to the script and to what follows from it. Without
/// memory the run ends and leaves what there is, each journal lawful.
///
/// The script is a lawful one of `replay`, as is each that `read_script` reads for it, and each drill: an
/// engine can be started with its configuration, which has names as a script has them, a connection for each
/// `connect` line, and as many dials as can be; each step is one of `replay` and fits behind those before it;
/// and sessions and steps have the numbers of their lines, in rising order.
pub fn carry_out(alloc: Global, script: Script) -> Result<RunRecord, (NoMemory, RunRecord)>
    requires lawful { IsLawful false script }
    ensures means { IfOk result (Means script) }
    // Without memory the run doesn't begin, or so many steps are carried out, and of one a beginning.
    ensures in_part { IfErr result (λ e. (e.1 ≡ no_run) ⊎ MeansInPart script e.1) }
    ensures journals { IfOk result (λ left. All HasLawfulJournal left.engine.sessions) }
    ensures journals_short { IfErr result (λ e. All HasLawfulJournal e.1.engine.sessions) }
{
    let Script { config, steps, .. } = script;
    let steps = steps.as_slice();
    let room = match LibraryRoom::new(alloc, usize::from(config.libraries)) {
        Ok(room) => room,
        Err(why) => return Err((why, RunRecord::none(alloc))),
    };
    match start(alloc, config, first_moment(steps)) {
        Ok((shared, run)) => carry_to_end(alloc, &shared, run, room, steps),
        Err(why) => Err((why, RunRecord::none(alloc))),
    }
}

/// Carries out the steps from the beginning on, and hands out what the run leaves.
fn carry_to_end(
    alloc: Global,
    shared: &Shared,
    mut run: Run,
    room: LibraryRoom,
    steps: &[Step],
) -> Result<RunRecord, (NoMemory, RunRecord)>
    requires running { IsRunning shared.now run }
    requires stands { run.engine.failed ≡ false }
    requires fit { FitBehind (length run.callers.items) run.wire steps.now }
    requires room { IsRoomFor (length run.callers.items) room }
    ensures leads { IfOk result (LeadsTo steps.now run) }
    ensures in_part { IfErr result (λ e. LeadsInPart steps.now run e.1) }
    ensures journals { IfOk result (λ left. All HasLawfulJournal left.engine.sessions) }
    ensures journals_short { IfErr result (λ e. All HasLawfulJournal e.1.engine.sessions) }
{
    match run.carry_all(alloc, shared, steps) {
        Ok(()) => run.leave(alloc, shared, room),
        Err(why) => match run.leave(alloc, shared, room) {
            Ok(left) | Err((_, left)) => Err((why, left)),
        },
    }
}

/// The moment of the first step that sets the clock, or 0.
fn first_moment(steps: &[Step]) -> u64
    ensures { result ≡ first_moment steps.now }
{
    for step in steps {
        if let Step::At { moment } = step {
            return *moment;
        }
    }
    0
}

//! A plan, from its first line to the word that all is done.

ghost use Rattle.std.specs.Prelude.{◌≡◌, ◌≤◌, IfErr, IfOk, None, false, length, true};
ghost use Rattle.library_api.specs.Ends.{belongings};
ghost use Rattle.plan_runner.specs.Calls.{PlanCalls, StandCalls};
ghost use Rattle.plan_runner.specs.Ends.{EndsTold, RunsPlan, RunsShort, TellsDone, report_of};
ghost use Rattle.plan_runner.specs.Lines.{IsPlanOf};
ghost use Rattle.plan_runner.specs.Stages.{stage_of};
ghost use Rattle.plan_runner.specs.Waits.{CountsIdle, WaitsAtLine};

use crate::telling::tell_done;
use crate::work::Work;
use gate_io::{Gate, NoMemory, Rows};
use library_api::{Library, Links};
use library_calls::reads_of;
use run_report::LibReport;
use script_text::Step;
use std::alloc::Global;

/// Carries out the plan of the library with this number, and reports its calls in order. Before each call the gate is
/// asked, with the number of times that it was asked before.
///
/// A send that finds its lane full, a request that finds the ring full, and a poll of `answer` or `read` that finds
/// nothing to take up are made again and not reported. Each of these answers, and each time that the gate doesn't let
/// the library pass, is a waiting turn; a reported call sets their number to 0. Behind a call the gate is told whether
/// it was reported: if not, the library may wait there. At a line that had `turns` waiting turns the plan is given up. At the end the engine is told whether the plan was carried out whole, again while the
/// ring of commands has no room, by at most `turns` calls, of which the gate isn't asked. `waited` is how long the
/// library had waited before that.
///
/// Without memory no further line is carried out, the engine is told so, and what was done is reported with the error.
///
/// `turns` is at least 1. `number` is that of the library's seat, and the plan has `lib` lines of this number alone.
/// No request of the library is open. The links are to the lease table of its seat and to the two rings of its ends.
pub fn run_plan<G: Gate>(
    alloc: Global,
    library: &mut Library,
    links: &Links,
    number: u8,
    plan: &[Step],
    gate: &G,
    turns: u64,
) -> Result<LibReport, (NoMemory, LibReport)>
    requires turns { 1 ≤ turns }
    requires number { number ≡ library.old.ends.seat.knows.number }
    requires plan { IsPlanOf number plan.now }
    requires closed { library.old.unanswered ≡ None }
    requires table { library.old.ends.seat.table ≡ links.now.leases.now }
    requires tail { library.old.ends.tail.ring ≡ links.now.commands.now }
    requires head { library.old.ends.head.ring ≡ links.now.notices.now }
    ensures runs { IfOk result (RunsPlan (G.open_wide gate.now) turns number plan.now library.old library.new) }
    ensures short { IfErr result (λ e. RunsShort (G.open_wide gate.now) turns number plan.now library.old library.new e.1) }
    ensures calls { IfOk result (λ report. report.finished ≡ true → PlanCalls number plan.now (length plan.now) report.calls) }
    ensures calls_given_up { IfOk result (λ report. report.finished ≡ false → StandCalls number plan.now report.calls) }
    ensures calls_short { IfErr result (λ e. StandCalls number plan.now e.1.calls) }
    ensures waited { G.open_wide gate.now ≡ true → IfOk result (λ report. report.finished ≡ false → WaitsAtLine turns number plan.now report.calls report.waited) }
    ensures counts { G.open_wide gate.now ≡ true → IfOk result (λ report. report.finished ≡ false → CountsIdle turns report.calls report.waited) }
    ensures unfinished { IfErr result (λ e. e.1.finished ≡ false) }
    ensures told { IfOk result (λ report. EndsTold report.finished turns library.new) }
    ensures told_short { IfErr result (λ e. EndsTold e.1.finished turns library.new) }
    ensures belongings { belongings library.new.ends ≡ belongings library.old.ends }
{
    let mut work = Work {
        number,
        turns,
        passes: 0,
        calls: Vec::new(alloc),
        left: 0,
    };
    let outcome = work.carry_all(alloc, library, links, gate, plan);
    match outcome {
        Ok(finished) => Ok(end(work, library, links, gate, finished)),
        Err(why) => Err((why, end(work, library, links, gate, false))),
    }
}

// Ends a plan: tells the engine, and reports what was done.
fn end<G: Gate>(
    work: Work,
    library: &mut Library,
    links: &Links,
    gate: &G,
    finished: bool,
) -> LibReport
    requires tail { library.old.ends.tail.ring ≡ links.now.commands.now }
    requires some { 1 ≤ work.turns }
    ensures report { result ≡ report_of work.number finished (stage_of library.old work) }
    ensures tells { TellsDone finished work.turns library.old library.new }
    ensures told { EndsTold finished work.turns library.new }
    ensures belongings { belongings library.new.ends ≡ belongings library.old.ends }
{
    let waited = library.waited();
    tell_done(library, links, work.number, finished, gate, work.turns);
    LibReport {
        number: work.number,
        reads: reads_of(work.calls.as_slice()),
        calls: Rows::of(work.calls),
        finished,
        waited,
    }
}

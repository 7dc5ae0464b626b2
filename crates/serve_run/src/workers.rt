//! A library of a run, and its work: it carries out its plan.

ghost use Rattle.std.specs.Prelude.{◌≡◌, ◌≤◌};
ghost use Rattle.serve_run.specs.Workers.{IsReady, IsWorker, Works};

use gate_io::Gate;
use library_api::{Library, Links};
use library_desk::Shared;
use plan_runner::run_plan;
use run_report::LibReport;
use script_text::Step;
use std::alloc::Global;

/// A library as a run has it, with its number, its plan and what it reports.
#[derive(Drop)]
pub struct Worker {
    pub(crate) number: u8,
    pub(crate) library: Library,
    pub(crate) plan: Vec<Step>,
    pub(crate) report: LibReport,
    /// Memory was wanting to its plan.
    pub(crate) short: bool,
}

impl Worker {
    /// Carries out the plan, or gives it up, and keeps what is reported of it.
    pub(crate) fn work<G: Gate>(&mut self, alloc: Global, shared: &Shared, gate: &G, turns: u64)
        requires turns { 1 ≤ turns }
        requires ready { IsReady shared.now self.old }
        ensures works { Works (G.open_wide gate.now) turns self.old self.new }
        ensures worker { IsWorker shared.now self.new }
    {
        let place = usize::from(self.number - 1);
        let links = Links {
            leases: &shared.leases,
            commands: &shared.commands[place],
            notices: &shared.notices[place],
        };
        let plan = self.plan.as_slice();
        match run_plan(
            alloc,
            &mut self.library,
            &links,
            self.number,
            plan,
            gate,
            turns,
        ) {
            Ok(report) => {
                self.report = report;
                self.short = false;
            }
            Err((_, report)) => {
                self.report = report;
                self.short = true;
            }
        }
    }
}

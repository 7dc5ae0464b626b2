//! A library's plan as it is carried out.

ghost use Rattle.std.specs.Prelude.{◌≡◌, ◌<◌, true, false, IfOk, OnErr};
ghost use Rattle.library_api.specs.Ends.{belongings};
ghost use Rattle.library_calls.specs.Calls.{MakesCall};
ghost use Rattle.plan_runner.specs.Lines.{IsPlanOf, call_of};
ghost use Rattle.plan_runner.specs.Plans.{CarriesPlan, PlanStands, PlanStandsFew};
ghost use Rattle.plan_runner.specs.Stages.{stage_of};
ghost use Rattle.plan_runner.specs.Turns.{Advances, CallsInVain, CarriesLine, Reports, StandsFew, StandsFor, WaitsFew, WaitsFor, WaitsOnce};

use crate::lines::{act_of, is_vain, lack_of, left_after, left_first};
use gate_io::{Gate, NoMemory};
use library_api::{Library, Links};
use library_calls::make_call;
use run_report::Call;
use script_text::{LibStep, Step};
use std::alloc::Global;

/// What a library has done of its plan: the calls that it reports, how much is left of the line that stands, and how
/// often it asked the gate.
#[derive(Drop)]
pub(crate) struct Work {
    pub(crate) number: u8,
    pub(crate) turns: u64,
    pub(crate) passes: u64,
    pub(crate) calls: Vec<Call>,
    pub(crate) left: u64,
}

impl Work {
    /// Asks the gate whether the library may make its next call.
    fn pass<G: Gate>(&mut self, gate: &G) -> bool
        ensures open { G.open_wide gate.now ≡ true → result ≡ true }
        ensures rest { self.new ≡ record self.old { passes = self.new.passes } }
    {
        let pass = self.passes;
        self.passes = pass.saturating_add(1);
        gate.pass(u32::from(self.number), pass)
    }

    /// Makes the call that a line is, once, and reports it where it isn't to be made again. Answers whether it is
    /// reported.
    fn call(
        &mut self,
        alloc: Global,
        library: &mut Library,
        links: &Links,
        line: &LibStep,
    ) -> Result<bool, NoMemory>
        requires table { library.old.ends.seat.table ≡ links.now.leases.now }
        requires tail { library.old.ends.tail.ring ≡ links.now.commands.now }
        requires head { library.old.ends.head.ring ≡ links.now.notices.now }
        ensures waits { IfOk result (λ told. told ≡ false → CallsInVain line.now (stage_of library.old self.old) (stage_of library.new self.new)) }
        ensures reports { IfOk result (λ told. told ≡ true → Reports line.now (stage_of library.old self.old) (stage_of library.new self.new)) }
        ensures short { OnErr result (stage_of library.new self.new ≡ stage_of library.old self.old) }
        ensures belongings { belongings library.new.ends ≡ belongings library.old.ends }
        ensures rest { self.new ≡ record self.old { calls = self.new.calls; left = self.new.left } }
    {
        self.calls.reserve(1)?;
        let call = make(alloc, library, links, line)?;
        if is_vain(line, &call) {
            return Ok(false);
        }
        self.left = left_after(line, &call, library.asking(), self.left);
        self.calls.push(call).unwrap();
        Ok(true)
    }

    /// A turn: the library makes its call where the gate lets it. Answers whether the call is reported; else the turn
    /// is a waiting one.
    fn turn<G: Gate>(
        &mut self,
        alloc: Global,
        library: &mut Library,
        links: &Links,
        gate: &G,
        line: &LibStep,
    ) -> Result<bool, NoMemory>
        requires table { library.old.ends.seat.table ≡ links.now.leases.now }
        requires tail { library.old.ends.tail.ring ≡ links.now.commands.now }
        requires head { library.old.ends.head.ring ≡ links.now.notices.now }
        ensures waits { IfOk result (λ told. told ≡ false → WaitsOnce (G.open_wide gate.now) line.now (stage_of library.old self.old) (stage_of library.new self.new)) }
        ensures reports { IfOk result (λ told. told ≡ true → Reports line.now (stage_of library.old self.old) (stage_of library.new self.new)) }
        ensures short { OnErr result (stage_of library.new self.new ≡ stage_of library.old self.old) }
        ensures belongings { belongings library.new.ends ≡ belongings library.old.ends }
        ensures rest { self.new ≡ record self.old { passes = self.new.passes; calls = self.new.calls; left = self.new.left } }
    {
        if !self.pass(gate) {
            return Ok(false);
        }
        let told = self.call(alloc, library, links, line)?;
        self.rest(gate, line, told);
        Ok(told)
    }

    /// Tells the gate whether the call of a line was in vain: there the library may wait before it makes it again.
    fn rest<G: Gate>(&self, gate: &G, line: &LibStep, told: bool) {
        let lib = u32::from(self.number);
        if told {
            gate.acted(lib);
        } else {
            gate.wait(lib, lack_of(line));
        }
    }

    /// Takes turns until a call is reported. Answers whether one was: else as many were waiting ones as give a plan up.
    fn advance<G: Gate>(
        &mut self,
        alloc: Global,
        library: &mut Library,
        links: &Links,
        gate: &G,
        line: &LibStep,
    ) -> Result<bool, NoMemory>
        requires table { library.old.ends.seat.table ≡ links.now.leases.now }
        requires tail { library.old.ends.tail.ring ≡ links.now.commands.now }
        requires head { library.old.ends.head.ring ≡ links.now.notices.now }
        requires some { 0 < self.old.left }
        ensures waits { IfOk result (λ told. told ≡ false → WaitsFor (G.open_wide gate.now) line.now self.old.turns (stage_of library.old self.old) (stage_of library.new self.new)) }
        ensures advances { IfOk result (λ told. told ≡ true → Advances (G.open_wide gate.now) self.old.turns line.now (stage_of library.old self.old) (stage_of library.new self.new)) }
        ensures short { OnErr result (WaitsFew (G.open_wide gate.now) self.old.turns line.now (stage_of library.old self.old) (stage_of library.new self.new)) }
        ensures belongings { belongings library.new.ends ≡ belongings library.old.ends }
        ensures rest { self.new ≡ record self.old { passes = self.new.passes; calls = self.new.calls; left = self.new.left } }
    {
        'waiting: for _waits in 0..self.turns {
            if self.turn(alloc, library, links, gate, line)? {
                return Ok(true);
            }
        }
        Ok(false)
    }

    /// Carries a line out. Answers whether it did: else the plan is to be given up at it.
    fn carry<G: Gate>(
        &mut self,
        alloc: Global,
        library: &mut Library,
        links: &Links,
        gate: &G,
        line: &LibStep,
    ) -> Result<bool, NoMemory>
        requires table { library.old.ends.seat.table ≡ links.now.leases.now }
        requires tail { library.old.ends.tail.ring ≡ links.now.commands.now }
        requires head { library.old.ends.head.ring ≡ links.now.notices.now }
        ensures carries { IfOk result (λ all. all ≡ true → CarriesLine (G.open_wide gate.now) self.old.turns line.now (stage_of library.old self.old) (stage_of library.new self.new)) }
        ensures given_up { IfOk result (λ all. all ≡ false → StandsFor (G.open_wide gate.now) self.old.turns line.now self.old.turns (stage_of library.old self.old) (stage_of library.new self.new)) }
        ensures short { OnErr result (StandsFew (G.open_wide gate.now) self.old.turns line.now (stage_of library.old self.old) (stage_of library.new self.new)) }
        ensures belongings { belongings library.new.ends ≡ belongings library.old.ends }
        ensures rest { self.new ≡ record self.old { passes = self.new.passes; calls = self.new.calls; left = self.new.left } }
    {
        self.left = left_first(line, library.asking());
        'line: while 0 < self.left {
            if !self.advance(alloc, library, links, gate, line)? {
                return Ok(false);
            }
        }
        Ok(true)
    }

    /// Carries the lines of a plan out, up to the first at which the plan is to be given up. Answers whether there is
    /// none.
    pub(crate) fn carry_all<G: Gate>(
        &mut self,
        alloc: Global,
        library: &mut Library,
        links: &Links,
        gate: &G,
        plan: &[Step],
    ) -> Result<bool, NoMemory>
        requires plan { IsPlanOf self.old.number plan.now }
        requires table { library.old.ends.seat.table ≡ links.now.leases.now }
        requires tail { library.old.ends.tail.ring ≡ links.now.commands.now }
        requires head { library.old.ends.head.ring ≡ links.now.notices.now }
        ensures carries { IfOk result (λ all. all ≡ true → CarriesPlan (G.open_wide gate.now) self.old.turns self.old.number plan.now (stage_of library.old self.old) (stage_of library.new self.new)) }
        ensures given_up { IfOk result (λ all. all ≡ false → PlanStands (G.open_wide gate.now) self.old.turns self.old.number plan.now self.old.turns (stage_of library.old self.old) (stage_of library.new self.new)) }
        ensures short { OnErr result (PlanStandsFew (G.open_wide gate.now) self.old.turns self.old.number plan.now (stage_of library.old self.old) (stage_of library.new self.new)) }
        ensures belongings { belongings library.new.ends ≡ belongings library.old.ends }
        ensures rest { self.new ≡ record self.old { passes = self.new.passes; calls = self.new.calls; left = self.new.left } }
    {
        'lines: for step in plan {
            if !self.carry(alloc, library, links, gate, act_of(step, self.number))? {
                return Ok(false);
            }
        }
        Ok(true)
    }
}

// Makes the call that a line is.
fn make(
    alloc: Global,
    library: &mut Library,
    links: &Links,
    line: &LibStep,
) -> Result<Call, NoMemory>
    requires table { library.old.ends.seat.table ≡ links.now.leases.now }
    requires tail { library.old.ends.tail.ring ≡ links.now.commands.now }
    requires head { library.old.ends.head.ring ≡ links.now.notices.now }
    ensures makes { IfOk result (λ call. MakesCall (call_of line.now) call library.old library.new) }
    ensures err { OnErr result (library.new ≡ library.old) }
    ensures belongings { belongings library.new.ends ≡ belongings library.old.ends }
{
    match line {
        LibStep::Answer | LibStep::Read { .. } => make_call(alloc, library, links, &LibStep::Poll),
        _ => make_call(alloc, library, links, line),
    }
}

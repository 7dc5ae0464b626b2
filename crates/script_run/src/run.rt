//! A run, and what each step of a script does to it.

ghost use Rattle.std.specs.Prelude.{◌≡◌, ◌<◌, ℕ, OnOk, false, length, OnErr};
ghost use Rattle.engine_loop.specs.Stops.{StopsTurn};
ghost use Rattle.script_run.specs.Stops.{KeepsBoard, StopsAlong, StopsInStep};
ghost use Rattle.engine_loop.specs.Turns.{MakesTurn, at_wire};
ghost use Rattle.engine_loop.specs.declared.engine.Engine.{Engine};
ghost use Rattle.engine_loop.specs.declared.records.Turn.{Turn};
ghost use Rattle.gate_io.specs.MemWire.{WireState, door_of, link_at};
ghost use Rattle.script_run.specs.Comes.{FitBehind, FitsOn, next_of};
ghost use Rattle.script_run.specs.Runs.{CallsAt, CallsBetween, Carries, CarriesOut, ComesAtWire, IsRunning, Meets, TurnsOver, with_room};
ghost use Rattle.script_text.specs.Lawful.{ActFits};
ghost use Rattle.script_text.specs.SoFar.{numbers_with};

use crate::callers::Caller;
use crate::coming::{come, make_room};
use crate::meeting::meet;
use engine_loop::Engine;
use engine_loop::laws::engines_stay;
use gate_io::{MemWire, NoMemory, StepClock};
use library_api::Links;
use library_desk::Shared;
use script_text::{LibStep, Step};
use std::alloc::Global;

/// A run: the engine, the outside as the script makes it, and the libraries in the order of their numbers. What
/// a script means is told over runs.
#[derive(Drop)]
pub struct Run {
    pub(crate) engine: Engine,
    pub(crate) wire: MemWire,
    pub(crate) clock: StepClock,
    pub(crate) callers: Vec<Caller>,
}

impl Run {
    /// Carries out a step. Without memory what was done of it stays.
    pub(crate) fn carry(
        &mut self,
        alloc: Global,
        shared: &Shared,
        step: &Step,
    ) -> Result<(), NoMemory>
        requires running { IsRunning shared.now self.old }
        requires stands { self.old.engine.failed ≡ false }
        requires fits { FitsOn (length self.old.callers.items) self.old.wire step.now }
        ensures stops { OnErr result (StopsInStep self.old self.new) }
        ensures carries { OnOk result (Carries step.now self.old self.new) }
        ensures running { IsRunning shared.now self.new }
        ensures stands { OnOk result (self.new.engine.failed ≡ false) }
        ensures made { OnOk result (next_of self.new.wire ≡ numbers_with step.now (next_of self.old.wire)) }
        ensures count { length self.new.callers.items ≡ length self.old.callers.items }
    {
        match step {
            Step::At { moment } => {
                self.clock.set(*moment);
                Ok(())
            }
            Step::Turn => self.turn(alloc, shared),
            Step::Lib { library, act } => self.call(alloc, shared, usize::from(*library - 1), act),
            _ => self.come(alloc, shared, step),
        }
    }

    /// Something comes at the wire.
    fn come(&mut self, alloc: Global, _shared: &Shared, step: &Step) -> Result<(), NoMemory>
        requires running { IsRunning _shared.now self.old }
        requires fits { FitsOn (length self.old.callers.items) self.old.wire step.now }
        ensures comes { OnOk result (ComesAtWire step.now self.old self.new) }
        ensures running { IsRunning _shared.now self.new }
        ensures engine { self.new.engine ≡ self.old.engine }
        ensures callers { self.new.callers ≡ self.old.callers }
        ensures made { OnOk result (next_of self.new.wire ≡ numbers_with step.now (next_of self.old.wire)) }
    {
        engines_stay();
        come(alloc, &mut self.wire, step, self.callers.len())
    }

    /// The engine makes a turn, in which each connection that isn't closed has room for what is written to it.
    fn turn(&mut self, alloc: Global, shared: &Shared) -> Result<(), NoMemory>
        requires running { IsRunning shared.now self.old }
        requires stands { self.old.engine.failed ≡ false }
        ensures stops { OnErr result (StopsInStep self.old self.new) }
        ensures turns { OnOk result (TurnsOver (with_room self.old) self.new) }
        ensures running { IsRunning shared.now self.new }
        ensures stands { OnOk result (self.new.engine.failed ≡ false) }
        ensures made { OnOk result (next_of self.new.wire ≡ next_of self.old.wire) }
        ensures callers { self.new.callers ≡ self.old.callers }
    {
        self.make_room(alloc, shared)?;
        self.turn_over(alloc, shared)
    }

    /// Each connection that isn't closed has room for what a turn writes to it.
    fn make_room(&mut self, alloc: Global, _shared: &Shared) -> Result<(), NoMemory>
        requires running { IsRunning _shared.now self.old }
        ensures room { OnOk result (self.new ≡ with_room self.old) }
        ensures running { IsRunning _shared.now self.new }
        ensures made { next_of self.new.wire ≡ next_of self.old.wire }
        ensures engine { self.new.engine ≡ self.old.engine }
        ensures callers { self.new.callers ≡ self.old.callers }
    {
        engines_stay();
        make_room(alloc, &mut self.wire)
    }

    /// The engine makes a turn over the wire as it is.
    fn turn_over(&mut self, alloc: Global, shared: &Shared) -> Result<(), NoMemory>
        requires running { IsRunning shared.now self.old }
        requires stands { self.old.engine.failed ≡ false }
        ensures stops { OnErr result ((reading : ℕ) × StopsTurn reading (at_wire self.old.engine (door_of self.old.wire) (link_at self.old.wire)) self.new.engine) }
        ensures turns { OnOk result (TurnsOver self.old self.new) }
        ensures running { IsRunning shared.now self.new }
        ensures stands { OnOk result (self.new.engine.failed ≡ false) }
        ensures made { OnOk result (next_of self.new.wire ≡ next_of self.old.wire) }
        ensures callers { self.new.callers ≡ self.old.callers }
    {
        turns_make_no_connection();
        let _turn = self
            .engine
            .turn(alloc, shared, &mut self.wire, &mut self.clock)?;
        Ok(())
    }

    /// A library calls, and meets the engine before and behind the call.
    fn call(
        &mut self,
        alloc: Global,
        shared: &Shared,
        place: usize,
        act: &LibStep,
    ) -> Result<(), NoMemory>
        requires running { IsRunning shared.now self.old }
        requires stands { self.old.engine.failed ≡ false }
        requires place { place < length self.old.callers.items }
        requires fits { ActFits false act.now }
        ensures keeps { OnErr result (KeepsBoard self.old.engine self.new.engine) }
        ensures calls { OnOk result (CallsBetween act.now place self.old self.new) }
        ensures running { IsRunning shared.now self.new }
        ensures stands { self.new.engine.failed ≡ false }
        ensures wire { self.new.wire ≡ self.old.wire }
        ensures count { length self.new.callers.items ≡ length self.old.callers.items }
    {
        self.meet(shared, place);
        self.call_at(alloc, shared, place, act)?;
        self.meet(shared, place);
        Ok(())
    }

    /// The engine and a library meet.
    fn meet(&mut self, shared: &Shared, place: usize)
        requires running { IsRunning shared.now self.old }
        requires stands { self.old.engine.failed ≡ false }
        requires place { place < length self.old.callers.items }
        ensures meets { Meets place self.old self.new }
        ensures running { IsRunning shared.now self.new }
        ensures stands { self.new.engine.failed ≡ false }
        ensures wire { self.new.wire ≡ self.old.wire }
        ensures count { length self.new.callers.items ≡ length self.old.callers.items }
    {
        meet(&mut self.engine, shared, &mut self.callers[place], place);
    }

    /// A library calls.
    fn call_at(
        &mut self,
        alloc: Global,
        shared: &Shared,
        place: usize,
        act: &LibStep,
    ) -> Result<(), NoMemory>
        requires running { IsRunning shared.now self.old }
        requires place { place < length self.old.callers.items }
        requires fits { ActFits false act.now }
        ensures calls { OnOk result (CallsAt act.now place self.old self.new) }
        ensures running { IsRunning shared.now self.new }
        ensures engine { self.new.engine ≡ self.old.engine }
        ensures wire { self.new.wire ≡ self.old.wire }
        ensures count { length self.new.callers.items ≡ length self.old.callers.items }
    {
        let links = Links {
            leases: &shared.leases,
            commands: &shared.commands[place],
            notices: &shared.notices[place],
        };
        self.callers[place].call(alloc, &links, act)
    }

    /// Carries out steps in their order, up to the first for which memory is wanting.
    pub(crate) fn carry_all(
        &mut self,
        alloc: Global,
        shared: &Shared,
        steps: &[Step],
    ) -> Result<(), NoMemory>
        requires running { IsRunning shared.now self.old }
        requires stands { self.old.engine.failed ≡ false }
        requires fit { FitBehind (length self.old.callers.items) self.old.wire steps.now }
        ensures stops { OnErr result (StopsAlong steps.now self.old self.new) }
        ensures carries { OnOk result (CarriesOut steps.now (length steps.now) self.old self.new) }
        ensures running { IsRunning shared.now self.new }
        ensures count { length self.new.callers.items ≡ length self.old.callers.items }
    {
        for step in steps {
            self.carry(alloc, shared, step)?;
        }
        Ok(())
    }
}

/// A turn makes no connection on a wire in memory: it asks for those that were made.
fn turns_make_no_connection()
    ensures { (old new : WireState) (reading : ℕ) (before after : Engine) (turn : Turn) → MakesTurn reading (at_wire before (door_of old) (link_at old)) (at_wire after (door_of new) (link_at new)) turn → next_of new ≡ next_of old }
{}

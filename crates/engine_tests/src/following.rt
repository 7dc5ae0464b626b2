//! Lines happen in order.

ghost use Rattle.std.specs.Prelude.{◌≡◌, OnOk};
ghost use Rattle.engine_tests.specs.Outside.{IsOver};

use crate::gateway::Gateway;
use crate::left::left_instead_of;
use crate::libraries::Libraries;
use crate::playing::play;
use crate::reading::{left_of, step_of};
use crate::steps::Step;
use crate::told::Instead;
use engine_end::EngineRecord;
use gate_io::NoMemory;
use library_desk::Shared;
use row_text::{Course, Fault, Step as Line};
use std::alloc::Global;

/// What is wrong with a line that came to this in place of what it says.
fn fault_of<'a>(line: &Line<'a>, instead: Instead) -> Option<Fault<'a>> {
    let found = instead?;
    Some(Fault::Differs {
        line: line.line,
        wanted: Some(line.text),
        found: Some(found),
    })
}

/// What is wrong with a line, once what it says was done.
fn follow_line<'a>(
    alloc: Global,
    shared: &Shared,
    gateway: &mut Gateway,
    libraries: &mut Libraries<'_>,
    line: &Line<'a>,
) -> Result<Option<Fault<'a>>, NoMemory>
    requires running { IsOver shared.now gateway.old.engine gateway.old.wire.wire }
    ensures running { OnOk result (IsOver shared.now gateway.new.engine gateway.new.wire.wire) }
    ensures first { libraries.new.first.links ≡ libraries.old.first.links }
    ensures second { libraries.new.second.links ≡ libraries.old.second.links }
    ensures third { libraries.new.third.links ≡ libraries.old.third.links }
{
    let instead = match step_of(line.text) {
        Some(Step::OfLibrary(library, act)) => libraries.play(alloc, library, act),
        Some(step) => play(alloc, shared, gateway, step),
        None => return Ok(Some(Fault::Unclear(*line))),
    }?;
    Ok(fault_of(line, instead))
}

/// Makes the lines' steps in order, up to the first that doesn't come to what it says.
pub(crate) fn follow<'a>(
    alloc: Global,
    shared: &Shared,
    gateway: &mut Gateway,
    libraries: &mut Libraries<'_>,
    lines: &[Line<'a>],
) -> Result<Course<'a>, NoMemory>
    requires running { IsOver shared.now gateway.old.engine gateway.old.wire.wire }
    ensures running { OnOk result (IsOver shared.now gateway.new.engine gateway.new.wire.wire) }
    ensures first { libraries.new.first.links ≡ libraries.old.first.links }
    ensures second { libraries.new.second.links ≡ libraries.old.second.links }
    ensures third { libraries.new.third.links ≡ libraries.old.third.links }
{
    let mut steps = 0u64;
    for line in lines {
        let fault = follow_line(alloc, shared, gateway, libraries, line)?;
        if fault.is_some() {
            return Ok(Course { steps, fault });
        }
        steps = steps.saturating_add(1);
    }
    Ok(Course { steps, fault: None })
}

/// What is wrong with a line of what a run left.
fn compare_line<'a>(
    alloc: Global,
    left: &EngineRecord,
    line: &Line<'a>,
) -> Result<Option<Fault<'a>>, NoMemory> {
    match left_of(line.text) {
        Some(what) => Ok(fault_of(line, left_instead_of(alloc, left, what)?)),
        None => Ok(Some(Fault::Unclear(*line))),
    }
}

/// Compares what a run left with the lines behind its end, of which so many were played before.
pub(crate) fn follow_left<'a>(
    alloc: Global,
    left: &EngineRecord,
    lines: &[Line<'a>],
    before: u64,
) -> Result<Course<'a>, NoMemory> {
    let mut steps = before;
    for line in lines {
        let fault = compare_line(alloc, left, line)?;
        if fault.is_some() {
            return Ok(Course { steps, fault });
        }
        steps = steps.saturating_add(1);
    }
    Ok(Course { steps, fault: None })
}

//! The script of a drill.

ghost use Rattle.std.specs.Prelude.{◌≡◌, ◌≤◌, ◌<◌, ◌+◌, ◌^◌, ◌++◌, IfOk, OnOk, map};
ghost use Rattle.std.specs.List.{range_with_len};
ghost use Rattle.drill_maker.specs.Drill.{accepts, config_of_drills, drill_of, first_step_line, for_each, names_of, round_steps, steps_of};

use crate::bodies::{GATEWAY, counterparty};
use crate::limits::{COUNTERPARTIES, HOLD, LIBRARIES, MOMENT, MOST_ROUNDS, TIMEOUT};
use crate::rounds::push_round;
use crate::steps::{push_connects, push_finishes, push_logons, push_turns};
use engine_config::{Config, DialTo};
use gate_io::{Bytes, MOST_DIALLED, NoMemory, Rows};
use lease_core::MOST_LEASES;
use lease_words::LANE_SLOTS;
use script_text::{MOST_COUNT, Script, Step};
use session_core::Names;
use std::alloc::Global;

/// The script of so many rounds.
#[tactic(auto, unfolding(crate::specs::Drill::drill_of))]
pub fn drill(alloc: Global, n: u32) -> Result<Script, NoMemory>
    requires least { 1 ≤ n }
    requires most { n ≤ MOST_ROUNDS }
    ensures { IfOk result (λ script. script ≡ drill_of n) }
{
    let steps = steps(alloc, n)?;
    let step_lines = lines(alloc, COUNTERPARTIES + 2, steps.len())?;
    Ok(Script {
        config: config(alloc)?,
        steps: Rows::of(steps),
        session_lines: Rows::of(lines(alloc, 1, COUNTERPARTIES as usize)?),
        step_lines: Rows::of(step_lines),
    })
}

/// All steps.
#[tactic(auto, unfolding(crate::specs::Drill::steps_of))]
fn steps(alloc: Global, n: u32) -> Result<Vec<Step>, NoMemory>
    requires { n ≤ MOST_ROUNDS }
    ensures steps { IfOk result (λ steps. steps.items ≡ steps_of n) }
{
    let mut steps = Vec::new(alloc);
    steps.push(Step::At { moment: MOMENT })?;
    push_connects(&mut steps)?;
    push_logons(alloc, &mut steps)?;
    push_turns(&mut steps)?;
    push_rounds(alloc, &mut steps, n)?;
    push_finishes(&mut steps)?;
    steps.push(Step::Turn)?;
    Ok(steps)
}

fn push_rounds(alloc: Global, steps: &mut Vec<Step>, n: u32) -> Result<(), NoMemory>
    requires { n ≤ MOST_ROUNDS }
    ensures { OnOk result (steps.new.items ≡ steps.old.items ++ for_each 0 n round_steps) }
{
    for round in 0..n {
        push_round(alloc, steps, round)?;
    }
    Ok(())
}

/// Eight sessions and four libraries; all else is as in a script that doesn't say it.
#[tactic(auto, unfolding(crate::specs::Drill::config_of_drills))]
fn config(alloc: Global) -> Result<Config, NoMemory>
    ensures { IfOk result (λ config. config ≡ config_of_drills) }
{
    Ok(Config {
        names: Rows::of(names(alloc)?),
        libraries: LIBRARIES,
        connections: COUNTERPARTIES,
        lane: LANE_SLOTS as u8,
        leases: MOST_LEASES,
        sends: MOST_COUNT,
        asks: MOST_COUNT,
        timeout: TIMEOUT,
        hold: HOLD,
        dialled: Rows::of(dials(alloc)?),
        dials: MOST_DIALLED,
    })
}

/// The sessions' names.
#[tactic(auto, using(crate::proofs::Ranges::map_from_zero))]
fn names(alloc: Global) -> Result<Vec<Names>, NoMemory>
    ensures { IfOk result (λ names. names.items ≡ map names_of (range_with_len 0 COUNTERPARTIES)) }
{
    let mut names = Vec::new(alloc);
    for c in 0..COUNTERPARTIES {
        names.push(Names {
            us: Bytes::of(Vec::from_slice(alloc, GATEWAY)?),
            them: Bytes::of(counterparty(alloc, c)?),
        })?;
    }
    Ok(names)
}

/// No session dials.
#[tactic(auto, using(crate::proofs::Ranges::map_from_zero))]
fn dials(alloc: Global) -> Result<Vec<Option<DialTo>>, NoMemory>
    ensures { IfOk result (λ dials. dials.items ≡ map accepts (range_with_len 0 COUNTERPARTIES)) }
{
    let mut dials = Vec::new(alloc);
    for _c in 0..COUNTERPARTIES {
        dials.push(None)?;
    }
    Ok(dials)
}

/// So many numbers of lines, from the first on.
#[tactic(auto, using(crate::proofs::Ranges::range_more))]
fn lines(alloc: Global, first: u32, count: usize) -> Result<Vec<u32>, NoMemory>
    requires { first + count < 2 ^ 32 }
    ensures { IfOk result (λ lines. lines.items ≡ range_with_len first count) }
{
    let mut lines = Vec::new(alloc);
    for k in 0..count {
        lines.push(first + k as u32)?;
    }
    Ok(lines)
}

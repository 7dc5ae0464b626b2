//! The steps of a round.

ghost use Rattle.std.specs.Prelude.{◌≡◌, ◌<◌, ◌++◌, OnOk};
ghost use Rattle.drill_maker.specs.Drill.{asked_from, asked_session, for_counterparties, for_each, for_libraries, order_steps, poll_count, poll_steps, request_steps, round_steps, work_steps};

use crate::bodies::{answer, order};
use crate::limits::{COUNTERPARTIES, LIBRARIES, MOST_ROUNDS};
use gate_io::NoMemory;
use script_text::{LibStep, Step};
use std::alloc::Global;

/// The libraries ask, the counterparties send, and the libraries work.
#[tactic(auto, unfolding(crate::specs::Drill::round_steps))]
pub fn push_round(alloc: Global, steps: &mut Vec<Step>, round: u32) -> Result<(), NoMemory>
    requires { round < MOST_ROUNDS }
    ensures { OnOk result (steps.new.items ≡ steps.old.items ++ round_steps round) }
{
    push_requests(steps, round)?;
    steps.push(Step::Turn)?;
    push_orders(alloc, steps, round)?;
    steps.push(Step::Turn)?;
    push_works(alloc, steps, round)?;
    steps.push(Step::Turn)?;
    Ok(())
}

fn push_requests(steps: &mut Vec<Step>, round: u32) -> Result<(), NoMemory>
    requires { round < MOST_ROUNDS }
    ensures { OnOk result (steps.new.items ≡ steps.old.items ++ for_libraries (request_steps round)) }
{
    for before in 0..LIBRARIES {
        let library = before + 1;
        let act = LibStep::Request {
            s: asked_session(round, library),
            from: u64::from(asked_from(round)),
        };
        steps.push(Step::Lib { library, act })?;
    }
    Ok(())
}

fn push_orders(alloc: Global, steps: &mut Vec<Step>, round: u32) -> Result<(), NoMemory>
    requires { round < MOST_ROUNDS }
    ensures { OnOk result (steps.new.items ≡ steps.old.items ++ for_counterparties (order_steps round)) }
{
    for c in 0..COUNTERPARTIES {
        let body = order(alloc, c, round)?;
        steps.push(Step::Frame { c, body })?;
    }
    Ok(())
}

fn push_works(alloc: Global, steps: &mut Vec<Step>, round: u32) -> Result<(), NoMemory>
    requires { round < MOST_ROUNDS }
    ensures { OnOk result (steps.new.items ≡ steps.old.items ++ for_libraries (work_steps round)) }
{
    for before in 0..LIBRARIES {
        push_work(alloc, steps, round, before + 1)?;
    }
    Ok(())
}

/// A library reads, answers and gives the session back.
#[tactic(auto, unfolding(crate::specs::Drill::work_steps))]
fn push_work(alloc: Global, steps: &mut Vec<Step>, round: u32, library: u8) -> Result<(), NoMemory>
    requires { round < MOST_ROUNDS }
    ensures { OnOk result (steps.new.items ≡ steps.old.items ++ work_steps round library) }
{
    let s = asked_session(round, library);
    let body = answer(alloc, round)?;
    push_polls(steps, library, round - asked_from(round) + 2)?;
    steps.push(Step::Lib {
        library,
        act: LibStep::Send { s, body },
    })?;
    steps.push(Step::Lib {
        library,
        act: LibStep::Release { s },
    })?;
    Ok(())
}

fn push_polls(steps: &mut Vec<Step>, library: u8, count: u32) -> Result<(), NoMemory>
    ensures { OnOk result (steps.new.items ≡ steps.old.items ++ for_each 0 count (poll_steps library)) }
{
    for _k in 0..count {
        steps.push(Step::Lib {
            library,
            act: LibStep::Poll,
        })?;
    }
    Ok(())
}

/// From which position on a library asks for messages in a round.
fn asked_from(round: u32) -> u32
    ensures { result ≡ asked_from round }
{
    round / 2
}

/// For which session a library asks in a round.
fn asked_session(round: u32, library: u8) -> u16
    requires { round < MOST_ROUNDS }
    ensures { result ≡ asked_session round library }
{
    ((round + u32::from(library)) % COUNTERPARTIES) as u16
}

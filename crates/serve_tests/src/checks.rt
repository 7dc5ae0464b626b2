//! The checks, each by its name.

use crate::{handed_over, parked, plans, side_by_side, statuses};
use anyhow::{Result, bail};
use row_text::Checks;
use std::alloc::Global;
use std::rt;
use std::rt::Runtime;
use std::sync::Wait;
use std::thread::Threads;

/// Makes them all, and prints a line for each. Fails where one fails.
pub(crate) fn tell_all(
    rt: &(impl Runtime + rt::Clock + Threads + Wait + Copy + Send + Sync),
    alloc: Global,
) -> Result<()> {
    let mut checks = Checks::new();
    tell_statuses(rt, alloc, &mut checks)?;
    tell_threads(rt, alloc, &mut checks)?;
    tell_plans(rt, alloc, &mut checks)?;
    let failed = checks.failed();
    if failed > 0 {
        bail!("{failed} checks failed");
    }
    Ok(())
}

/// How a run ends: its statuses, but for those of a source that fails and of want of memory.
fn tell_statuses(
    rt: &(impl Runtime + Threads + Sync),
    alloc: Global,
    checks: &mut Checks,
) -> Result<()> {
    let spent = statuses::the_engine_spends_its_turns(rt, alloc);
    checks.tell(rt, "the_engine_spends_its_turns", spent)?;
    let dials = statuses::dials_are_awaited(rt, alloc);
    checks.tell(rt, "dials_are_awaited", dials)?;
    let nothing = statuses::nothing_is_awaited(rt, alloc);
    checks.tell(rt, "nothing_is_awaited", nothing)?;
    let address = statuses::the_address_cannot_be_listened_at(rt, alloc);
    checks.tell(rt, "the_address_cannot_be_listened_at", address)?;
    let report = statuses::the_report_cannot_be_written(rt, alloc);
    checks.tell(rt, "the_report_cannot_be_written", report)?;
    let misplaced = statuses::a_line_of_replay_is_misplaced(rt, alloc);
    checks.tell(rt, "a_line_of_replay_is_misplaced", misplaced)?;
    let words = statuses::words_of_another_command(rt, alloc);
    checks.tell(rt, "words_of_another_command", words)?;
    let refused = statuses::a_refused_connection_counts(rt, alloc);
    checks.tell(rt, "a_refused_connection_counts", refused)
}

/// The engine and libraries in threads of their own.
fn tell_threads(
    rt: &(impl Runtime + rt::Clock + Threads + Wait + Copy + Send + Sync),
    alloc: Global,
    checks: &mut Checks,
) -> Result<()> {
    let nobody = side_by_side::nobody_waits_for_another_to_end(rt, alloc);
    checks.tell(rt, "nobody_waits_for_another_to_end", nobody)?;
    let four = side_by_side::four_libraries_trade(rt, alloc);
    checks.tell(rt, "four_libraries_trade", four)?;
    let silent = side_by_side::a_silent_library_loses_its_session(rt, alloc);
    checks.tell(rt, "a_silent_library_loses_its_session", silent)?;
    let given_up = side_by_side::a_plan_is_given_up(rt, alloc);
    checks.tell(rt, "a_plan_is_given_up", given_up)?;
    let heir = handed_over::the_heir_goes_on_where_the_first_stopped(rt, alloc);
    checks.tell(rt, "the_heir_goes_on_where_the_first_stopped", heir)?;
    let in_time = parked::a_library_that_waits_beats_in_time(rt, alloc);
    checks.tell(rt, "a_library_that_waits_beats_in_time", in_time)?;
    let asleep = parked::a_library_that_oversleeps_loses_its_session(rt, alloc);
    checks.tell(rt, "a_library_that_oversleeps_loses_its_session", asleep)
}

/// A library's plan, beside an engine that does nothing.
fn tell_plans(rt: &impl Runtime, alloc: Global, checks: &mut Checks) -> Result<()> {
    let waits = plans::a_line_that_waits_gives_its_plan_up(alloc);
    checks.tell(rt, "a_line_that_waits_gives_its_plan_up", waits)?;
    let full = plans::a_full_ring_is_told_again(alloc);
    checks.tell(rt, "a_full_ring_is_told_again", full)?;
    let shut = plans::a_shut_gate_gives_a_plan_up(alloc);
    checks.tell(rt, "a_shut_gate_gives_a_plan_up", shut)
}

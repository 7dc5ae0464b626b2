//! The checks that are no rows, each by its name.

use crate::{cuts, drill_scripts, drills, faults, read_faults, slow_consumers};
use anyhow::Result;
use row_text::Checks;
use std::alloc::Global;

/// Makes them all, and prints a line for each. Answers how many failed.
pub(crate) fn tell_all(rt: &HostRuntime) -> Result<u64> {
    let alloc = rt.alloc();
    let mut checks = Checks::new();
    tell_scripts(rt, alloc, &mut checks)?;
    tell_drills(rt, alloc, &mut checks)?;
    tell_runs(rt, alloc, &mut checks)?;
    Ok(checks.failed())
}

/// What is refused, and where the input ends.
fn tell_scripts(rt: &HostRuntime, alloc: Global, checks: &mut Checks) -> Result<()> {
    let lines = faults::faults_by_their_lines(alloc);
    checks.tell(rt, "faults_by_their_lines", lines)?;
    let too_long = faults::a_script_that_is_too_long_has_no_other_fault(alloc);
    checks.tell(rt, "a_script_that_is_too_long_has_no_other_fault", too_long)?;
    let clock = faults::the_clock_may_stand(alloc);
    checks.tell(rt, "the_clock_may_stand", clock)?;
    let at_once = cuts::a_message_counts_once_its_last_byte_came(alloc);
    checks.tell(rt, "a_message_counts_once_its_last_byte_came", at_once)?;
    let one_by_one = cuts::so_it_does_where_they_come_one_by_one(alloc);
    checks.tell(rt, "so_it_does_where_they_come_one_by_one", one_by_one)
}

/// Drills as scripts.
fn tell_drills(rt: &HostRuntime, alloc: Global, checks: &mut Checks) -> Result<()> {
    let one = drill_scripts::the_script_of_one_round(alloc);
    checks.tell(rt, "the_script_of_one_round", one)?;
    let lines = drill_scripts::the_lines_of_one_round(alloc);
    checks.tell(rt, "the_lines_of_one_round", lines)?;
    let nine = drill_scripts::the_script_of_nine_rounds(alloc);
    checks.tell(rt, "the_script_of_nine_rounds", nine)?;
    let longest = drill_scripts::the_steps_of_the_longest_drill(alloc);
    checks.tell(rt, "the_steps_of_the_longest_drill", longest)
}

/// Drills that are carried out, faults, and a counterparty that takes nothing.
fn tell_runs(rt: &HostRuntime, alloc: Global, checks: &mut Checks) -> Result<()> {
    let seven = drills::seven_rounds(alloc);
    checks.tell(rt, "seven_rounds", seven)?;
    let longest = drills::the_longest_drill(alloc);
    checks.tell(rt, "the_longest_drill", longest)?;
    let whole = read_faults::the_morning_without_a_fault(alloc);
    checks.tell(rt, "the_morning_without_a_fault", whole)?;
    let each_turn = read_faults::a_read_fails_in_each_turn_of_the_morning(alloc);
    checks.tell(rt, "a_read_fails_in_each_turn_of_the_morning", each_turn)?;
    let slow = slow_consumers::a_connection_ends_where_too_many_items_wait(alloc);
    checks.tell(rt, "a_connection_ends_where_too_many_items_wait", slow)
}

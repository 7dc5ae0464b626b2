//! The checks, each by its name.

use crate::{commands, faults, reports, statuses, words};
use anyhow::Result;
use row_text::Checks;
use std::alloc::Global;

/// Makes them all, and prints a line for each. Answers how many failed.
pub(crate) fn tell_all(rt: &HostRuntime) -> Result<u64> {
    let alloc = rt.alloc();
    let mut checks = Checks::new();
    tell_reports(rt, alloc, &mut checks)?;
    tell_faults(rt, alloc, &mut checks)?;
    tell_words(rt, alloc, &mut checks)?;
    Ok(checks.failed())
}

fn tell_reports(rt: &HostRuntime, alloc: Global, checks: &mut Checks) -> Result<()> {
    let whole = reports::whole_reports(alloc);
    checks.tell(rt, "whole_reports", whole)?;
    let small = reports::small_scripts(alloc);
    checks.tell(rt, "small_scripts", small)?;
    let every = reports::scripts_of_every_line(alloc);
    checks.tell(rt, "scripts_of_every_line", every)?;
    let longest = reports::the_longest_frame(alloc);
    checks.tell(rt, "the_longest_frame", longest)?;
    let longer = reports::a_frame_that_is_too_long(alloc);
    checks.tell(rt, "a_frame_that_is_too_long", longer)
}

fn tell_faults(rt: &HostRuntime, alloc: Global, checks: &mut Checks) -> Result<()> {
    let lines = faults::first_faulty_lines(alloc);
    checks.tell(rt, "first_faulty_lines", lines)?;
    let too_long = faults::a_script_that_is_too_long(alloc);
    checks.tell(rt, "a_script_that_is_too_long", too_long)?;
    let read = statuses::a_read_fails(alloc);
    checks.tell(rt, "a_read_fails", read)?;
    let write = statuses::a_write_fails(alloc);
    checks.tell(rt, "a_write_fails", write)?;
    let room = statuses::a_sink_has_too_little_room(alloc);
    checks.tell(rt, "a_sink_has_too_little_room", room)?;
    let codes = statuses::lines_and_codes(alloc);
    checks.tell(rt, "lines_and_codes", codes)
}

fn tell_words(rt: &HostRuntime, alloc: Global, checks: &mut Checks) -> Result<()> {
    let given = commands::words_that_give_a_command(alloc);
    checks.tell(rt, "words_that_give_a_command", given)?;
    let none = commands::words_that_give_no_command(alloc);
    checks.tell(rt, "words_that_give_no_command", none)?;
    let refused = words::words_that_replay_refuses(alloc);
    checks.tell(rt, "words_that_replay_refuses", refused)?;
    let drill = words::words_of_a_drill(alloc);
    checks.tell(rt, "words_of_a_drill", drill)
}

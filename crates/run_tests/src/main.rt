//! Tests of `replay` by the public calls of gateway_run alone: whole scripts with their whole reports, faults, the
//! line of every status, and the commands that words give.
//!
//! The program makes its checks, with a line for each, and then does what its arguments say, as `fixgate` without
//! `serve` does. It fails where a check fails.
//!
//! Stands on `gateway_run` (what is tried), `script_text` (kinds of faults), `gate_io` (source and sink in memory),
//! `row_text` (checks) and `anyhow` (errors). Told in docs/tests.md.
//!
//! Read `replayed` (replays in memory), `rows` (scripts with their reports), `reports`, `faults`, `statuses`,
//! `words`, `commands` and `checks`.
#![tactic(auto)]

mod checks;
mod commands;
mod faults;
mod replayed;
mod reports;
mod rows;
mod statuses;
mod words;

use gateway_run::program;
use std::process::ExitCode;

fn main(rt: HostRuntime) -> ExitCode {
    match checks::tell_all(&rt) {
        Ok(0) => program(&rt),
        _ => ExitCode::FAILURE,
    }
}

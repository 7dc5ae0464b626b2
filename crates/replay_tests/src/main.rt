//! Tests of whole runs by public calls alone: a script is read or made, carried out, and what it leaves is told as
//! text.
//!
//! An argument is the name of a row, or a word:
//!
//!     checks     tries what no row shows: inputs that end at each byte, reads that fail in each turn, drills
//!                beside their lines, long drills
//!     made N     makes N scripts at random, and compares the report of each with what is told plainly
//!
//! The row NAME stands for the files NAME.script and NAME.report: the first is carried out, and its report compared
//! with the second, which was written down. So is what is told plainly, and the report has to be right by the
//! audit. For each row there is a line that says whether all this is so, or the first line at which a report
//! differs, as expected and as it is. The program fails where one differs or isn't right, where a check fails, or
//! where no made script's report has a line of some kind.
//!
//! Stands on `script_run` (what carries a script out), `run_report` (reports and summaries), `drill_maker` (drills)
//! and `script_text` (scripts and their faults), which are tried, `plain_replay` (the plain telling),
//! `journal_audit` (the audit), `connection_core`, `session_core` and `lease_core` (records of connections, causes,
//! holdings), `row_text` (checks), `draws` (numbers that look random) and `anyhow` (errors). Told in docs/tests.md.
//!
//! Read `reports` (what a script leaves), `differences` and `rows`; then the checks: `orders` and `cuts`, `morning`
//! and `read_faults`, `faults`, `slow_consumers`, `drills`, `one_round`, `drill_lines`, `drill_scripts` and
//! `checks`; last made scripts: `maker`, `traffic` and `calls` (their lines), `kinds` and `made`.
#![tactic(auto)]

mod calls;
mod checks;
mod cuts;
mod differences;
mod drill_lines;
mod drill_scripts;
mod drills;
mod faults;
mod kinds;
mod made;
mod maker;
mod morning;
mod one_round;
mod orders;
mod read_faults;
mod reports;
mod rows;
mod slow_consumers;
mod traffic;

use anyhow::{Context, Result, bail};
use std::env;

/// What an argument is read as: the word before it wants a number.
#[derive(Clone, Copy, Debug, PartialEq, Eq)]
enum Wanted {
    Anything,
    Number,
}

/// Does what a word asks for. Answers how many reports and checks aren't as expected, and what the next word is
/// read as.
fn play(rt: &HostRuntime, wanted: Wanted, word: &str) -> Result<(u64, Wanted)> {
    if wanted == Wanted::Number {
        let count = word.parse::<u64>()?;
        return Ok((made::compare_all(rt, count)?, Wanted::Anything));
    }
    match word {
        "made" => Ok((0, Wanted::Number)),
        "checks" => Ok((checks::tell_all(rt)?, Wanted::Anything)),
        name => Ok((rows::compare(rt, name)?, Wanted::Anything)),
    }
}

fn main(rt: HostRuntime) -> Result<()> {
    let mut words = env::args(&rt)?;
    let _program = words.next();
    let mut wanted = Wanted::Anything;
    let mut differ = 0u64;
    for word in words {
        let word = word.as_str();
        let (more, next) = play(&rt, wanted, word).context(format_args!("{word}"))?;
        differ = differ.saturating_add(more);
        wanted = next;
    }
    if differ > 0 {
        bail!("{differ} reports and checks aren't as expected");
    }
    Ok(())
}

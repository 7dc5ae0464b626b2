//! Plays the rows of the files that are named as arguments: an engine with three sessions and three
//! libraries at a real table and real rings, over a wire in memory that can be looked at and a clock that
//! is set, all in one thread. In place of a file an argument may be the word
//!
//!     checks    tries how an engine goes on behind journals that a run left open
//!
//! A file's line `row NAME` begins a row, and behind the name may stand limits other than the usual ones, as
//! `dials 8`. Each further line is a step, as `steps` has them, up to a line `ends`, behind which stands what
//! the run leaves, as `left` has it. `texts` has the signs that stand for parts of bodies. For each row there
//! is a line that says how many steps were played, or which step came to something else, and for each check one
//! that says whether it is as expected. The program fails if a step did, or if a check fails.
//!
//! Stands on `engine_loop` (turns), `engine_start` (a start behind records, and libraries' ends) and `engine_end`
//! (what a run leaves), which are tried, `engine_config` (configurations), `wire_desk` (which connections stay
//! known), `library_desk` (what is shared), `library_api`, `lease_words` and `library_play` (libraries and their
//! seats), `lease_core` (entries and records), `session_book` and `connection_core` (records of sessions and
//! connections), `session_core` (names and causes), `fix_fields` (the longest body), `gate_io` (wire, clock, bytes,
//! want of memory), `row_text` (rows, checks, texts of messages), `thiserror` and `anyhow` (errors). Told in
//! docs/engine.md.
//!
//! Read `texts`, `told`, `tapped_wire` (the wire), `gateway` (engine, wire and clock), `limits` and `making` (how a
//! run begins); then `steps`, `libraries`, `facts` and `left` (what is done and asked), `reading`, `playing`,
//! `following` and `rows`; last `open_journals` and `checks`.
#![tactic(auto)]

mod checks;
mod facts;
mod following;
mod gateway;
mod left;
mod libraries;
mod limits;
mod making;
mod open_journals;
mod playing;
mod reading;
mod rows;
mod steps;
mod tapped_wire;
mod texts;
mod told;

use anyhow::{Context, Result, bail};
use row_text::play_file;
use rows::Engines;
use std::env;

/// The argument for the checks.
const CHECKS: &str = "checks";

/// Does what an argument names. Answers how many rows and checks aren't as they say.
fn play(rt: &HostRuntime, name: &str) -> Result<u64> {
    if name == CHECKS {
        return checks::tell_all(rt);
    }
    play_file(rt, rt.alloc(), &Engines {}, name)
}

fn main(rt: HostRuntime) -> Result<()> {
    let mut names = env::args(&rt)?;
    let _program = names.next();
    let mut differ = 0u64;
    for name in names {
        let name = name.as_str();
        let others = play(&rt, name).context(format_args!("{name}"))?;
        differ = differ.saturating_add(others);
    }
    if differ > 0 {
        bail!("{differ} rows and checks aren't as expected");
    }
    Ok(())
}

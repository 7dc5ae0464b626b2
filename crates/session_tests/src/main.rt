//! Tests of `seq_gaps` and `session_core` by their public calls: rows worked by hand, and generated runs beside
//! plain tellings of the same rules, which no clause ties to the definitions.
//!
//! Each argument names a file of rows (`row_text`), or is the word
//!
//!     runs      makes generated runs, tells each plainly, and compares what comes of both
//!
//! A row has a session GATE/BUYER, at whose clock it is 09:30, and a number line of its own. It may begin with one
//! of the lines
//!
//!     resuming EXPECTED     the session goes on from a record, and expects this number
//!     dialling EXPECTED     it dials with a HeartBtInt of 30 s, and expects this number
//!     dialled EXPECTED      the same, and it has sent its Logon
//!
//! Without one the session accepts connections and expects 1. Each further line is a step:
//!
//!     COMMAND: RESULT
//!     COMMAND
//!
//! A command is a name with words; `acts.rt`, `calls.rt` and `routes.rt` have the names, and what each comes to.
//! That is as `Debug` prints it, but for effects: they stand in brackets in their order, as
//!
//!     [accept BODY]  [send BODY]  [resend BEGIN LAST]  [reset]  [end CAUSE]
//!
//! or are `nothing`. In a text `|` stands for SOH, and `(n)` for BUYER's header with the number n. A step without
//! a result wants that what it says is done.
//!
//! For each row there is a line with its steps, or with the first that isn't understood or comes to something
//! else. The program fails if a row has such a step, or if a run isn't told alike.
//!
//! Stands on `session_core` (the session machine) and `seq_gaps` (the number line), which are tried, `fix_fields`
//! (fields and numbers), `gate_io` (bytes, want of memory, the last moment), `row_text` (rows, and texts of
//! messages), `draws` (numbers that look random), `thiserror` and `anyhow` (errors). Told in
//! docs/session-protocol.md.
//!
//! Read `texts`, `desk` (a session at its clock), `acts`, `calls` and `routes` (what steps do), `steps` and `rows`;
//! then the generated runs: `draw_text` (their texts), `unlike` (how they differ), `plain_line` with `line_runs`,
//! and `plain_session` with `session_runs`.
#![tactic(auto)]

mod acts;
mod calls;
mod desk;
mod draw_text;
mod line_runs;
mod plain_line;
mod plain_session;
mod routes;
mod rows;
mod session_runs;
mod steps;
mod texts;
mod unlike;

use anyhow::{Context, Result};
use row_text::{end, play_file};
use rows::Sessions;
use std::env;

/// The argument for the generated runs.
const RUNS: &str = "runs";

// Makes the generated runs, and says how many.
fn make_runs(rt: &HostRuntime) -> Result<()> {
    let lists = line_runs::compare_all(rt.alloc()).context("the number line")?;
    println!(rt; "{RUNS}: {lists} lists of calls were made and told alike")?;
    let sessions = session_runs::compare_all(rt.alloc()).context("the session")?;
    println!(rt; "{RUNS}: {sessions} sessions were made and told alike")?;
    Ok(())
}

// Does what an argument names. Answers how many rows aren't as they say.
fn play(rt: &HostRuntime, name: &str) -> Result<u64> {
    if name == RUNS {
        make_runs(rt)?;
        return Ok(0);
    }
    play_file(rt, rt.alloc(), &Sessions {}, name)
}

fn main(rt: HostRuntime) -> Result<()> {
    let mut names = env::args(&rt)?;
    let _program = names.next();
    let mut differ = 0u64;
    for name in names {
        let name = name.as_str();
        let others = play(&rt, name).context(format_args!("{name}"))?;
        differ = differ.saturating_add(others);
    }
    end(differ)
}

//! Tests of `session_book` with `connection_core`, by their public calls: rows worked by hand, and
//! generated runs beside a plain telling of the same, which no clause ties to the definitions.
//!
//! Each argument names a file of rows (`row_text`), or is the word
//!
//!     runs      makes generated runs, tells each plainly, and compares what it left with that
//!
//! A row is played on a session of its own, GATE/BUYER. It may begin with a line `dialling EXPECTED`, of a
//! session that dials and expects this number; without it the session accepts connections and expects 1. A
//! step is a line of words, of which the first says what is done or asked: [`steps::Step`] has all of them.
//! What is left of the line is what the step has to come to, as `Debug` prints it where nothing else is said.
//!
//! For each row there is a line with its steps, or with the first that isn't understood or comes to something
//! else. The program fails if a row has such a step, or if a run isn't told alike.
//!
//! Stands on `session_book` and `connection_core`, which are tried, `book_desk` (the book's calls), `session_core`
//! (routing, acts, causes), `seq_gaps` (numbers), `lease_core` (entries, words, replies), `message_log` (both
//! logs), `resend_plan` (which bodies are fit), `fix_fields` (fields), `gate_io` (bytes, moments, want of memory),
//! `row_text` (rows, and texts of messages), `draws` (numbers that look random) and `anyhow` (errors). Told in
//! docs/sessions.md.
//!
//! Read `texts`, `desk` (book and connections), `comings`, `leases` and `facts` (what steps do and ask), `steps`,
//! `player` and `rows`; then the generated runs: `draw_text` (their messages), `plain_cut`, `plain_text` and
//! `plain_run` (the plain telling), `comparing`, `tally` and `runs`.
#![tactic(auto)]

mod comings;
mod comparing;
mod desk;
mod draw_text;
mod facts;
mod leases;
mod plain_cut;
mod plain_run;
mod plain_text;
mod player;
mod rows;
mod runs;
mod steps;
mod tally;
mod texts;

use anyhow::{Context, Result};
use row_text::{end, play_file};
use rows::Books;
use std::env;

/// The argument for the generated runs.
const RUNS: &str = "runs";

// Makes the generated runs, and says what they left.
fn make_runs(rt: &HostRuntime) -> Result<()> {
    let tally = runs::compare_all(rt.alloc())?;
    println!(rt; "{RUNS}: {} were made and told alike", tally.runs)?;
    println!(rt; "{RUNS}: {:?}", tally.entries)?;
    Ok(())
}

// Does what an argument names. Answers how many rows aren't as they say.
fn play(rt: &HostRuntime, name: &str) -> Result<u64> {
    if name == RUNS {
        make_runs(rt)?;
        return Ok(0);
    }
    play_file(rt, rt.alloc(), &Books {}, name)
}

fn main(rt: HostRuntime) -> Result<()> {
    let mut names = env::args(&rt)?;
    let _program = names.next();
    let mut differ = 0u64;
    for name in names {
        let name = name.as_str();
        let others = play(&rt, name).context(format_args!("{name}"))?;
        differ = differ.saturating_add(others);
    }
    end(differ)
}

//! Plays rows worked by hand against `switchboard`, `lease_desk`, `session_desk` and `library_desk`, by their
//! public calls: counterparties on connections, and two libraries at a real table and real rings.
//!
//! Each argument names a file of rows (`row_text`). A step is a line of words, of which the first says what is
//! done or asked: [`steps::Step`] has all of them but those of [`outset`], which come first, and of [`asks`],
//! which come last. What is left of the line is what the step has to come to, as `Debug` prints it where
//! nothing else is said. For each row there is a line with its steps, or with the first that isn't understood
//! or comes to something else. The program fails if a row has such a step.
//!
//! Stands on `switchboard`, `lease_desk`, `session_desk` and `library_desk`, which are tried, `lease_words`,
//! `ring_links` and `library_api` (table, rings, libraries' ends), `catchup_pump` (cursors), `library_clock`
//! (silence), `session_book` and `connection_core` (books and connections), `lease_core` (entries, commands,
//! notices), `session_core` (names and causes), `fix_fields` (a name's length), `gate_io` (bytes, moments, want of
//! memory), `library_play` (answers that can be compared), `row_text` (rows, and texts of messages) and `anyhow`
//! (errors). Told in docs/engine.md.
//!
//! Read `texts`, `engine_desk` (the engine's side), `outset` and `making` (how a row begins), `counterparty` and
//! `engine` (calls, where they can be made); then `comings`, `deeds`, `calls` and `facts` (what steps do and ask),
//! `steps`, `asks` (requests past the rings), `morning` and `rows`.
#![tactic(auto)]

mod asks;
mod calls;
mod comings;
mod counterparty;
mod deeds;
mod engine;
mod engine_desk;
mod facts;
mod making;
mod morning;
mod outset;
mod rows;
mod steps;
mod texts;

use anyhow::{Context, Result};
use row_text::{end, play_file};
use rows::Desks;
use std::env;

fn main(rt: HostRuntime) -> Result<()> {
    let mut files = env::args(&rt)?;
    let _program = files.next();
    let mut differ = 0u64;
    for file in files {
        let file = file.as_str();
        let more = play_file(&rt, rt.alloc(), &Desks {}, file);
        differ = differ.saturating_add(more.context(format_args!("file {file}"))?);
    }
    end(differ)
}

//! Tests of the registry of a session, and of silent libraries and deadlines, by their public calls.
//!
//! Each argument names a file of rows, or is one of
//!
//!     messages   messages carry what was put in
//!     calls      a registry answers drawn calls as the plain program does
//!     entries    drawn entries may stand next where the plain program has it so
//!     resumes    a registry that is read back in mid-course goes on as the one before
//!     moments    drawn deadlines come as by a plain scan
//!
//! Stands on `lease_core` (the registry and the messages) and `library_clock` (deadlines and silence), which are
//! tried, `gate_io` (bytes, want of memory), `row_text` (rows), `draws` (numbers that look random) and `anyhow`
//! (errors). Told in docs/registry-and-leases.md.
//!
//! Read `parts` (entries and words as text), `acts` (calls as data), `journal` and `clocks` (steps of rows) and
//! `rows`; then `messages`, `draw` (places and libraries that look random), `plain` (the plain program), `random`
//! (drawn calls), `drawn` (drawn entries) and `deadlines`.
#![tactic(auto)]

mod acts;
mod clocks;
mod deadlines;
mod draw;
mod drawn;
mod journal;
mod messages;
mod parts;
mod plain;
mod random;
mod rows;

use anyhow::{Context, Result};
use row_text::{end, play_file};
use rows::Rows;
use std::alloc::Global;
use std::env;
use std::rt::Runtime;

// Does what is named that no file of rows has. It is None where it is none of these, and else fails or is done.
fn run(alloc: Global, name: &str) -> Option<Result<()>> {
    match name {
        "messages" => Some(messages::check(alloc)),
        "calls" => Some(random::play_lists(alloc)),
        "entries" => Some(drawn::play_entries(alloc)),
        "resumes" => Some(drawn::play_resumed(alloc)),
        "moments" => Some(deadlines::play_lists(alloc)),
        _ => None,
    }
}

/// Does what an argument names. Answers how many rows aren't as wanted.
fn play(rt: &impl Runtime, alloc: Global, name: &str) -> Result<u64> {
    match run(alloc, name) {
        Some(done) => {
            done?;
            println!(rt; "{name}: as they are to be")?;
            Ok(0)
        }
        None => play_file(rt, alloc, &Rows {}, name),
    }
}

fn main(rt: HostRuntime) -> Result<()> {
    let mut names = env::args(&rt)?;
    let _program = names.next();
    let mut differ = 0u64;
    for name in names {
        let name = name.as_str();
        let others = play(&rt, rt.alloc(), name).context(format_args!("{name}"))?;
        differ = differ.saturating_add(others);
    }
    end(differ)
}

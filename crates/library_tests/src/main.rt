//! Tests of the pump and of a trading library, by their public calls.
//!
//! Each argument names a file of rows, or is one of
//!
//!     meeting   what a library lends meets the engine, and its seat is settled
//!     relay     an engine and a library in threads of their own
//!
//! Each row begins with a new library 1 and a new engine, which is made by hand. Its steps are the calls of the
//! one and the acts of the other:
//!
//!     COMMAND: RESULT
//!     COMMAND
//!
//! A command is a name with numbers and bodies; `calls.rt`, `acts.rt` and `pairs.rt` have the names. The result is
//! what `Debug` prints of the answer, behind a message its body, in which `|` stands for SOH. A step without a
//! result wants that what it says was done.
//!
//! For each row that is as wanted there is a line that says how many steps it has; for one that isn't, a line with
//! the first step that differs, as wanted and as found. The program fails if a row differs.
//!
//! Stands on `catchup_pump` (the pump) and `library_api` (the library), which are tried, `lease_words` (the lease
//! table), `ring_links` (rings), `message_log` (the inbound log), `lease_core` (commands, notices, words),
//! `gate_io` (bytes, want of memory), `library_play` (answers that can be compared), `row_text` (rows), `draws`
//! (numbers that look random) and `anyhow` (errors). Told in docs/libraries.md.
//!
//! Read `shared` (what both sides share), `steps` and `engine` (the engine's side), `acts`, `calls`, `pairs` and
//! `many` (what steps do), `lines` and `rows`; then `meeting` (both sides meet) and `relay` (both in threads).
#![tactic(auto)]

mod acts;
mod calls;
mod engine;
mod lines;
mod many;
mod meeting;
mod pairs;
mod relay;
mod rows;
mod shared;
mod steps;

use anyhow::{Context, Result};
use row_text::{end, play_file};
use rows::Libraries;
use std::alloc::Global;
use std::env;
use std::rt::Runtime;
use std::thread::Threads;

/// Does what an argument names. Answers how many rows aren't as wanted.
fn play(rt: &(impl Runtime + Threads), alloc: Global, name: &str) -> Result<u64> {
    if name == "meeting" {
        meeting::meet(alloc)?;
        println!(rt; "meeting: the two sides met")?;
        return Ok(0);
    }
    if name == "relay" {
        relay::relay(rt, alloc)?;
        println!(rt; "relay: messages and sends came whole and in order")?;
        return Ok(0);
    }
    play_file(rt, alloc, &Libraries {}, name)
}

fn main(rt: HostRuntime) -> Result<()> {
    let mut names = env::args(&rt)?;
    let _program = names.next();
    let mut differ = 0u64;
    for name in names {
        let name = name.as_str();
        let others = play(&rt, rt.alloc(), name).context(format_args!("{name}"))?;
        differ = differ.saturating_add(others);
    }
    end(differ)
}

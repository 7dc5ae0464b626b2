//! Tests of the lease table and of rings, by their public calls.
//!
//! Each argument names a file of rows, or is one of
//!
//!     numbers   numbers go through a ring from one thread to another
//!     boxes     so do items that own memory
//!     settled   an engine and a library in threads of their own; once it is settled nothing of it is left
//!     relay     an engine and four libraries in threads of their own
//!
//! Stands on `lease_words` (the lease table) and `ring_links` (rings), which are tried, `lease_core` (words,
//! registries, limits), `fix_fields` (which bodies are fit), `gate_io` (want of memory), `row_text` (rows),
//! `draws` (numbers that look random) and `anyhow` (errors). Told in docs/threads.md.
//!
//! Read `steps` (the engine's calls), `engine` and `library` (the two sides), `journals`, `making` (a row's table),
//! `acts`, `calls`, `sides`, `queue` (rings in rows) and `rows`; then, for threads of their own, `draw`, `marks`
//! (items told apart), `settled`, `relay` and `ring_relay`.
#![tactic(auto)]

mod acts;
mod calls;
mod draw;
mod engine;
mod journals;
mod library;
mod making;
mod marks;
mod queue;
mod relay;
mod ring_relay;
mod rows;
mod settled;
mod sides;
mod steps;

use anyhow::{Context, Result};
use ring_relay::{relay_boxes, relay_numbers};
use row_text::{end, play_file};
use rows::Tables;
use std::alloc::Global;
use std::env;
use std::rt::Runtime;
use std::sync::Wait;
use std::thread::Threads;

// Does what is named that no file of rows has. Answers what it showed, or None where it is none of these.
fn run(
    rt: &(impl Threads + Wait + Sync),
    alloc: Global,
    name: &str,
) -> Result<Option<&'static str>> {
    Ok(Some(match name {
        "numbers" => {
            relay_numbers(rt, alloc)?;
            "numbers came in order"
        }
        "boxes" => {
            relay_boxes(rt, alloc)?;
            "items that own memory came in order"
        }
        "settled" => {
            settled::settle(rt, alloc)?;
            "nothing is left once a library is settled"
        }
        "relay" => {
            relay::relay(rt, alloc)?;
            "nothing is lost or taken twice"
        }
        _ => return Ok(None),
    }))
}

/// Does what an argument names. Answers how many rows aren't as wanted.
fn play(rt: &(impl Runtime + Threads + Wait + Sync), alloc: Global, name: &str) -> Result<u64> {
    match run(rt, alloc, name)? {
        Some(told) => {
            println!(rt; "{name}: {told}")?;
            Ok(0)
        }
        None => play_file(rt, alloc, &Tables {}, name),
    }
}

fn main(rt: HostRuntime) -> Result<()> {
    let mut names = env::args(&rt)?;
    let _program = names.next();
    let mut differ = 0u64;
    for name in names {
        let name = name.as_str();
        let others = play(&rt, rt.alloc(), name).context(format_args!("{name}"))?;
        differ = differ.saturating_add(others);
    }
    end(differ)
}

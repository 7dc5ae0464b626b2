//! Tests of `serve` by its public call: the engine and libraries in threads of their own, over wires in memory.
//!
//! The first argument says what is done:
//!
//!     checks          what no two runs may show otherwise: how each ends, and that nobody waits for another to end
//!     made N SEED     serves N scripts that are made at random, the first from this seed: 10 from 1 where no
//!                     number is said. Eight libraries ask for eight sessions, read, send, give back, hand over and
//!                     fall silent, while eight counterparties send. No two runs go alike; the report of each has
//!                     to be right
//!     faults          serves one script again and again, and lets one read, write, accept or dial of each run
//!                     fail, the first in the first run, the second in the second and so on; or each write takes
//!                     one byte
//!
//! The program fails where a check fails, or where a report isn't right by the audit.
//!
//! Stands on `gateway_run` (what serves a script) and `plan_runner` (plans), which are tried, `journal_audit` (the
//! audit), `run_report` (calls with their answers), `script_text` (steps and kinds of faults), `library_api`,
//! `lease_words` and `ring_links` (a library and its ends), `lease_core` (commands), `session_core` (causes),
//! `fix_frame` (frames), `thread_bells` (bells by which threads wake each other), `gate_io` (wires, clocks, gates),
//! `row_text` (checks), `draws` (numbers that look random) and `anyhow` (errors). Told in docs/tests.md.
//!
//! Read `frames`, `served` (runs of a script) and `audited`; then the checks: `watched`, `gates` and `held_wire`
//! (what holds runs back), `side_by_side`, `handed_over`, `parked` (libraries that sleep), `statuses`, `plans` and
//! `checks`; then runs at random: `scripts`, `traffic`, `drowsy` (libraries fall silent), `running` and `made`; last `faulty` (a wire that fails)
//! and `faults`.
#![tactic(auto)]

mod audited;
mod checks;
mod drowsy;
mod faults;
mod faulty;
mod frames;
mod gates;
mod handed_over;
mod held_wire;
mod made;
mod parked;
mod plans;
mod running;
mod scripts;
mod served;
mod side_by_side;
mod statuses;
mod traffic;
mod watched;

use anyhow::{Context, Result, bail};
use std::env;

/// How many runs of made scripts there are, and the seed of the first one, where no word says so.
const RUNS: u64 = 10;

const SEED: u64 = 1;

/// A word as a number, or another number where there is none.
fn number(word: Option<String>, other: u64) -> Result<u64> {
    match word {
        Some(word) => Ok(word.as_str().parse::<u64>()?),
        None => Ok(other),
    }
}

fn main(rt: HostRuntime) -> Result<()> {
    let alloc = rt.alloc();
    let mut words = env::args(&rt)?;
    let _program = words.next();
    let kind = words.next().context("say checks, made or faults")?;
    match kind.as_str() {
        "checks" => checks::tell_all(&rt, alloc),
        "made" => {
            let runs = number(words.next(), RUNS)?;
            let first = number(words.next(), SEED)?;
            made::serve_all(&rt, alloc, runs, first)
        }
        "faults" => faults::fail_each(&rt, alloc),
        _ => bail!("say checks, made or faults"),
    }
}

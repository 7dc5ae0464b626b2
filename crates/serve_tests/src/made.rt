//! Scripts that are made at random, and the reports of their runs.

use crate::drowsy::DrowsyGate;
use crate::running::{Made, run};
use anyhow::{Context, Result, bail};
use gate_io::RealClock;
use journal_audit::Verdict;
use std::alloc::Global;
use std::rt;
use std::rt::Runtime;
use std::thread::Threads;

/// Serves so many scripts, the first of this seed, and prints each report that is wrong. Fails where one is.
pub(crate) fn serve_all(
    rt: &(impl Runtime + rt::Clock + Threads + Copy + Send + Sync),
    alloc: Global,
    runs: u64,
    first: u64,
) -> Result<()> {
    let mut wrong = 0u64;
    for more in 0..runs {
        let seed = first.saturating_add(more);
        let made = serve_one(rt, alloc, seed).context(format_args!("run {seed}"))?;
        if !is_right(rt, seed, &made)? {
            wrong = wrong.saturating_add(1);
        }
    }
    if wrong > 0 {
        bail!("{wrong} of {runs} reports are wrong");
    }
    println!(rt; "the reports of {runs} runs are right")?;
    Ok(())
}

/// Serves the script of a seed.
fn serve_one(
    rt: &(impl rt::Clock + Threads + Copy + Send + Sync),
    alloc: Global,
    seed: u64,
) -> Result<Made> {
    let mut clock = RealClock::new(*rt);
    let gate = DrowsyGate::new(*rt, seed);
    run(rt, alloc, seed, &mut clock, &gate)
}

/// Whether a report is right. Prints it where it isn't.
fn is_right(rt: &impl Runtime, seed: u64, made: &Made) -> Result<bool> {
    let Verdict::No { line } = made.verdict else {
        return Ok(true);
    };
    println!(rt;
        "run {seed} ends as {:?}, and line {line} of its report is wrong:",
        made.status
    )?;
    println!(rt; "{}", made.report.as_str())?;
    Ok(false)
}

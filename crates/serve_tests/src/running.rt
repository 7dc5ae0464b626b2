//! One run of a made script, with the verdict on its report.

use crate::audited::verdict;
use crate::scripts::script;
use crate::served::{Ran, served};
use crate::traffic::wire;
use anyhow::Result;
use draws::Draw;
use gate_io::{Clock, Gate};
use gateway_run::Status;
use journal_audit::Verdict;
use std::alloc::Global;
use std::thread::Threads;

/// Room for the report of a run.
const ROOM: usize = 67_108_864;

/// How a run ended, its report, and whether that is right.
#[derive(Drop)]
pub(crate) struct Made {
    pub(crate) status: Status,
    pub(crate) report: String,
    pub(crate) verdict: Verdict,
}

/// Serves the script of a seed. Every other run has libraries that wait for messages, and gives a plan up that waits
/// for too long.
pub(crate) fn run<R: Threads + Sync, C: Clock + Send, G: Gate + Sync>(
    rt: &R,
    alloc: Global,
    seed: u64,
    clock: &mut C,
    gate: &G,
) -> Result<Made> {
    let mut draw = Draw::new(seed);
    let waits = seed % 2 == 0;
    let text = script(alloc, &mut draw, waits)?;
    let mut wire = wire(alloc, &mut draw)?;
    let turns = if waits { "20000" } else { "3000000" };
    let ran = served(
        rt,
        alloc,
        text.as_str(),
        turns,
        &mut wire,
        clock,
        gate,
        ROOM,
    )?;
    made_of(alloc, ran)
}

/// A run with the verdict on its report.
fn made_of(alloc: Global, ran: Ran) -> Result<Made> {
    let verdict = verdict(alloc, &ran)?;
    Ok(Made {
        status: ran.status,
        report: String::from_utf8(ran.report)?,
        verdict,
    })
}

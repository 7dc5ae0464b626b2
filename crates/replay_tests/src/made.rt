//! Scripts that are made.

use crate::differences::first_difference;
use crate::kinds::Missing;
use crate::maker::script_of;
use crate::reports::{plain_report_of, report_of};
use anyhow::{Context, Result};

/// Compares the reports of the script of a seed. Answers whether they are the same.
fn compare_made(rt: &HostRuntime, seed: u64, missing: &mut Missing) -> Result<bool> {
    let alloc = rt.alloc();
    let script = script_of(alloc, seed)?;
    let expected = plain_report_of(alloc, script.as_bytes())?;
    let report = report_of(alloc, script.as_bytes())?;
    if expected.as_str() == report.as_str() {
        missing.see(&report);
        return Ok(true);
    }
    let difference = first_difference(expected.as_str(), report.as_str());
    println!(rt; "seed {seed}: {difference}")?;
    Ok(false)
}

/// Compares so many made scripts, and prints how many there were where each report is the same. Answers how many
/// differ, with the kinds of lines that no report has.
pub(crate) fn compare_all(rt: &HostRuntime, scripts: u64) -> Result<u64> {
    let mut missing = Missing::all(rt.alloc())?;
    let mut differ = 0u64;
    for seed in 0..scripts {
        if !compare_made(rt, seed, &mut missing).context(format_args!("seed {seed}"))? {
            differ = differ.saturating_add(1);
        }
    }
    for kind in &missing.kinds {
        println!(rt; "no report has {kind}")?;
        differ = differ.saturating_add(1);
    }
    if differ == 0 {
        println!(rt; "{scripts} made scripts: each report is the same")?;
    }
    Ok(differ)
}

//! Rows whose reports were worked out by hand.

use crate::differences::first_difference;
use crate::reports::{is_right, plain_report_of, report_of};
use anyhow::Result;
use std::fs;

/// Whether a row's report is the one that is written down. Prints where it isn't.
fn is_expected(rt: &HostRuntime, name: &str, expected: &str, report: &str) -> Result<bool> {
    if expected == report {
        return Ok(true);
    }
    let difference = first_difference(expected, report);
    println!(rt; "{name}: {difference}")?;
    Ok(false)
}

/// Whether a script's report is as expected, as it is told plainly too, and right by the audit. Prints where not.
fn is_as_written(rt: &HostRuntime, name: &str, script: &[u8], expected: &str) -> Result<bool> {
    let alloc = rt.alloc();
    let report = report_of(alloc, script)?;
    if !is_expected(rt, name, expected, report.as_str())? {
        return Ok(false);
    }
    let plain = plain_report_of(alloc, script)?;
    if !is_expected(rt, name, expected, plain.as_str())? {
        return Ok(false);
    }
    if !is_right(alloc, report.as_bytes())? {
        println!(rt; "{name}: not right by the audit")?;
        return Ok(false);
    }
    Ok(true)
}

/// Compares a row. Answers 1 where it isn't as it is written, and else 0.
pub(crate) fn compare(rt: &HostRuntime, name: &str) -> Result<u64> {
    let alloc = rt.alloc();
    let script = fs::read(rt, format!(in alloc; "{name}.script")?)?;
    let expected = fs::read_to_string(rt, format!(in alloc; "{name}.report")?)?;
    if !is_as_written(rt, name, script.as_slice(), expected.as_str())? {
        return Ok(1);
    }
    println!(rt; "{name}: as expected")?;
    Ok(0)
}

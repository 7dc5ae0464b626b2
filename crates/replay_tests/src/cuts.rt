//! The input ends at each of its bytes.

use crate::orders::{FRAMES, expected_report};
use crate::reports::report_of;
use anyhow::{Context, Result};
use row_text::same;
use std::alloc::Global;

/// How many bytes the frames have, one of which is the last that comes in each run.
const ALL: usize = 246;

const BEFORE: &str = "session GATE BUYER\nlibraries 1\nat 20260105-09:30:00.000\nconnect\n";

const BEHIND: &str = "finish 0\nturn\nturn\n";

/// The script in which these bytes come at once.
fn at_once(alloc: Global, bytes: &str) -> Result<String> {
    Ok(format!(in alloc; "{BEFORE}bytes 0 {bytes}\n{BEHIND}")?)
}

/// The script in which they come one by one, with a turn behind each.
fn one_by_one(alloc: Global, bytes: &str) -> Result<String> {
    let mut text = String::from_str(alloc, BEFORE)?;
    for byte in bytes.chars() {
        text.push_str("bytes 0 ")?;
        text.push(byte)?;
        text.push_str("\nturn\n")?;
    }
    text.push_str(BEHIND)?;
    Ok(text)
}

/// A script in which these bytes came, and then the input ended, has the expected report.
fn compare(alloc: Global, bytes: &str, script: &str) -> Result<()> {
    let expected = expected_report(alloc, bytes.len())?;
    let report = report_of(alloc, script.as_bytes())?;
    same("report", &report.as_str(), &expected.as_str()).context(format_args!(
        "{} bytes",
        bytes.len()
    ))
}

fn compare_at_once(alloc: Global, bytes: &str) -> Result<()> {
    let script = at_once(alloc, bytes)?;
    compare(alloc, bytes, script.as_str())
}

fn compare_one_by_one(alloc: Global, bytes: &str) -> Result<()> {
    let script = one_by_one(alloc, bytes)?;
    compare(alloc, bytes, script.as_str())
}

pub(crate) fn a_message_counts_once_its_last_byte_came(alloc: Global) -> Result<()> {
    let mut came = String::new(alloc);
    compare_at_once(alloc, "")?;
    for next in FRAMES.chars() {
        came.push(next)?;
        compare_at_once(alloc, came.as_str())?;
    }
    same("bytes", &came.len(), &ALL)
}

pub(crate) fn so_it_does_where_they_come_one_by_one(alloc: Global) -> Result<()> {
    let mut came = String::new(alloc);
    for next in FRAMES.chars() {
        came.push(next)?;
        compare_one_by_one(alloc, came.as_str())?;
    }
    same("bytes", &came.len(), &ALL)
}

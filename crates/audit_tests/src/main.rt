//! Tests of journal_audit by its public call alone.
//!
//! The program makes its checks, with a line for each, and then audits edited reports, as the file that is named as
//! the first argument says: each of its lines is one of
//!
//!     NAME put LINE WANTED TEXT
//!     NAME add LINE WANTED TEXT
//!     NAME cut LINE WANTED
//!     NAME end LINE WANTED
//!
//! NAME stands for the file NAME.report. `put` puts TEXT in the place of its line LINE, `add` adds TEXT
//! before that line, `cut` takes the line out, and `end` takes it out with all behind it. WANTED is the
//! line that the audit is to name, or 0 where it is to say yes. Each edit with another verdict is
//! printed. The program fails where a check fails or a verdict is another.
//!
//! Stands on `journal_audit` (what is tried), `row_text` (checks), `draws` (numbers that look random) and `anyhow`
//! (errors). Told in docs/audit.md.
//!
//! Read `verdicts` (what an audit says), `edits` (edits of a report), `texts` (cut off, long, at random) and
//! `checks`.
#![tactic(auto)]

mod checks;
mod edits;
mod texts;
mod verdicts;

use anyhow::{Context, Result, bail};
use edits::{edited, read_edit};
use std::{env, fs};
use verdicts::named_line;

/// Whether an edit gets the verdict that is wanted.
fn is_as_wanted(rt: &HostRuntime, row: &str) -> Result<bool> {
    let alloc = rt.alloc();
    let edit = read_edit(row).context("an edit without its words")?;
    let report = fs::read_to_string(rt, format!(in alloc; "{}.report", edit.name)?)?;
    let report = edited(alloc, report.as_str(), &edit)?;
    let named = named_line(alloc, report.as_bytes())?;
    if named == edit.wanted {
        return Ok(true);
    }
    println!(rt; "{row}: {named}")?;
    Ok(false)
}

/// Tries the edits that a file says. Answers how many get another verdict than is wanted.
fn try_edits(rt: &HostRuntime, path: &str) -> Result<u64> {
    let rows = fs::read_to_string(rt, path)?;
    let mut tried = 0u64;
    let mut others = 0u64;
    for row in rows.lines() {
        tried = tried.saturating_add(1);
        if !is_as_wanted(rt, row).context(format_args!("edit {tried}"))? {
            others = others.saturating_add(1);
        }
    }
    if others == 0 {
        println!(rt; "{tried} edits as wanted")?;
    }
    Ok(others)
}

fn main(rt: HostRuntime) -> Result<()> {
    let failed = checks::tell_all(&rt)?;
    let mut words = env::args(&rt)?;
    let _program = words.next();
    let path = words.next().context("no file is named")?;
    let others = try_edits(&rt, path.as_str())?;
    if failed > 0 || others > 0 {
        bail!("{failed} checks failed, and {others} verdicts are others");
    }
    Ok(())
}

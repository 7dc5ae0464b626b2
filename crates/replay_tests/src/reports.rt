//! What a script leaves, and its report, as the gateway has it and as it is told plainly.

ghost use Rattle.std.specs.Prelude.{false};
ghost use Rattle.script_text.specs.Lawful.{IsLawful};

use anyhow::Result;
use journal_audit::{LONGEST_REPORT, Verdict, audit};
use plain_replay::plain_report;
use run_report::{RunRecord, report_text};
use script_run::carry_out;
use script_text::{Script, read_script};
use std::alloc::Global;

/// What a script leaves that is carried out to its end.
pub(crate) fn left_by(alloc: Global, script: Script) -> Result<RunRecord>
    requires { IsLawful false script }
{
    match carry_out(alloc, script) {
        Ok(left) => Ok(left),
        Err((why, _)) => Err(why.into()),
    }
}

/// What the script of a text leaves.
pub(crate) fn left_by_text(alloc: Global, text: &[u8]) -> Result<RunRecord> {
    let script = read_script(alloc, text, false)?;
    left_by(alloc, script)
}

/// The report of a script, read and carried out.
pub(crate) fn report_of(alloc: Global, text: &[u8]) -> Result<String> {
    let left = left_by_text(alloc, text)?;
    Ok(String::from_utf8(report_text(alloc, &left)?)?)
}

/// The report of a script, read and told plainly.
pub(crate) fn plain_report_of(alloc: Global, text: &[u8]) -> Result<String> {
    let script = read_script(alloc, text, false)?;
    Ok(plain_report(alloc, &script)?)
}

/// Whether the audit of a report says yes.
pub(crate) fn is_right(alloc: Global, report: &[u8]) -> Result<bool> {
    if report.len() > LONGEST_REPORT {
        return Ok(false);
    }
    Ok(audit(alloc, report)? == Verdict::Yes)
}

//! The audit of a run's report.

use crate::served::Ran;
use anyhow::{Result, bail};
use journal_audit::{LONGEST_REPORT, Verdict, audit};
use std::alloc::Global;

/// What the audit says of the report of a run.
pub(crate) fn verdict(alloc: Global, ran: &Ran) -> Result<Verdict> {
    let report = ran.report.as_slice();
    if report.len() > LONGEST_REPORT {
        bail!("the report is too long");
    }
    Ok(audit(alloc, report)?)
}

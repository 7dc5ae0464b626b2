//! What an audit says of a text.

use anyhow::{Result, bail};
use journal_audit::{LONGEST_REPORT, Verdict, audit};
use row_text::same;
use std::alloc::Global;

/// The line that an audit names, or 0 where it says yes.
pub(crate) fn named_line(alloc: Global, text: &[u8]) -> Result<u32> {
    if text.len() > LONGEST_REPORT {
        bail!("a report of more than {LONGEST_REPORT} bytes");
    }
    match audit(alloc, text)? {
        Verdict::Yes => Ok(0),
        Verdict::No { line } => Ok(line),
    }
}

/// An audit names this line, or says yes where it is 0.
pub(crate) fn names(alloc: Global, text: &[u8], line: u32) -> Result<()> {
    same("line", &named_line(alloc, text)?, &line)
}

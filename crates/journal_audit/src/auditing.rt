//! The audit of a whole report.

ghost use Rattle.std.specs.Prelude.{◌≡◌, ◌≤◌, ◌<◌, length, IfOk, IsTrue};
ghost use Rattle.journal_audit.specs.Verdicts.{IsVerdict};

use crate::auditor::Auditor;
use crate::split::split_line;
use gate_io::NoMemory;
use std::alloc::Global;

/// The most bytes of a report.
pub const LONGEST_REPORT: usize = 268_435_456;

/// Whether a report shows a lawful run, or else its first wrong line, counted from 1. Where none is
/// wrong and the end is missing, the line is the one behind the last.
#[derive(Clone, Copy, Debug, PartialEq, Eq)]
pub enum Verdict {
    Yes,
    No { line: u32 },
}

/// Audits a report of at most `LONGEST_REPORT` bytes. It takes memory in proportion to the text, and
/// time as well, but for the ordered maps of answers and of connections.
pub fn audit(alloc: Global, text: &[u8]) -> Result<Verdict, NoMemory>
    requires { length text.now ≤ LONGEST_REPORT }
    ensures { IfOk result (IsVerdict text.now) }
{
    let mut auditor = Auditor::new(alloc)?;
    let mut number = 1;
    let mut rest = text;
    while let Some((line, behind)) = split_line(rest) {
        if !auditor.read_line(alloc, line, behind)? {
            return Ok(Verdict::No { line: number });
        }
        number += 1;
        rest = behind;
    }
    if auditor.is_done() {
        Ok(Verdict::Yes)
    } else {
        Ok(Verdict::No { line: number })
    }
}

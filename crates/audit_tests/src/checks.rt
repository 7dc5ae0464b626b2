//! The checks, each by its name.

use crate::texts;
use anyhow::Result;
use row_text::Checks;

/// Makes them all, and prints a line for each. Answers how many failed.
pub(crate) fn tell_all(rt: &HostRuntime) -> Result<u64> {
    let alloc = rt.alloc();
    let mut checks = Checks::new();
    let right = texts::a_report_is_right(alloc);
    checks.tell(rt, "a_report_is_right", right)?;
    let cut_off = texts::a_report_that_is_cut_off_has_no_end(alloc);
    checks.tell(rt, "a_report_that_is_cut_off_has_no_end", cut_off)?;
    let long = texts::a_line_may_be_long(alloc);
    checks.tell(rt, "a_line_may_be_long", long)?;
    let wrong = texts::a_long_line_may_be_wrong(alloc);
    checks.tell(rt, "a_long_line_may_be_wrong", wrong)?;
    let at_random = texts::bytes_at_random_are_no_report(alloc);
    checks.tell(rt, "bytes_at_random_are_no_report", at_random)?;
    Ok(checks.failed())
}

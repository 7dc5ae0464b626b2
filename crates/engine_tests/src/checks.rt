//! The checks that are no rows, each by its name.

use crate::open_journals;
use anyhow::Result;
use row_text::Checks;

/// Makes them all, and prints a line for each. Answers how many failed.
pub(crate) fn tell_all(rt: &HostRuntime) -> Result<u64> {
    let alloc = rt.alloc();
    let mut checks = Checks::new();
    let bind = open_journals::an_open_bind_is_left(alloc);
    checks.tell(rt, "an_open_bind_is_left", bind)?;
    let lease = open_journals::an_active_lease_is_taken_back(alloc);
    checks.tell(rt, "an_active_lease_is_taken_back", lease)?;
    let release = open_journals::a_release_whose_hold_is_missing_gets_it(alloc);
    checks.tell(rt, "a_release_whose_hold_is_missing_gets_it", release)?;
    let both = open_journals::a_lease_ends_before_the_bind(alloc);
    checks.tell(rt, "a_lease_ends_before_the_bind", both)?;
    Ok(checks.failed())
}

//! Which kinds of lines the reports have.

use std::alloc::{AllocError, Global};

/// A part of a line of each kind, but for those that need very many messages.
const KINDS: [&str; 57] = [
    "\n arrive ",
    "\n admin ",
    "\n bind ",
    "\n leave ",
    "\n plan ",
    "\n reset ",
    "\n granted ",
    "\n refused ",
    "\n send ",
    "\n release ",
    "\n hand ",
    "\n hold ",
    "\n lapse ",
    "\n timeout ",
    "\n series ",
    "\nstray ",
    " unknown-session ",
    " other-owner ",
    " reserved ",
    " leases-spent ",
    " missing-messages ",
    " cause end",
    " cause read-fault",
    " cause write-fault",
    " cause not-logon",
    " cause no-such-session",
    " cause duplicate ",
    " cause bad-logon 98",
    " cause bad-logon 108",
    " cause bad-logon 141",
    " cause bad-logon 34",
    " cause no-number",
    " cause low-number ",
    " cause comp-id 49",
    " cause comp-id 56",
    " cause silent ",
    " cause logged-out",
    " cause none",
    ": asked ",
    ": outstanding ",
    ": asks-spent ",
    " poll: nothing",
    " poll: granted ",
    " poll: refused ",
    " poll: message ",
    " poll: stale ",
    " poll: lease-lost ",
    ": sent ",
    ": not-held",
    ": too-long ",
    ": bad-body ",
    ": lane-full ",
    ": sends-spent ",
    ": lost ",
    ": released ",
    ": handed ",
    ": bad-heir ",
];

/// The kinds that no report had so far.
#[derive(Drop)]
pub(crate) struct Missing {
    pub(crate) kinds: Vec<&'static str>,
}

impl Missing {
    pub(crate) fn all(alloc: Global) -> Result<Missing, AllocError> {
        let mut kinds = Vec::new(alloc);
        for kind in KINDS {
            kinds.push(kind)?;
        }
        Ok(Missing { kinds })
    }

    /// A report has some of them.
    pub(crate) fn see(&mut self, report: &str) {
        self.kinds.retain(|kind| !report.contains(*kind));
    }
}

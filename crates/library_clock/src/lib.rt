//! Two questions about the clock: which library fell silent, and which session is due.
//!
//! `Watch` keeps the last beat of each library and since when it stands. `Deadlines` keeps at most one
//! deadline a session, and gives those that are due one after another.
//!
//! Stands on `gate_io` (the error of want of memory). Its rules are told in
//! docs/registry-and-leases.md.
//!
//! Read `kept` (a library's last beat), `watch` (which library fell silent) and `deadlines` (which
//! session is due).
//!
//! Clauses to know first:
//!
//! - `expired` of `Watch::note`: a library has expired exactly where it shows the beat that is kept of
//!   it, and the moment is at least the timeout behind the one that is kept with that beat;
//! - `kept` of `Watch::note`: a beat that differs from the kept one is kept with the moment, and one
//!   that doesn't leaves what is kept;
//! - `least` of `Deadlines::due`: the answer is the least session whose deadline is at most the moment,
//!   and None where no session has such a deadline.
#![tactic(auto)]

mod deadlines;
mod kept;
mod watch;

pub use deadlines::Deadlines;
pub use watch::{Expired, Watch};

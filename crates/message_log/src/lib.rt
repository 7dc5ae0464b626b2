//! The logs of a session: the bodies that were accepted, and the messages that were numbered.
//!
//! A log is a list that only grows. It stands on pages of `PAGE` entries, so a push moves no entry of
//! a full page, and each look-up of an entry is counted by `Steps`.
//!
//! Stands on `gate_io` (bytes in fields, the error of want of memory). Its rules are told in
//! docs/logs-and-resends.md.
//!
//! Read `entry` (one numbered message), `shelf` (a list with counted look-ups) and `pages` (a list on pages); then
//! `in_log` (accepted bodies), `stretches` (where session entries adjoin) and `out_log` (numbered messages, in
//! series); last `laws` (how logs grow).
//!
//! Clauses to know first:
//!
//! - `named` of `OutLog::push`: the number that an Ok answers names the entry that was pushed, in the present
//!   series;
//! - `entry` of `entries_stay`: an entry that a log names by its series and number is the same in every log that
//!   goes on from it by pushes and turn-overs;
//! - `end` of `OutLog::stretch_end`: where a number is answered, all entries of the series from the given number to
//!   it are session entries, and the number behind it is no session entry's.
#![tactic(auto)]

mod entry;
mod in_log;
mod laws;
mod out_log;
mod pages;
mod shelf;
mod stretches;

pub use entry::OutEntry;
pub use in_log::InLog;
pub use laws::{entries_are_pushed, entries_stay, logs_go_on};
pub use out_log::{LAST_SERIES, OutLog};
pub use pages::{PAGE, Paged};
pub use shelf::{Shelf, Steps};

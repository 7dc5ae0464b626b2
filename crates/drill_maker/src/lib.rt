//! The drill: a large lawful script that is made from a number, so that a run of it needs no file.
//!
//! Eight counterparties send an order each in every round, and four libraries ask for four of the eight
//! sessions, catch up with them, read the order of the round, answer it and give the session back.
//!
//! Stands on `script_text` (scripts, and what makes one lawful), `engine_config` and `session_core` (the
//! configuration and its names), `fix_fields` and `fix_frame` (the fields of a body, and that it fits its frame),
//! `lease_core`, `lease_words` and `gate_io` (limits of the configuration, and lists) and `itoa` (decimal numbers).
//! Its rules are told in docs/scripts-and-reports.md.
//!
//! Read `limits` (the numbers of every drill), `bodies` (its texts), `steps` (those for all counterparties),
//! `rounds` (the steps of a round), `drilling` (the whole script) and `laws` (that it is lawful).
//!
//! Clauses to know first:
//!
//! - the one of `drill`: on Ok the script is exactly the drill of so many rounds;
//! - the one of `drills_are_lawful`: a drill of at most `MOST_ROUNDS` rounds is a script that a replay can carry
//!   out, as lawful as one that is read.
#![tactic(auto)]

mod bodies;
mod drilling;
pub mod laws;
mod limits;
mod rounds;
mod steps;

pub use drilling::drill;
pub use limits::MOST_ROUNDS;

//! A script that is served: the engine over a wire and a clock, and each library with its plan in a thread of its
//! own, side by side until nothing is left to do, or turns are spent.
//!
//! Stands on `engine_loop` and `engine_config` (the engine, its turn and its configuration), `plan_runner` (a plan,
//! carried out), `script_text` (the script), `library_api`, `library_desk` and `lease_words` (the libraries, what
//! they share with the engine, and their seats), `run_report` (the record), `lease_desk`, `switchboard` and
//! `ring_links` (definitions alone: one step behind another, the connections, the ends of a ring) and `gate_io`
//! (wire, clock and gate). Its rules are told in docs/runs.md.
//!
//! Read `workers` (a library and its work), `awaited` (what a run waits for), `starting` and `dealing` (libraries
//! begin, with their lines), `driving` (the engine's turns), `side_by_side` (engine and libraries in threads),
//! `meeting` (where they meet), `leaving` (what a run leaves) and `serving` (from beginning to end).
//!
//! Clauses to know first:
//!
//! - `serves` of `serve_script`: the record is what serving the script leaves: engine and libraries begin as
//!   configured, the engine makes its turns and each library works at its plan beside it, they meet, and that
//!   leaves the record;
//! - `in_part` of `serve_script`: where memory was wanting, the record is empty and the wire as it was, or the
//!   record is what there was of a script that had begun to be served;
//! - `drives` of `drive`: the engine makes turns while the run isn't over, at most as many as it may, and it is
//!   answered that the run is over, or that all these turns were made and it isn't.
#![tactic(auto)]

mod awaited;
mod dealing;
mod driving;
mod leaving;
mod meeting;
mod serving;
mod side_by_side;
mod starting;
mod workers;

pub use awaited::Awaited;
pub use serving::{Served, serve_script};
pub use workers::Worker;

//! A library's plan, carried out by the library's own thread beside the engine: its lines in order, each call asked
//! of a gate, made again where it has to wait, and kept with its answer.
//!
//! Stands on `script_text` (the lines of a plan), `library_calls` and `library_api` (the library and its calls),
//! `run_report` (what is reported of it), `lease_core` (commands and notices), `lease_words` and `ring_links`
//! (definitions alone: an item that was sent, a full ring) and `gate_io` (the gate). Its rules are told in
//! docs/runs.md.
//!
//! Read `lines` (what a line of a plan is), `work` (the plan as it is carried out), `telling` (the word that all is
//! done) and `running` (from beginning to end).
//!
//! Clauses to know first:
//!
//! - `runs` of `run_plan`: the lines were carried out in order, all of them or up to one that had so many waiting
//!   turns, then the library told the engine, or found no room for that, and the report has what was done;
//! - `calls` of `run_plan`: where the plan was carried out, the reported calls are those of its lines, all and in
//!   their order, and none is one that is made again;
//! - `told` of `run_plan`: the last command that was pushed says that all is done, and whether the plan was carried
//!   out, or so many calls in a row found no room for it.
#![tactic(auto)]

mod lines;
mod running;
mod telling;
mod work;

pub use running::run_plan;

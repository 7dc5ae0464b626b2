//! A script carried out on one thread: the engine, over a wire and a clock in memory that the script's lines
//! set, and its libraries, each of whose calls meets the engine before and behind it.
//!
//! Stands on `script_text` (the script and its steps), `engine_loop` and `engine_config` (the engine, its turn and
//! its configuration), `library_calls` and `library_api` (the libraries and their calls), `library_desk` and
//! `lease_words` (what engine and libraries share, and their seats), `run_report` (the record), `lease_desk`,
//! `ring_links` and `connection_core` (definitions alone: one step behind another, the ends of a ring, a
//! connection), `fix_frame` (the frame of a body) and `gate_io` (wire and clock in memory). Its rules are told in
//! docs/runs.md.
//!
//! Read `callers` (a library and its calls), `run` (a run, and each step), `coming` (what comes at the wire),
//! `meeting` (engine and library meet), `starting` (how a run begins), `leaving` (what it leaves) and `carrying`
//! (the whole script).
//!
//! Clauses to know first:
//!
//! - `means` of `carry_out`: the record is one that the script means: a run begins as it is configured, its steps
//!   are carried out in order, and the last run leaves the record;
//! - `in_part` of `carry_out`: where memory was wanting, the record is empty, or what a run left that carried out
//!   the first of its steps, or all, and of the next at most a beginning;
//! - `calls` of `Run::call`: a library's call that was made stands between two meetings of this library and the
//!   engine.
#![tactic(auto)]

mod callers;
mod carrying;
mod coming;
mod leaving;
mod meeting;
mod run;
mod starting;

pub use callers::Caller;
pub use carrying::carry_out;
pub use run::Run;

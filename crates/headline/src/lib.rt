//! What whole runs come to, and the headline: what holds of each record that a script leaves, in the words of the
//! record alone. Its sentences are definitions, which `specs/Headline.antt` gathers.
//!
//! - `runs`: whatever script is carried out, its sessions' journals tell the acts of what came, and bear out what
//!   each library's calls say that it sent, read, was told and gave back.
//! - `serving`: the same of a script that is served, however the threads came between one another.
//! - `clock`: what the clock had told where a connection of a served run ended since nothing came, or a lease was
//!   taken back for its library's silence.
//! - `laws`: the headline follows, and wrong records are refuted.
//!
//! It has no code, only laws of the definitions of the crates below, and hands on the two calls that they are
//! about.
//!
//! Stands on `script_run` and `serve_run` (what a script means, and what serving one leaves), `engine_laws` (what
//! turns keep), `engine_loop`, `engine_end`, `library_desk`, `session_desk`, `lease_desk` and `wire_desk` (what
//! turns, meetings and the end of a run are made of), `switchboard`, `session_book`, `connection_core` and
//! `session_core` (sessions, connections and session machines, with their laws), `library_api` (a library's calls
//! and what it knows), `lease_core`, `lease_words`, `library_clock` and `ring_links` (journals, the seats at the
//! lease table, beats, ends of rings), `message_log`, `resend_plan`, `fix_frame` and `fix_fields` (logs, texts,
//! frames, fields), `script_text`, `engine_config` and `run_report` (scripts, configurations and records) and
//! `gate_io` (the wire's counts and the clock's readings). Its rules are told in docs/laws.md and docs/promises.md.
//!
//! Read `runs` (scripts on one thread), `serving` (scripts that are served), `clock` (what the clock had told) and
//! `laws` (the headline, and wrong records).
//!
//! Clauses to know first:
//!
//! - the one of `headlines_hold`: the headline holds of each record that a script means, where the script's
//!   configuration and the record's journals are lawful;
//! - `headline` of `served_headlines_hold`: so it does of each record that serving a script leaves, where nothing
//!   had come at the wire before;
//! - `means` of `scripts_are_accounted_for`: each record that a script means is accounted for: it has the
//!   configured sessions, their journals tell the acts of what came, and journals and logs bear out what it reports
//!   of each library's calls.
#![tactic(auto)]

pub mod clock;
pub mod laws;
pub mod runs;
pub mod serving;

pub use script_run::carry_out;
pub use serve_run::{Served, serve_script};

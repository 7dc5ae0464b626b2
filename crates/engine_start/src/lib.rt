//! How an engine begins: its sessions, the lease table, the rings and both sides' ends of them, from a
//! configuration, and from records of the runs before where there are any.
//!
//! It stands on no wire and no clock: the moment is handed in.
//!
//! Stands on `engine_config` (the configuration), `session_book`, `switchboard` and `connection_core`
//! (sessions, their board, an outbox), `lease_core` (records, registries that go on), `lease_words`
//! (the lease table and its seats), `lease_desk`, `library_desk`, `library_clock`, `ring_links` and
//! `catchup_pump` (the engine's side, watch, rings and cursors), `session_core`, `seq_gaps` and
//! `fix_fields` (names, numbers, their limits and laws), `durable_journal` (for which records a file
//! stands), `session_desk` (the notes of entries, in contracts), `fix_frame` and `resend_plan` (frames
//! and items, in proofs) and `gate_io` (moments, want of memory). Its rules are told in docs/engine.md.
//!
//! Read `ends` (what a library is handed), `rings` (a library's two rings), `sides` (both sides' ends),
//! `sessions` (the configured sessions), `assembling` (both sides put together) and `starting` (a first
//! start); then `reviving` (records, session by session), `closing` (open journals are closed),
//! `resuming` (the table behind journals) and `restarting` (a start behind records); at last `laws`
//! (what a file stands for suffices).
//!
//! Clauses to know first:
//!
//! - `sessions` of `start`: behind Ok, there is one session for each pair of names, as it is
//!   configured, expecting number 1, with an empty journal and empty logs, and there is no connection;
//! - `sessions` of `start_from`: behind Ok, each session goes on behind its own records, with their
//!   entries and those that close the journal, the logs as they are read back and the number expected
//!   behind the last of them, and is the engine's and bound to no connection;
//! - `leases` of `start_from`: behind Ok, the engine's seat knows of each session the lines of leases
//!   that its journal tells, and counts on behind the last of them.
#![tactic(auto)]

mod assembling;
mod closing;
mod ends;
pub mod laws;
mod restarting;
mod resuming;
mod reviving;
mod rings;
mod sessions;
mod sides;
mod starting;

pub use ends::LibraryEnds;
pub use restarting::start_from;
pub use rings::RING_SLOTS;
pub use starting::start;

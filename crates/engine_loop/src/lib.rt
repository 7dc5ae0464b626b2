//! The engine, and its turn: what is asked of the wire, the clock, the lease table and the rings in a
//! turn, and in which order. And how the engine begins and ends.
//!
//! Stands on `wire_desk` (connections at the wire), `session_desk` (ticks, routes), `library_desk`
//! (libraries served, what both sides share), `lease_desk` and `switchboard` (the sessions with the
//! engine's seat, what happens to them, their laws), `engine_config`, `engine_start` and `engine_end`
//! (the configuration, both ends of a run), `durable_journal` (the journal that is kept),
//! `session_book` and `lease_core` (notes and records of entries, commands and notices), `lease_words`
//! and `ring_links` (the libraries' seats and ends of rings), `library_clock` (when a library falls
//! silent), `session_core` and `connection_core` (names, causes, the most that is read, the wait for a
//! Logon), `catchup_pump` (cursors, in proofs) and `gate_io` (wire, clock, gate, want of memory). Its
//! rules are told in docs/engine.md.
//!
//! Read `engine` (its parts, an operator's questions), `records` (what a turn tells) and `starting`
//! (how it begins); then `taking` (the first half of a turn), with `accepting`, `dialling`, `reading`,
//! `ticking`, `serving` and `noting` (its steps), and `giving` (the second half, and both), with
//! `publishing` (lengths of inbound logs), `keeping` (writes behind a journal), `due` (for how long
//! nothing is due) and `pausing` (a wait behind an idle turn); at last `finishing` (the end, and
//! meetings) and `laws` (what stays, is written, is left).
//!
//! Clauses to know first:
//!
//! - `turns` of `Engine::turn`: behind Ok, the turn is the chain of its steps at one moment, in order:
//!   at most one connection is accepted, due sessions dial, each connection that stands is read,
//!   sessions hear the clock, libraries are served, entries are noted, lengths are published, and each
//!   connection that isn't closed is written to;
//! - `engine` of `Engine::turn`: with memory or without, each journal's lines of leases are those that
//!   the seat has seen and there is room for what the run leaves; and where memory never was wanting,
//!   the engine is in order and the wire has its connections;
//! - `kept` of `Engine::give_kept`: behind Ok, on a board that was ready, what is written on each
//!   connection that names a session begins the outbound text that the session's entries told before,
//!   and the durable journal keeps just these entries of the session.
#![tactic(auto)]

mod accepting;
mod dialling;
mod due;
mod engine;
mod finishing;
mod giving;
mod keeping;
pub mod laws;
mod noting;
mod pausing;
mod publishing;
mod reading;
mod records;
mod serving;
mod starting;
mod taking;
mod ticking;

pub use due::LONGEST_PAUSE;
pub use engine::Engine;
pub use engine_end::EngineRecord;
pub use engine_start::LibraryEnds;
pub use records::{Taken, Turn};
pub use starting::{start, start_from};

//! What the engine does with the leases of its sessions: at the lease table, in the journals and on
//! the connections, each event whole.
//!
//! A `LeaseDesk` has the sessions with their connections and the engine's seat at the table. What a
//! lease word shows is recorded in the session's journal in the same call, so that between two calls
//! the lines of leases that a journal tells are those that the seat has seen. It knows no ring, wire or
//! clock.
//!
//! Stands on `switchboard` (the sessions with their connections), `lease_words` (the lease table and
//! the engine's seat), `lease_core` (replies, the laws of lines of leases), `fix_fields` (that a fit
//! body is that of a frame) and `gate_io` (bytes, moments, want of memory). Its rules are told in
//! docs/engine.md.
//!
//! Read `desk` (the sessions with the seat, publishing), `gathering` (looks and takings back) and
//! `requests` (grants and refusals); then `laws` (journals and seat go on agreeing).
//!
//! Clauses to know first:
//!
//! - `gathers` of `LeaseDesk::gather`: behind Ok, a word was found, the items of the new sends that it
//!   shows were taken, the session and what waits on its connection are those behind this word with the
//!   items' bodies, and no other session changes;
//! - `agrees` of `LeaseDesk::take_back`: with memory or without, the journal's lines of leases are
//!   those that the seat has seen, all that they show was taken, and no more is published than was
//!   accepted;
//! - `seat` of `LeaseDesk::request`: where the reply is a grant the seat has the session as the
//!   library's by one lease more, and where it is a refusal the seat is as it was.
#![tactic(auto)]

mod desk;
mod gathering;
pub mod laws;
mod requests;

pub use desk::{GATHERED, LeaseDesk};

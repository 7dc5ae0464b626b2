//! How a run of the engine ends: the libraries' seats are taken in, each session is gathered once more,
//! and what the run leaves is handed out. And how the engine and a library meet before that.
//!
//! It stands on no wire and no clock: moments are handed in.
//!
//! Stands on `library_desk` (the engine's side), `lease_desk` (gathering), `session_desk` (what holds
//! between two steps of a session), `switchboard`, `session_book` and `connection_core` (sessions and
//! connections, and what each leaves), `lease_words` and `ring_links` (the libraries' seats and ends of
//! rings), `lease_core` (records, commands and notices), `session_core` (the most sessions),
//! `message_log` and `library_clock` (entries and the watch, in definitions and proofs) and `gate_io`
//! (lists, moments, want of memory). Its rules are told in docs/engine.md.
//!
//! Read `records` (what a run leaves, its room), `settling` (seats are taken in), `gathering` (each
//! session once more), `noting` (records of the last entries) and `finishing` (the end of a run); then
//! `meeting` (the engine meets a library) and `laws` (the last gathering as happenings).
//!
//! Clauses to know first:
//!
//! - `finishes` of `finish`: behind Ok, the libraries' seats are taken in, each session is gathered
//!   once more, and what sessions and connections then leave is handed out, with the records of the
//!   entries that weren't handed out before;
//! - `finishes_short` of `finish`: where memory is wanting, sessions and connections are handed out as
//!   they stood behind none, some or all of these gatherings, with no record of a new entry;
//! - `seats` of `meet`: the engine's seat and the library's are each told what the other has done, seen
//!   and was told of at the lease table.
#![tactic(auto)]

mod finishing;
mod gathering;
pub mod laws;
mod meeting;
mod noting;
mod records;
mod settling;

pub use finishing::{finish, leave};
pub use library_desk::Stray;
pub use meeting::meet;
pub use records::{EngineRecord, RecordRoom};

//! The connections of the sessions at the wire: they are accepted, dialled, read and written, and what
//! they bring is handled.
//!
//! A call that asks something of the wire does what follows from the answer. The crate knows no clock:
//! moments are handed in.
//!
//! Stands on `gate_io` (the wire and its answers, moments, want of memory), `session_desk` (what a
//! session does, the routes), `lease_desk`, `lease_words` and `switchboard` (the sessions with the
//! engine's seat, the lease table, what happens to the sessions), `session_book` (the notes of new
//! entries), `connection_core` (pieces, the most that is read and written), `engine_config` (to where a
//! session dials), `session_core` (causes), `lease_core` (records), `fix_frame` (the pieces of a cut,
//! in contracts), and `message_log` and `resend_plan` (entries and items, in proofs). Its rules are
//! told in docs/engine.md.
//!
//! Read `desk` (what is kept of the connections) and `written` (why a write was the last); then
//! `accepting` (a connection is accepted), `dialling` (sessions that dial), `handling` (pieces, one
//! after another), `reading` (a connection is read), `writing` (what waits is written) and `fresh`
//! (records are handed out); at last `laws` (what goes on at the wire).
//!
//! Clauses to know first:
//!
//! - `reads` of `WireDesk::read`: behind Ok, the bytes that the wire gave are taken and their pieces
//!   handled one after another until the connection ends or there is no further one, an end of input or
//!   a fault ends it, and then one that stands ends if no Logon came in time;
//! - `writes` of `WireDesk::write`: behind Ok, as many bytes as are answered, and no more than a turn
//!   has for a connection, were written of what waits, it is said why no more, and one that stands ends
//!   behind a fault or where too many items wait;
//! - `wired` of `WireDesk::write_all_open`: behind Ok, each connection that stands isn't closed at the
//!   wire and is listed, and what is written of any connection is what the wire took of it, where the
//!   wire tells that.
#![tactic(auto)]

mod accepting;
mod desk;
mod dialling;
mod fresh;
mod handling;
pub mod laws;
mod reading;
mod writing;
mod written;

pub use desk::WireDesk;
pub use dialling::{Dialler, dialling_goes_on};
pub use written::{Stop, Written};

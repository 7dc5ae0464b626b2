//! The sessions and the connections together: which connection a session is bound to, and what each
//! event does to both. It stands on no wire, clock, lease table or ring.
//!
//! A connection is named by its place, in the order in which it was accepted or dialled; its number
//! is what the wire calls it. An event of a session finds the outbox of the connection to which the
//! session is bound, so an item waits in the same step in which its entry is made.
//!
//! Stands on `session_book` (a session, its definitions and laws), `connection_core` (a connection, its
//! outbox and pieces), `session_core` (causes, the most sessions), `lease_core` (words and replies),
//! `fix_frame` (the cut, in contracts) and `gate_io` (bytes, moments, want of memory). Its rules are
//! told in docs/sessions.md.
//!
//! Read `board` (sessions, connections and places), `messages` (bytes, pieces, messages and ticks),
//! `binding` (a session bound, a connection ended), `leases` (what leases do to a session) and
//! `writing` (texts and written bytes); then `laws` (what holds behind every list).
//!
//! Clauses to know first:
//!
//! - `run` of `boards_stay_ready`: behind every list of happenings a board that was ready is ready: a
//!   session has a place just where it is bound, to a connection that stands and names it, no two
//!   connections have one number, and what is written on each that names a session begins the outbound
//!   text that the session's journal tells of it;
//! - `run` of `boards_stay_told`: on a ready board, where moments come in order, it stays so that each
//!   journal tells the acts of the messages that were handled of its session's connections and no
//!   others, leases and what the clock alone sends aside, and that the log has for each library's sends
//!   what was taken;
//! - `run` of `pieces_are_handled`: on a ready board, where a session handles only the first message in
//!   hand of its connection, it stays so that the pieces that were handed out of a connection are those
//!   of the cut of its bytes, and the bodies of the good ones are the messages that were handled, in
//!   order, and behind them those in hand.
#![tactic(auto)]

mod binding;
mod board;
pub mod laws;
mod leases;
mod messages;
mod writing;

pub use board::Switchboard;
pub use session_core::MOST_SESSIONS;

//! What a session does in a turn: what its library did is gathered first, and then it hears the first
//! message of a connection, a later one, or the clock, or it dials. And how a connection ends.
//!
//! It stands on no wire and no clock: bodies and moments are handed in.
//!
//! Stands on `lease_desk` (the sessions with the engine's seat, gathering), `switchboard` (what happens
//! to sessions and connections, its laws), `session_book` (the notes of new entries), `session_core`
//! (routing, names and causes), `lease_words` (the lease table), `lease_core` (what a journal comes to,
//! in contracts), `fix_fields` (the fields of a first message) and `gate_io` (moments, want of memory).
//! Its rules are told in docs/engine.md.
//!
//! Read `routes` (the names of sessions that accept) and `steps` (what the calls are made of); then
//! `greeting` (a connection's first message), `hearing` (a later message), `ticking` (the clock),
//! `dialling` (a session dials) and `parting` (a connection ends); at last `laws` (all go on, none
//! comes).
//!
//! Clauses to know first:
//!
//! - `greets` of `greet`: behind Ok, the session to which the first message is routed is gathered and
//!   then bound to the connection, which it leaves at once if its Logon ends that, or the connection
//!   ends by the cause that refuses the message;
//! - `hears` of `hear`: behind Ok, the session is gathered, then receives the message, and leaves the
//!   connection if the message ends that;
//! - `ticks` of `tick`: behind Ok, the session is gathered, a reservation whose time is over lapses,
//!   and then the session does what is due at the moment, and leaves its connection if that ends by it.
#![tactic(auto)]

mod dialling;
mod greeting;
mod hearing;
pub mod laws;
mod parting;
mod routes;
mod steps;
mod ticking;

pub use dialling::dial;
pub use greeting::greet;
pub use hearing::hear;
pub use parting::part;
pub use routes::Routes;
pub use ticking::tick;

//! The wire over TCP: the sockets of a run, when the system is asked which of them are ready, and how
//! often a call failed, was blocked, or found an end or no connection.
//!
//! Stands on `gate_io` (the traits of a wire that also dials, their answers and limits), `thread_bells` (the bell beside
//! which it sleeps, and when it does) and `mio` (the sockets, and the poll of them). Its rules are told in docs/outside.md.
//!
//! Read `counts` (how often calls failed, were blocked, or found the end), `port` (one socket), `watch` (all sockets in a
//! poll) and `sockets` (when the system is asked, and when it sleeps); then `net_wire` (the wire that is handed on).
//!
//! Clauses to know first:
//!
//! - `after` of `LinkCounts::read`: a read that found an end, was blocked or failed raises its own
//!   count of the connection by one, up to 2^64 - 1, and no other; one that gave bytes raises none;
//! - `after` of `LinkCounts::write`: a write that was blocked or failed raises its own count of the
//!   connection by one, up to 2^64 - 1, and no other; one that took bytes raises none.
#![tactic(auto)]

mod counts;
mod net_wire;
mod port;
mod sockets;
mod watch;

pub use net_wire::NetWire;
pub use port::{DRAIN_BYTES, DRAIN_READS};
pub use watch::{END_ROUNDS, END_WAIT};

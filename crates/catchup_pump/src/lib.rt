//! Catch-up and live feed: the messages of a session's inbound log are pushed into a library's notice
//! ring, from a cursor on, in order, each with its position.
//!
//! A lease's cursor begins where its library asked for the replay to begin, and the one call `pump`
//! serves the replay and what arrives later alike.
//!
//! Stands on `gate_io` (bytes, and want of memory), `message_log` (the inbound log), `lease_core` (the
//! notice of a message) and `ring_links` (the ring and its tail). Its rules are told in
//! docs/libraries.md.
//!
//! Read `cursor` (where a pump stands and stops), `pumping` (the pump) and `laws` (what holds of pushed
//! messages).
//!
//! Clauses to know first:
//!
//! - `pushed` of `pump`: behind what was pushed before stand the messages that the cursor passed, in
//!   order, each with its session, lease, position and bytes, also where memory is wanting;
//! - `log_end` of `pump`: where a pump stops at the log's end, the cursor stands there;
//! - `ring_full` of `pump`: where it stops since the ring is full, the ring has no room by a taken
//!   count that was loaded in this call.
#![tactic(auto)]

mod cursor;
mod laws;
mod pumping;

pub use cursor::{Cursor, Pumped, Stop};
pub use laws::{logs_grow, pumps_join, pushed_messages_are_the_log};
pub use pumping::pump;

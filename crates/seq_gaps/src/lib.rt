//! The number line of one direction of a session: which MsgSeqNum comes next, and which later
//! messages are held until the gap before them is filled.
//!
//! FIX 4.4, volume 2, "Ordered Message Processing" and "Message Recovery": a message is carried out
//! on its number; one that comes early shows a gap, which is asked for again. This crate keeps early
//! items by their numbers, at most `HELD_LIMIT` of them, says for each item that comes where it
//! stands, and names no gap twice until the line is cleared or begins again.
//!
//! Stands on `gate_io` (the error of want of memory). Its rules are told in docs/session-protocol.md.
//!
//! Read `offered` (places, gaps and limits), `held` (early items by their numbers), `expect` (the number line) and
//! `calls` (whole lists of calls); last `laws` (of the definitions).
//!
//! Clauses to know first:
//!
//! - `now` of `Expect::offer`: an item comes back to be carried out exactly where its number is the expected one
//!   and isn't held;
//! - `gap` of `Expect::offer`: the gap of an item that is held goes from the expected number, or from the one
//!   behind the horizon where that is greater, up to the number below the item's own; where that leaves no number
//!   there is none;
//! - `in_order` of `make_calls`: from any call on before which nothing is held, where the calls only offer and
//!   take, no offer finds no room and the expected number isn't held at the end, on Ok they hand on, for each
//!   number from the first expected one up to the first without an offer, the item offered first with it.
#![tactic(auto)]

mod calls;
mod expect;
mod held;
pub mod laws;
mod offered;

pub use calls::{Answer, Call, make_calls};
pub use expect::Expect;
pub use offered::{Gap, HELD_LIMIT, MAX_NUMBER, Offered, Place};

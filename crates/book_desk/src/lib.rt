//! The calls of a session's book as crates of tests make them: each says besides that what waits on connections can
//! still be written. And when a lease word may be shown, which a measuring program takes too.
//!
//! Stands on `session_book` (the book, and what waits), `connection_core` (connections and outboxes),
//! `session_core` (causes, names, phases), `lease_core` (words and replies), `resend_plan` and `fix_frame` (which
//! bodies are fit) and `gate_io` (bytes, the last moment, want of memory). Told in docs/tests.md.
#![tactic(auto)]

mod calls;
mod words;

pub use calls::{
    bind, dial, lapse, leave, prepare, receive, request, reserve, show, tick, time_out, write,
};
pub use words::{can_show, put_body};

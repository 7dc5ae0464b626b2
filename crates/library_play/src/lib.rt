//! A library as tests play it: its answers as plain values that can be compared, without a message's bytes.
//!
//! Stands on `library_api` (the library, its events and refusals), `lease_core` (commands, words, why one is
//! refused), `lease_words` (seats and sends), `ring_links` (a full ring) and `gate_io` (bytes, want of memory).
//! Told in docs/tests.md.
#![tactic(auto)]

mod application;

pub use application::{Application, Seen};

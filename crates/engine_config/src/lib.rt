//! What an engine is configured with: its sessions and to where they dial, its libraries, and the limits
//! of both.
//!
//! Stands on `gate_io` (list types, the most connections), `session_core` (names, the most sessions,
//! the bounds of HeartBtInt) and `fix_fields`, `lease_core` and `lease_words` (limits that its
//! definitions cite). Its rules are told in docs/engine.md.
#![tactic(auto)]

mod config;

pub use config::{Config, DialTo, MOST_HOLD, MOST_TIMEOUT, MOST_WAIT};

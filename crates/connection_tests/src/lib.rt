//! Tests of one connection, by public calls alone.
//!
//! Stands on `connection_core` (the connection, which is tried), `message_log` (the outbound log), `resend_plan`
//! (items and names), `session_core` (causes), `fix_frame` (frames), `gate_io` (bytes, want of memory), `row_text`
//! (texts of messages), `rand_pcg` and `rand_core` (numbers that look random). Told in docs/connections.md.
//!
//! Read `texts`, `checks` (comparisons as calls), `desk` (log, names and a connection) and `steps` (steps as data);
//! then `taking` (what comes), `writing` (what is written) and `ends` (late, slow, first causes).
#![tactic(auto)]

#[cfg(test)]
mod checks;
#[cfg(test)]
mod desk;
#[cfg(test)]
mod ends;
#[cfg(test)]
mod steps;
#[cfg(test)]
mod taking;
#[cfg(test)]
mod texts;
#[cfg(test)]
mod writing;

//! Tests of `session_book` and `connection_core` for refused memory, by their public calls: each event of a
//! session and of its connection, with the states in which a refused allocation may leave it. Where no
//! allocation is refused, as in the gate, they show that each event comes to what it should.
//!
//! Stands on `session_book` and `connection_core`, which are tried, `book_desk` (the book's calls), `session_core`
//! (routing and causes), `seq_gaps` (the number line), `lease_core` (entries and words), `resend_plan` (which
//! bodies are fit), `fix_frame` (frames), `fix_fields` (fields), `gate_io` (bytes, moments, want of memory) and
//! `row_text` (texts of messages). Told in docs/sessions.md.
//!
//! Read `texts`, `states` (what is told of both), `desk` (book and connection), `events` (events as data) and
//! `rows` (how a row is tried); then `message_rows`, `lease_rows` and `reading` (records that are read back).
#![tactic(auto)]

#[cfg(test)]
mod desk;
#[cfg(test)]
mod events;
#[cfg(test)]
mod lease_rows;
#[cfg(test)]
mod message_rows;
#[cfg(test)]
mod reading;
#[cfg(test)]
mod rows;
#[cfg(test)]
mod states;
#[cfg(test)]
mod texts;

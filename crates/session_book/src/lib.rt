//! One session as the engine keeps it: the session machine, the journal and the two logs, which go on
//! together, one event at a time.
//!
//! It is handed bodies, words and moments, and queues what is to be written with the connection to
//! which the session is bound. It knows no table, ring, wire or clock.
//!
//! Stands on `session_core` (the session machine and its acts), `lease_core` (the registry with its
//! journal), `message_log` (both logs), `resend_plan` (plans and items), `connection_core` (the
//! outbox), `seq_gaps` (the number line), `fix_fields` (the longest name, the text of a field) and
//! `gate_io` (bytes, moments, want of memory). Its rules are told in docs/sessions.md.
//!
//! Read `book` (a session's parts), `reads` (what can be read of them), `acts` (one act carried out),
//! `messages` (what connection and clock ask) and `leases` (words, requests and lapses); then `records`
//! (the records of new entries), `reviving` (going on from records) and `rereading` (both tied
//! together); at last `laws` (what holds of calls and runs).
//!
//! Clauses to know first:
//!
//! - `ok` of `SessionBook::receive`: behind Ok, the session and what waits on its connection are what
//!   they come to once the session machine has heard the message and the acts that it asks for are
//!   carried out, in order;
//! - `message` of `runs_are_told`: where the entries of each connection, but for those of leases and of
//!   what the clock alone sends, tell the acts of the messages that were handled of it and no others,
//!   they do so behind one message more;
//! - `written` of `texts_are_told`: where what was queued on a connection is what the journal tells of
//!   it, the bytes written there begin the outbound text that the journal tells.
#![tactic(auto)]

mod acts;
mod book;
pub mod laws;
mod leases;
mod messages;
mod reads;
mod records;
mod rereading;
mod reviving;

pub use book::SessionBook;
pub use reads::SessionRecord;
pub use records::Unkept;
pub use rereading::records_are_read_back;
pub use reviving::{Revival, texts_tell_session_entries};

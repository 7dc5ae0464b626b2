//! One connection without the wire: bytes come in, pieces are handed out, items wait, and their text
//! is handed out for the wire to take.
//!
//! Nothing here reads, writes or waits. The texts of items are made from a session's outbound log
//! only as they are about to be written, and each is made once.
//!
//! Stands on `fix_frame` (bytes cut into pieces, a body into its frame), `resend_plan` (items and their bodies),
//! `message_log` (the outbound log), `session_core` (the causes of an end) and `gate_io` (bytes in fields, the
//! error of want of memory). Its rules are told in docs/connections.md.
//!
//! Read `limits` (of reads, writes and waiting items), `records` (what a connection leaves), `outbox` (items and
//! their texts) and `connection` (one connection, whole); last `laws` (of items and pieces).
//!
//! Clauses to know first:
//!
//! - `given` of `Connection::next`: on Ok, if the pieces handed out before are those of the cut of what was taken,
//!   up to what is held, they are so with the next one; where there is no next one, they are all pieces of that
//!   cut;
//! - `written` of `items_have_text`: what is written begins the text of the items that were queued, one behind
//!   another;
//! - `unanswered` of `Connection::prepare`: while the Logon of a dialled connection isn't answered, on Ok a text is
//!   made of its first item alone, and only where none was made before.
#![tactic(auto)]

mod connection;
mod laws;
mod limits;
mod outbox;
mod records;

pub use connection::Connection;
pub use fix_frame::OwnedPiece;
pub use laws::{items_have_text, items_stay_queued, pieces_are_those_of_the_cut};
pub use limits::{LOGON_WAIT, MOST_READ, MOST_WAITING, MOST_WRITTEN};
pub use outbox::Outbox;
pub use records::ConnRecord;

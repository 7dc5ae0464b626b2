//! What is sent again where a counterparty asks for messages, and the body of each message as it is
//! written.
//!
//! FIX 4.4, volume 2, "Message Recovery": application entries are sent again with PossDupFlag, and a
//! gap fill stands for a run of session entries. A Reject counts as an application entry.
//!
//! Stands on `message_log` (the outbound log and its entries), `fix_fields` (fields and timestamps as text, the
//! limits of names and bodies), `fix_frame` (which bodies have a frame, and how long it may be), `gate_io` (bytes
//! in fields, the last moment, the error of want of memory) and `itoa` (numbers in decimal digits). Its rules are
//! told in docs/logs-and-resends.md.
//!
//! Read `item` (what waits to be written) and `planning` (the items of a resend); then `names` (CompIDs as they are
//! written), `stamps` (the text of a moment), `kept` (both, for a connection) and `wire` (a message's body); last
//! `laws` (of plans and texts).
//!
//! Clauses to know first:
//!
//! - `numbers` of `plan`: on Ok the numbers that the items stand for, one after the other, are just those that are
//!   asked for;
//! - `answers` of `plan`: on Ok each item is of that series and moment, and either sends an application entry again
//!   or is a gap fill that stands for session entries alone;
//! - `text` of `wire_body`: on Ok the body is exactly the text of the item, over the log and the names: of a new
//!   message, of one that is sent again, or of a gap fill.
#![tactic(auto)]

mod item;
mod kept;
mod laws;
mod names;
mod planning;
mod stamps;
mod wire;

pub use fix_fields::{LONGEST_APPLICATION_BODY, LONGEST_NAME};
pub use item::{LONGEST_GAP_FILL, LONGEST_HEADER, Names2, WireItem};
pub use kept::KeptTexts;
pub use laws::{items_stay, logs_stay_fit, plans_answer, texts_are_bodies};
pub use planning::plan;
pub use wire::{fill_wire_body, wire_body};

//! What a run leaves, as text: the report of the whole record, and the summary of a drill.
//!
//! The record is that of the engine, with the calls of its libraries beside it. It is printed line by
//! line, in an order that is the same at each run.
//!
//! Stands on `engine_end`, `session_book`, `connection_core`, `message_log` and `lease_core` (the engine's record:
//! sessions, connections, logs, journals), `session_core` (why a connection ended), `library_api` and `lease_words`
//! (what a library's calls answer), `script_text` (bytes as they are printed), `fix_fields` (timestamps), `itoa`
//! (decimal numbers) and `gate_io` (lists, and the numbers of connections). Its rules are told in
//! docs/scripts-and-reports.md.
//!
//! Read `calls` and `records` (what a run leaves), `words` (a line of the report), `journal_lines`, `log_lines` and
//! `session_lines` (the lines of a session), `connection_lines` (strays and connections), `call_lines` (a library
//! and its calls), `report` (the whole report) and `summary` (that of a drill); `room` (room for what libraries
//! leave) is for those who make a record.
//!
//! Clauses to know first:
//!
//! - the one of `report_text`: on Ok the text is exactly the report of the record, line by line;
//! - the one of `summary_text`: on Ok the text is exactly the summary of the record of a drill of so many rounds;
//! - the one of `RunRecord::none`: the record of a run that didn't begin has no session, connection, stray or
//!   library.
#![tactic(auto)]

mod call_lines;
mod calls;
mod connection_lines;
mod journal_lines;
mod log_lines;
mod records;
mod report;
mod room;
mod session_lines;
mod summary;
mod words;

pub use calls::Call;
pub use records::{LibReport, RunRecord};
pub use report::report_text;
pub use room::LibraryRoom;
pub use summary::summary_text;

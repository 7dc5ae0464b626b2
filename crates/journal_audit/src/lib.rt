//! An auditor of reports: whether a report shows a lawful run, and if it doesn't its first wrong line.
//!
//! The auditor stands apart from the engine. It reads the report's text alone, line by line, and knows
//! the registry's rules of what may follow what, how a report is printed, and which bodies a library may
//! send.
//!
//! Stands on `lease_core` (entries, the registry's rules and their laws), `script_text` (words, names, and bytes as
//! they are printed), `fix_fields` (timestamps, and which bodies are fit), `memchr` (the end of a line, the last
//! colon) and `gate_io` (bytes, and want of memory). Its rules are told in docs/audit.md.
//!
//! Read `line` (what a line says), `split` and `words` (lines and their words), `entry_lines`, `calls` and
//! `line_reading` (how a line is read), `place`, `replies` and `session` (what is kept of the lines), `auditor`
//! (whether the next line is right), `auditing` (the audit of a whole report) and `laws` (what the verdict Yes
//! shows).
//!
//! Clauses to know first:
//!
//! - the one of `audit`: on Ok the verdict is Yes exactly where each line is right behind those before it and the
//!   report is whole, and else No with the first line that isn't right, or the number behind the last line;
//! - the one of `journals_are_lawful`: in a report with the verdict Yes each session's entries are a run of the
//!   registry, and its holdings are those of the entries, which cut the inbound messages into adjoining spans;
//! - `deeds` of `deeds_are_the_libraries_own`: in a report with the verdict Yes, what a library's calls say that it
//!   sent and gave back of a session is what the session's journal has of it, each once and in one order.
#![tactic(auto)]

mod auditing;
mod auditor;
mod calls;
mod entry_lines;
pub mod laws;
mod line;
mod line_reading;
mod place;
mod replies;
mod session;
mod split;
mod words;

pub use auditing::{LONGEST_REPORT, Verdict, audit};

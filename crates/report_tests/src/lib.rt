//! Tests of run_report by its public calls alone: records that are made by hand, and their whole reports.
//!
//! Stands on `run_report` (what is tried), `engine_end`, `session_book`, `connection_core` and `library_desk` (what
//! a run leaves), `library_api`, `lease_words` and `ring_links` (a library, and answers of its calls), `lease_core`
//! (entries, registries, commands), `message_log` (both logs), `session_core` (names and causes), `fix_frame`
//! (frames), `gate_io` (bytes, lists, the last moment) and `row_text` (texts of messages). Told in
//! docs/scripts-and-reports.md.
//!
//! Read `texts`, `checks` (a comparison as a call), `sessions`, `libraries` and `records` (what a run leaves); then
//! `session_rows`, `connection_rows`, `call_rows` and `summary_rows`; last `wholes`, `expected` and `whole_rows`
//! (whole records and reports).
#![tactic(auto)]

#[cfg(test)]
mod call_rows;
#[cfg(test)]
mod checks;
#[cfg(test)]
mod connection_rows;
#[cfg(test)]
mod expected;
#[cfg(test)]
mod libraries;
#[cfg(test)]
mod records;
#[cfg(test)]
mod session_rows;
#[cfg(test)]
mod sessions;
#[cfg(test)]
mod summary_rows;
#[cfg(test)]
mod texts;
#[cfg(test)]
mod whole_rows;
#[cfg(test)]
mod wholes;

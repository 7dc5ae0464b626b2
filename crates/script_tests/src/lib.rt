//! Tests of script_text by its public calls alone.
//!
//! Stands on `script_text` (what is tried), `fix_fields` (a moment as text) and `gate_io` (bytes, the last moment).
//! Told in docs/scripts-and-reports.md.
//!
//! Read `checks` (comparisons as calls) and `answers` (what a reading answers); then `configs`, `lines`,
//! `connections`, `dials`, `texts` (bytes and faults as printed), `limits` and `faults`.
#![tactic(auto)]

#[cfg(test)]
mod answers;
#[cfg(test)]
mod checks;
#[cfg(test)]
mod configs;
#[cfg(test)]
mod connections;
#[cfg(test)]
mod dials;
#[cfg(test)]
mod faults;
#[cfg(test)]
mod limits;
#[cfg(test)]
mod lines;
#[cfg(test)]
mod texts;

//! Tests of the durable journal, by public calls alone.
//!
//! Stands on `durable_journal` (what is tried), `session_core` (texts of session messages), `lease_core` (records
//! and their entries), `gate_io` (bytes, want of memory) and `draws` (numbers that look random). Told in
//! docs/durable-journal.md.
//!
//! Read `rows` (records byte by byte), `fields`, `bodies`, `table` (rows of the format), `runs` (which rows may
//! follow), `reader` (what a file stands for), `recovering` (answers beside the reader's) and `checks` (comparisons
//! as calls); then `ranges`, `files` and `damage` (one byte changed); `made` (journals that look random),
//! `images` (what crashes leave), `encoded` (records as text), `writer` and `crashes`; last `logons`, `disks` (a
//! file, failing disks) and `limits`.
#![tactic(auto)]

#[cfg(test)]
mod bodies;
#[cfg(test)]
mod checks;
#[cfg(test)]
mod crashes;
#[cfg(test)]
mod damage;
#[cfg(test)]
mod disks;
#[cfg(test)]
mod encoded;
#[cfg(test)]
mod fields;
#[cfg(test)]
mod files;
#[cfg(test)]
mod images;
#[cfg(test)]
mod limits;
#[cfg(test)]
mod logons;
#[cfg(test)]
mod made;
#[cfg(test)]
mod ranges;
#[cfg(test)]
mod reader;
#[cfg(test)]
mod recovering;
#[cfg(test)]
mod rows;
#[cfg(test)]
mod runs;
#[cfg(test)]
mod table;
#[cfg(test)]
mod writer;

//! Tests of the byte layers, frames and fields, by their public calls alone; and `cut_parts`, a caller
//! of a `Cutter` for bytes that come in parts of any size.
//!
//! Stands on `fix_frame` (frames and their cut) and `fix_fields` (fields, numbers, timestamps), which are tried,
//! `gate_io` (bytes, want of memory, the last moment), `rand_core` and `rand_pcg` (numbers that look random). Told
//! in docs/frames-and-fields.md.
//!
//! Read `feeding` (bytes that come in parts), `texts` and `checks` (comparisons as calls); then `frames`, `fields`
//! and `values` (numbers and timestamps); last `plain_cut` and `plain_fields` (both told plainly) and `streams`
//! (random streams).
#![tactic(auto)]

#[cfg(test)]
mod checks;
mod feeding;
#[cfg(test)]
mod fields;
#[cfg(test)]
mod frames;
#[cfg(test)]
mod plain_cut;
#[cfg(test)]
mod plain_fields;
#[cfg(test)]
mod streams;
#[cfg(test)]
mod texts;
#[cfg(test)]
mod values;

pub use feeding::{OwnedPiece, cut_parts};

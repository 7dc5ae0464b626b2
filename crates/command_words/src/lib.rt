//! The command that the words behind the program's name give.
//!
//! Stands on `clap` (the words by their places), `script_text` (how a number is written), `drill_maker` (the most
//! rounds of a drill) and `gate_io` (a text that is kept). Its rules are told in docs/promises.md.
//!
//! Read `words` (the commands and their words), `numbers` (the numbers of a command), `places` (the words by their
//! places) and `laws` (that words give one command).
//!
//! Clauses to know first:
//!
//! - `chosen` of `command_of`: a command that is answered is one that the words give;
//! - `usage` of `command_of`: Usage is answered only where the words give no command;
//! - `wanted` of `command_of`: want of memory is answered only where no word is empty or begins with `-`.
#![tactic(auto)]

pub mod laws;
mod numbers;
mod places;
mod words;

pub use words::{Chosen, MOST_TURNS, WordsError, command_of};

//! The top calls of the gateway: a recorded script, or a drill, is carried out on one thread, or a script is
//! served, with engine and libraries in threads of their own, and the report of what that leaves is written.
//!
//! Stands on `command_words` (the command that words give), `script_text` and `drill_maker` (its script),
//! `headline` (the two calls that carry out and serve a script, and the laws of what they leave), `run_report` (the
//! record and its texts), `engine_end`, `session_book` and `lease_core` (the sessions of a record, and their lawful
//! journals) and `gate_io` (source, sink, wire, clock and gate). Its rules are told in docs/promises.md.
//!
//! Read `statuses` (how a command ends), `reading` (how the script is read), `writing` (what is written of a run),
//! `journals` (what lawful journals tell), `replaying` and `serving` (the top calls) and `command_line` (words,
//! fault line, exit status).
//!
//! Clauses to know first:
//!
//! - `meant` of `replay`: on Ok and on WriteFault the record is what a script means, the drill or that of the
//!   source where it tells its text, all that the record tells is accounted for, and the headline holds of it;
//! - `served` of `serve`: on Ok, TurnsSpent and WriteFault the record is what serving a script left, that of the
//!   source where it tells its text, over a wire that came to listen at the address of the words, and the headline
//!   holds of it;
//! - `reported` of `replay`: on Ok a sink that tells its bytes took the report of that record, or of a drill the
//!   summary, whole, and nothing else.
#![tactic(auto)]

mod command_line;
mod journals;
mod reading;
mod replaying;
mod serving;
mod statuses;
mod writing;

pub use command_line::{end, program, run, script_to_serve, words_of};
pub use command_words::{Chosen, WordsError, command_of};
pub use replaying::replay;
pub use run_report::{Call, LibReport, RunRecord};
pub use serving::serve;
pub use statuses::Status;

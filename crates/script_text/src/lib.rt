//! What goes into a run, as text: the script, and bytes as they are printed.
//!
//! A script is bytes, cut into lines. `read_script` answers what it says, or the first line that is
//! outside the grammar and what is wrong with it.
//!
//! Stands on `engine_config` (the configuration that a script gives), `session_core`, `lease_core` and
//! `lease_words` (a session's names, and limits of numbers), `fix_frame` (whether a body fits its frame),
//! `fix_fields` (timestamps, and the length of a name), `gate_io` (lists, and the numbers of connections) and
//! `memchr` (the end of a line). Its rules are told in docs/scripts-and-reports.md.
//!
//! Read `steps` (what a script says), `kinds` (what can be wrong), `lines` (what a line says), `limits` (of
//! numbers), `numbers` (of connections), `parts` (which of several faults counts), `words` and `args` (the words of
//! a line), `config_lines`, `event_lines` and `lib_lines` (the three sorts of lines), `draft` (the lines so far),
//! `reading` (a whole script), `printed` (bytes as they are printed) and `laws` (what the definitions come to).
//!
//! Clauses to know first:
//!
//! - `ok` of `read_script`: a script that is answered is exactly what the text says by the grammar;
//! - `fault` of `read_script`: a fault that is answered is exactly the text's: that it is too long, or else its
//!   first line outside the grammar and what is wrong with it;
//! - `lawful` of `read_script`: each script that is read has a configuration that an engine can be started with,
//!   and each of its steps fits behind those before it, with a library that is there and a connection that an
//!   earlier line made.
#![tactic(auto)]

mod args;
mod config_lines;
mod draft;
mod event_lines;
mod kinds;
pub mod laws;
mod lib_lines;
mod limits;
mod lines;
mod numbers;
mod parts;
mod printed;
mod reading;
mod steps;
mod words;

pub use engine_config::{Config, DialTo};
pub use kinds::{ScriptError, ScriptKind};
pub use limits::MOST_COUNT;
pub use printed::{push_printed, read_text};
pub use reading::{LONGEST_SCRIPT, read_script};
pub use session_core::Names;
pub use steps::{LibStep, Script, Step};
pub use words::{is_name, read_natural, split_word};

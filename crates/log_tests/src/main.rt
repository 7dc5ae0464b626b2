//! Tests of the logs of a session and of what is sent again, by public calls alone: rows worked by hand, and
//! generated logs beside plain lists, which no clause ties to the definitions.
//!
//! Each argument names a file of rows (`row_text`). A row is played on logs of its own, on which nothing is yet. A
//! step is a line of words, of which the first says what is done (`acts.rt`) or asked (`facts.rt`). What is left of
//! the line is what the step has to come to, as `Debug` prints it where nothing else is said. In a body `|` stands
//! for SOH.
//!
//! For each row there is a line with its steps, or with the first that isn't understood or comes to something
//! else. The program fails if a row has such a step.
//!
//! Stands on `message_log` (both logs) and `resend_plan` (plans, and the text of an item), which are tried,
//! `fix_frame` (frames), `gate_io` (bytes, want of memory), `row_text` (rows, and texts of messages), `draws`
//! (numbers that look random) and `anyhow` (errors). Told in docs/logs-and-resends.md.
//!
//! Read `texts`, `both` (a log beside plain lists), `desk` (the logs of a row), `items` (text and frame) and
//! `plain` (look-ups in plain lists); then `alike` and `plans` (comparisons with those), `acts`, `facts` and
//! `rows`.
#![tactic(auto)]

mod acts;
mod alike;
mod both;
mod desk;
mod facts;
mod items;
mod plain;
mod plans;
mod rows;
mod texts;

use anyhow::{Context, Result};
use row_text::{end, play_file};
use rows::Logs;
use std::env;

fn main(rt: HostRuntime) -> Result<()> {
    let mut names = env::args(&rt)?;
    let _program = names.next();
    let mut differ = 0u64;
    for name in names {
        let name = name.as_str();
        let others = play_file(&rt, rt.alloc(), &Logs {}, name).context(format_args!("{name}"))?;
        differ = differ.saturating_add(others);
    }
    end(differ)
}

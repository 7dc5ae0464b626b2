//! Scripts that are refused.

use crate::replayed::{ROOM, replayed, replayed_with};
use anyhow::{Context, Result};
use gateway_run::Status;
use script_text::ScriptKind;
use std::alloc::Global;

/// A script, and the line and the kind of its first fault.
type Case = (&'static [u8], u32, ScriptKind);

const CASES: [Case; 4] = [
    (
        b"session GATE BUYER\nlibraries 1\nturns\n",
        3,
        ScriptKind::UnknownWord,
    ),
    (
        b"connect\nconnect\nat 20260105-09:30:60\n",
        3,
        ScriptKind::BadNumber,
    ),
    (b"lib 9 answer\n", 1, ScriptKind::OutOfRange),
    (b"turn\nsession GATE BUYER", 2, ScriptKind::Misplaced),
];

pub(crate) fn first_faulty_lines(alloc: Global) -> Result<()> {
    for (script, line, kind) in CASES {
        let ended = replayed(alloc, script, ROOM)?;
        let compared = ended.is_with(Status::ScriptFault { line, kind }, b"");
        compared.context(format_args!("{script:?}"))?;
    }
    Ok(())
}

pub(crate) fn a_script_that_is_too_long(alloc: Global) -> Result<()> {
    let script = vec![in alloc; b'#'; 16_777_217]?;
    let fault = Status::ScriptFault {
        line: 0,
        kind: ScriptKind::TooLong,
    };
    let ended = replayed_with(alloc, script, None, 10, None)?;
    ended.is_with(fault, b"")
}

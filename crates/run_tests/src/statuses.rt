//! Faults of source and sink, and the line of each status.

use crate::replayed::{ROOM, replayed, replayed_with};
use crate::rows::ROW;
use anyhow::Result;
use gateway_run::Status;
use row_text::same;
use script_text::ScriptKind;
use std::alloc::Global;

pub(crate) fn a_read_fails(alloc: Global) -> Result<()> {
    let row = Vec::from_slice(alloc, ROW.as_bytes())?;
    let ended = replayed_with(alloc, row, Some(0), ROOM, None)?;
    ended.is_with(Status::ReadFault, b"")
}

pub(crate) fn a_write_fails(alloc: Global) -> Result<()> {
    let row = Vec::from_slice(alloc, ROW.as_bytes())?;
    let ended = replayed_with(alloc, row, None, ROOM, Some(0))?;
    ended.is_with(Status::WriteFault, b"")
}

pub(crate) fn a_sink_has_too_little_room(alloc: Global) -> Result<()> {
    let ended = replayed(alloc, ROW.as_bytes(), 10)?;
    ended.is_with(Status::WriteFault, b"fixgate re")
}

/// A status, its number, and its line.
type Case = (Status, u8, &'static str);

const CASES: [Case; 8] = [
    (Status::Ok, 0, ""),
    (Status::OutOfMemory, 1, "fixgate: out of memory"),
    (
        Status::Usage,
        2,
        "usage: fixgate replay SCRIPT | drill N | serve SCRIPT ADDRESS TURNS",
    ),
    (
        Status::ScriptFault {
            line: 12,
            kind: ScriptKind::OutOfRange,
        },
        3,
        "fixgate: script line 12: out of range",
    ),
    (Status::ReadFault, 4, "fixgate: cannot read the script"),
    (Status::WriteFault, 5, "fixgate: cannot write the report"),
    (
        Status::TurnsSpent {
            turns: 3,
            library: 0,
        },
        6,
        "fixgate: 3 turns spent by 0",
    ),
    (Status::ListenFault, 7, "fixgate: cannot listen"),
];

pub(crate) fn lines_and_codes(alloc: Global) -> Result<()> {
    for (status, code, line) in CASES {
        same("code", &status.code(), &code)?;
        let printed = format!(in alloc; "{status}")?;
        same("line", &printed.as_str(), &line)?;
    }
    Ok(())
}

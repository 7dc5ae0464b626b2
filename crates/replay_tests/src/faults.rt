//! Faults of scripts, each by the line that has it.

use anyhow::{Context, Result};
use row_text::same;
use script_text::{LONGEST_SCRIPT, ScriptError, ScriptKind, read_script};
use std::alloc::Global;

/// A script, and the line and the kind of its first fault.
type Case = (&'static [u8], u32, ScriptKind);

const CASES: [Case; 8] = [
    // Bytes are printable ones of ASCII.
    (b"session GATE BUYER\ntur\x80\n", 2, ScriptKind::BadByte),
    // February has 28 days in 2026.
    (b"at 20260229-00:00:00\n", 1, ScriptKind::BadNumber),
    (
        b"session GATE A23456789012345678901234567890b23\n",
        1,
        ScriptKind::BadText,
    ),
    // A body begins with its type.
    (b"connect\nframe 0 49=BUYER|\n", 2, ScriptKind::BadText),
    (b"option lane 0\n", 1, ScriptKind::OutOfRange),
    (b"libraries 1\nlib 0 poll\n", 2, ScriptKind::OutOfRange),
    (
        b"libraries 1\nlib 1 release 65536\n",
        2,
        ScriptKind::OutOfRange,
    ),
    (
        b"libraries 1\nlib 1 hand 0 256\n",
        2,
        ScriptKind::OutOfRange,
    ),
];

pub(crate) fn faults_by_their_lines(alloc: Global) -> Result<()> {
    for (text, line, kind) in CASES {
        let error = read_script(alloc, text, false).err();
        let fault = Some(ScriptError::Fault { line, kind });
        same("error", &error, &fault).context(format_args!("{text:?}"))?;
    }
    Ok(())
}

pub(crate) fn a_script_that_is_too_long_has_no_other_fault(alloc: Global) -> Result<()> {
    let mut text = Vec::from_slice(alloc, b"turns\n")?;
    text.resize(LONGEST_SCRIPT + 1, b'\n')?;
    let error = read_script(alloc, text.as_slice(), false).err();
    let fault = Some(ScriptError::Fault {
        line: 0,
        kind: ScriptKind::TooLong,
    });
    same("error", &error, &fault)
}

pub(crate) fn the_clock_may_stand(alloc: Global) -> Result<()> {
    let text = b"at 20260105-09:30:00.000\nat 20260105-09:30:00\n";
    let script = read_script(alloc, text, false)?;
    same("steps", &script.steps.as_slice().len(), &2)
}

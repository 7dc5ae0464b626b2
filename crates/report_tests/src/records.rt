//! What a run leaves, and its report.

use connection_core::ConnRecord;
use engine_end::EngineRecord;
use gate_io::{Bytes, Rows};
use library_desk::Stray;
use run_report::{LibReport, RunRecord, report_text};
use session_book::SessionRecord;
use session_core::Cause;
use std::alloc::Global;
use std::test::Fail;

/// A run's sessions, its connections, of which so many were accepted, and its libraries.
pub fn run(
    alloc: Global,
    sessions: Vec<SessionRecord>,
    accepted: u32,
    connections: Vec<ConnRecord>,
    libraries: Vec<LibReport>,
) -> RunRecord {
    run_with(
        alloc,
        sessions,
        Vec::new(alloc),
        accepted,
        connections,
        libraries,
    )
}

/// The same with strays.
pub fn run_with(
    alloc: Global,
    sessions: Vec<SessionRecord>,
    strays: Vec<Stray>,
    accepted: u32,
    connections: Vec<ConnRecord>,
    libraries: Vec<LibReport>,
) -> RunRecord {
    RunRecord {
        engine: EngineRecord {
            sessions: Rows::of(sessions),
            connections: Rows::of(connections),
            strays: Rows::of(strays),
            accepted,
            added: Rows::of(Vec::new(alloc)),
        },
        libraries: Rows::of(libraries),
    }
}

/// A connection over which nothing was read or written.
pub fn silent(alloc: Global, cause: Option<Cause>) -> ConnRecord {
    ConnRecord {
        session: None,
        taken: Bytes::of(Vec::new(alloc)),
        garbled: 0,
        written: Bytes::of(Vec::new(alloc)),
        cause,
    }
}

/// The lines of a run's report between its first and its last.
pub fn lines(alloc: Global, run: &RunRecord) -> Result<Vec<u8>, Fail> {
    let text = report_text(alloc, run)?;
    let behind = text
        .as_slice()
        .strip_prefix(b"fixgate report 1\n")
        .ok_or("the first line")?;
    let within = behind.strip_suffix(b"end\n").ok_or("the last line")?;
    Ok(Vec::from_slice(alloc, within)?)
}

//! Replays of a script in memory.

use anyhow::{Context, Result};
use gate_io::{MemSink, MemSource};
use gateway_run::{Status, replay};
use row_text::same;
use std::alloc::Global;

/// Room for a report that isn't cut off.
pub(crate) const ROOM: usize = 8192;

/// The words of a command, in a line that has `|` behind each.
pub(crate) fn words(alloc: Global, line: &str) -> Result<Vec<String>> {
    let mut all = Vec::new(alloc);
    for word in line.split_terminator('|') {
        all.push(String::from_str(alloc, word)?)?;
    }
    Ok(all)
}

/// How a command ended, and what the sink took.
#[derive(Drop)]
pub(crate) struct Ended {
    status: Status,
    pub(crate) written: Vec<u8>,
}

impl Ended {
    /// It ended so.
    pub(crate) fn is(&self, status: Status) -> Result<()> {
        same("status", &self.status, &status)
    }

    /// It ended so, and the sink took these bytes.
    pub(crate) fn is_with(&self, status: Status, written: &[u8]) -> Result<()> {
        self.is(status)?;
        same("written", &self.written.as_slice(), &written)
    }
}

/// What comes of these words, where the source gives a script and the sink has so much room.
pub(crate) fn commanded(
    alloc: Global,
    words: &[String],
    source: &mut MemSource,
    sink: &mut MemSink,
) -> Result<Ended> {
    let (status, _record) = replay(alloc, words, source, sink);
    let written = Vec::from_slice(alloc, sink.bytes())?;
    Ok(Ended { status, written })
}

/// What comes of a replay of these bytes, of which one read or one write may fail.
pub(crate) fn replayed_with(
    alloc: Global,
    script: Vec<u8>,
    failing_read: Option<u64>,
    room: usize,
    failing_write: Option<u64>,
) -> Result<Ended> {
    let words = words(alloc, "replay|a.script|")?;
    let mut source = MemSource::new(script, listed(alloc, failing_read)?);
    let mut sink = MemSink::new(alloc, room, listed(alloc, failing_write)?)?;
    commanded(alloc, words.as_slice(), &mut source, &mut sink)
}

/// What comes of a replay of these bytes, with so much room.
pub(crate) fn replayed(alloc: Global, script: &[u8], room: usize) -> Result<Ended> {
    replayed_with(alloc, Vec::from_slice(alloc, script)?, None, room, None)
}

/// Each script is carried out, and its report is the one beside it.
pub(crate) fn compare_all(alloc: Global, cases: &[(&str, &str)]) -> Result<()> {
    for (script, report) in cases {
        let ended = replayed(alloc, script.as_bytes(), ROOM)?;
        let compared = ended.is_with(Status::Ok, report.as_bytes());
        compared.context(format_args!("{script:?}"))?;
    }
    Ok(())
}

fn listed(alloc: Global, call: Option<u64>) -> Result<Vec<u64>> {
    let mut calls = Vec::new(alloc);
    if let Some(call) = call {
        calls.push(call)?;
    }
    Ok(calls)
}

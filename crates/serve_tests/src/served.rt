//! Runs of a script over a wire in memory.

ghost use Rattle.std.specs.Prelude.{◌≡◌};

use anyhow::Result;
use gate_io::{Clock, Dial, Gate, MemSink, MemSource};
use gateway_run::{RunRecord, Status, serve};
use row_text::{holds, same};
use std::alloc::Global;
use std::thread::Threads;

/// The moment of the tests: 20260105-09:30:00.000.
pub(crate) const MOMENT: u64 = 1_767_605_400_000;

/// How a run ended, and what its sink took.
#[derive(Drop)]
pub(crate) struct Ran {
    pub(crate) status: Status,
    pub(crate) report: Vec<u8>,
}

impl Ran {
    /// How often a text stands in the report.
    fn count(&self, text: &str) -> usize {
        let report = self.report.as_slice();
        let mut count = 0usize;
        for at in 0..report.len() {
            if report[at..].starts_with(text.as_bytes()) {
                count = count.saturating_add(1);
            }
        }
        count
    }

    /// A text stands in the report so often.
    pub(crate) fn has_often(&self, text: &str, wanted: usize) -> Result<()> {
        same(text, &self.count(text), &wanted)
    }

    /// These texts stand in the report.
    pub(crate) fn has(&self, texts: &[&str]) -> Result<()> {
        for text in texts {
            holds(text, self.count(text) > 0)?;
        }
        Ok(())
    }

    /// It ended so.
    pub(crate) fn ended_as(&self, status: Status) -> Result<()> {
        same("status", &self.status, &status)
    }

    /// All that the sink took are these bytes.
    pub(crate) fn has_written(&self, bytes: &[u8]) -> Result<()> {
        same("written", &self.report.as_slice(), &bytes)
    }
}

/// The words that serve a script, with so many turns.
pub(crate) fn words(alloc: Global, turns: &str) -> Result<Vec<String>> {
    let mut all = Vec::new(alloc);
    for text in ["serve", "a.script", "localhost:0", turns] {
        all.push(String::from_str(alloc, text)?)?;
    }
    Ok(all)
}

/// Serves a script as these words say, into a sink of so much room, and answers the record too.
pub(crate) fn recorded<R: Threads + Sync, W: Dial + Send, C: Clock + Send, G: Gate + Sync>(
    rt: &R,
    alloc: Global,
    script: &str,
    words: &[String],
    wire: &mut W,
    clock: &mut C,
    gate: &G,
    room: usize,
) -> Result<(Ran, RunRecord)>
    requires accepted { (W.door wire.old).accepted ≡ 0 }
    requires dialled { (W.door wire.old).dialled ≡ 0 }
{
    let text = Vec::from_slice(alloc, script.as_bytes())?;
    let mut source = MemSource::new(text, Vec::new(alloc));
    let mut sink = MemSink::new(alloc, room, Vec::new(alloc))?;
    let (status, record) = serve(rt, alloc, words, &mut source, wire, clock, gate, &mut sink);
    let report = Vec::from_slice(alloc, sink.bytes())?;
    Ok((Ran { status, report }, record))
}

/// Serves a script with so many turns, into a sink of so much room.
pub(crate) fn served<R: Threads + Sync, W: Dial + Send, C: Clock + Send, G: Gate + Sync>(
    rt: &R,
    alloc: Global,
    script: &str,
    turns: &str,
    wire: &mut W,
    clock: &mut C,
    gate: &G,
    room: usize,
) -> Result<Ran>
    requires accepted { (W.door wire.old).accepted ≡ 0 }
    requires dialled { (W.door wire.old).dialled ≡ 0 }
{
    let words = words(alloc, turns)?;
    let (ran, _record) = recorded(rt, alloc, script, words.as_slice(), wire, clock, gate, room)?;
    Ok(ran)
}

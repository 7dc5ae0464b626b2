//! What `replay` makes of the words behind the program's name.

use crate::replayed::{commanded, words};
use anyhow::{Context, Result};
use gate_io::{MemSink, MemSource};
use gateway_run::Status;
use std::alloc::Global;

/// Words that give no command, and those of a command that `replay` doesn't have. The first line has none.
const REFUSED: &str = "
replay|
replay|-x|
replay||
replay|a|b|
drill|0|
drill|501|
drill|seven|
serve|a.script|127.0.0.1:9880|1|
";

/// The words of a line end so, where the source is empty, and the sink takes this text.
fn compare(alloc: Global, line: &str, status: Status, written: &str) -> Result<()> {
    let words = words(alloc, line)?;
    let mut source = MemSource::new(Vec::new(alloc), Vec::new(alloc));
    let mut sink = MemSink::new(alloc, 200, Vec::new(alloc))?;
    let ended = commanded(alloc, words.as_slice(), &mut source, &mut sink)?;
    ended.is_with(status, written.as_bytes())
}

pub(crate) fn words_that_replay_refuses(alloc: Global) -> Result<()> {
    for line in REFUSED.lines() {
        compare(alloc, line, Status::Usage, "").context(format_args!("{line:?}"))?;
    }
    Ok(())
}

pub(crate) fn words_of_a_drill(alloc: Global) -> Result<()> {
    let summary =
        "fixgate drill 7\nsessions 8 libraries 4 connections 8\naccepted 56 entries 36 leases 28 reads 76 sends 28\nend\n";
    compare(alloc, "drill|7|", Status::Ok, summary)
}

//! The summary of a drill's run.

ghost use Rattle.std.specs.Prelude.{◌≡◌, ◌++◌, IfOk, OnOk, min};
ghost use Rattle.std.specs.List.{count_by};
ghost use Rattle.run_report.specs.Summary.{MOST_TOLD, accepted_in, is_send, leases_in, numbered_in, reads_in, sends_in, sizes_line, summary_of, sums_line, told_sum};

use crate::records::{LibReport, RunRecord};
use crate::words::ReportWord::{Number, Word};
use crate::words::put_line;
use gate_io::NoMemory;
use lease_core::Entry;
use session_book::SessionRecord;
use std::alloc::Global;

/// The summary of the run of `drill n`: counts of what there was, and sums of what was done. A sum
/// above `u64::MAX` is written as that number. It takes time in proportion to the entries of all journals.
pub fn summary_text(alloc: Global, n: u32, run: &RunRecord) -> Result<Vec<u8>, NoMemory>
    ensures { IfOk result (λ text. text.items ≡ summary_of n run.now) }
{
    let mut out = Vec::new(alloc);
    put_line(&mut out, "fixgate", &[Word("drill"), Number(u64::from(n))])?;
    put_sizes(&mut out, run)?;
    put_sums(&mut out, run)?;
    put_line(&mut out, "end", &[])?;
    Ok(out)
}

#[tactic(auto, unfolding(crate::specs::Summary::sizes_line))]
fn put_sizes(out: &mut Vec<u8>, run: &RunRecord) -> Result<(), NoMemory>
    ensures { OnOk result (out.new.items ≡ out.old.items ++ sizes_line run.now) }
{
    put_line(
        out,
        "sessions",
        &[
            Number(run.engine.sessions.as_slice().len() as u64),
            Word("libraries"),
            Number(run.libraries.as_slice().len() as u64),
            Word("connections"),
            Number(run.engine.connections.as_slice().len() as u64),
        ],
    )
}

#[tactic(auto, unfolding(crate::specs::Summary::sums_line))]
fn put_sums(out: &mut Vec<u8>, run: &RunRecord) -> Result<(), NoMemory>
    ensures { OnOk result (out.new.items ≡ out.old.items ++ sums_line run.now) }
{
    let sessions = run.engine.sessions.as_slice();
    put_line(
        out,
        "accepted",
        &[
            Number(accepted(sessions)),
            Word("entries"),
            Number(numbered(sessions)),
            Word("leases"),
            Number(leases(sessions)),
            Word("reads"),
            Number(reads(run.libraries.as_slice())),
            Word("sends"),
            Number(sends(sessions)),
        ],
    )
}

#[tactic(auto, using(crate::proofs::Sums::told_sum_none))]
fn accepted(sessions: &[SessionRecord]) -> u64
    ensures { result ≡ told_sum accepted_in sessions.now }
{
    let mut sum: u64 = 0;
    for session in sessions {
        sum = sum.saturating_add(session.inbound.len());
    }
    sum
}

#[tactic(auto, using(crate::proofs::Sums::told_sum_none))]
fn numbered(sessions: &[SessionRecord]) -> u64
    ensures { result ≡ told_sum numbered_in sessions.now }
{
    let mut sum: u64 = 0;
    for session in sessions {
        sum = sum.saturating_add(session.outbound.len());
    }
    sum
}

#[tactic(auto, using(crate::proofs::Sums::told_sum_none))]
fn leases(sessions: &[SessionRecord]) -> u64
    ensures { result ≡ told_sum leases_in sessions.now }
{
    let mut sum: u64 = 0;
    for session in sessions {
        let (_, lease) = session.registry.owner();
        sum = sum.saturating_add(u64::from(lease));
    }
    sum
}

#[tactic(auto, using(crate::proofs::Sums::told_sum_none))]
fn reads(libraries: &[LibReport]) -> u64
    ensures { result ≡ told_sum reads_in libraries.now }
{
    let mut sum: u64 = 0;
    for library in libraries {
        sum = sum.saturating_add(library.reads);
    }
    sum
}

#[tactic(auto, using(crate::proofs::Sums::told_sum_none))]
fn sends(sessions: &[SessionRecord]) -> u64
    ensures { result ≡ told_sum sends_in sessions.now }
{
    let mut sum: u64 = 0;
    for session in sessions {
        sum = sum.saturating_add(sends_of(session.registry.entries()));
    }
    sum
}

/// How many of the entries are sends.
fn sends_of(entries: &[Entry]) -> u64
    ensures { result ≡ count_by is_send entries.now }
{
    let mut count = 0;
    for entry in entries {
        if matches!(entry, Entry::Send { .. }) {
            count += 1;
        }
    }
    count
}

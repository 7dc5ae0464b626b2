//! The lines of a session's two logs.

ghost use Rattle.std.specs.Prelude.{◌≡◌, ◌≤◌, ◌^◌, ◌++◌, [], OnOk, length, slice_index_or};
ghost use Rattle.message_log.specs.Series.{entry_at, series_at};
ghost use Rattle.run_report.specs.Lines.{numbered_texts};
ghost use Rattle.run_report.specs.Sessions.{found_line, inbound_line, outbound_line, series_line, series_text};

use crate::words::ReportWord::{Number, Printed, Stamp, Word};
use crate::words::put_indented;
use gate_io::NoMemory;
use message_log::{InLog, OutEntry, OutLog};

/// The messages that were accepted.
pub fn put_inbound(out: &mut Vec<u8>, log: &InLog) -> Result<(), NoMemory>
    ensures { OnOk result (out.new.items ≡ out.old.items ++ numbered_texts inbound_line 0 log.now.items) }
{
    for pos in 0..log.len() {
        put_accepted(out, pos, log)?;
    }
    Ok(())
}

#[tactic(auto, unfolding(crate::specs::Sessions::inbound_line))]
fn put_accepted(out: &mut Vec<u8>, pos: u64, log: &InLog) -> Result<(), NoMemory>
    ensures { OnOk result (out.new.items ≡ out.old.items ++ inbound_line pos (slice_index_or log.now.items pos [])) }
{
    put_indented(out, &[Word("in"), Number(pos), Printed(body_at(log, pos))])
}

/// The body at a position.
fn body_at(log: &InLog, pos: u64) -> &[u8]
    ensures { result.now ≡ slice_index_or log.now.items pos [] }
{
    match log.body(pos) {
        Some(body) => body,
        None => &[],
    }
}

/// The messages that were numbered, series by series.
pub fn put_outbound(out: &mut Vec<u8>, log: &OutLog) -> Result<(), NoMemory>
    ensures { OnOk result (out.new.items ≡ out.old.items ++ numbered_texts series_text 1 log.now.series) }
{
    for before in 0..log.series() {
        put_series(out, before + 1, log)?;
    }
    Ok(())
}

/// A series, by its number, with its messages.
fn put_series(out: &mut Vec<u8>, series: u32, log: &OutLog) -> Result<(), NoMemory>
    requires there { (1 ≤ series) × (series ≤ length log.now.series) }
    ensures { OnOk result (out.new.items ≡ out.old.items ++ series_text series (series_at log.now.series series)) }
{
    put_series_line(out, series)?;
    put_numbered(out, series, log)
}

#[tactic(auto, unfolding(crate::specs::Sessions::series_line))]
fn put_series_line(out: &mut Vec<u8>, series: u32) -> Result<(), NoMemory>
    ensures { OnOk result (out.new.items ≡ out.old.items ++ series_line series) }
{
    if series > 1 {
        put_indented(out, &[Word("series"), Number(u64::from(series))])
    } else {
        Ok(())
    }
}

/// The messages of a series.
fn put_numbered(out: &mut Vec<u8>, series: u32, log: &OutLog) -> Result<(), NoMemory>
    ensures { OnOk result (out.new.items ≡ out.old.items ++ numbered_texts outbound_line 1 (series_at log.now.series series)) }
{
    let count = length_of(log, series);
    for before in 0..count {
        put_message(out, series, before + 1, log)?;
    }
    Ok(())
}

/// How many messages a series has; none where it isn't there.
fn length_of(log: &OutLog, series: u32) -> u64
    ensures length { result ≡ length (series_at log.now.series series) }
    ensures few { result ≤ 2 ^ 63 }
{
    match log.len_of(series) {
        Some(length) => length,
        None => 0,
    }
}

/// The message with this number of the series, where there is one.
fn put_message(out: &mut Vec<u8>, series: u32, number: u64, log: &OutLog) -> Result<(), NoMemory>
    ensures { OnOk result (out.new.items ≡ out.old.items ++ found_line number (entry_at log.now.series series number)) }
{
    match log.entry(series, number) {
        Some(entry) => put_entry(out, number, entry),
        None => Ok(()),
    }
}

#[tactic(auto, unfolding(crate::specs::Sessions::outbound_line))]
fn put_entry(out: &mut Vec<u8>, number: u64, entry: &OutEntry) -> Result<(), NoMemory>
    ensures { OnOk result (out.new.items ≡ out.old.items ++ outbound_line number entry.now) }
{
    put_indented(
        out,
        &[
            Word("out"),
            Number(number),
            Stamp(entry.at),
            Printed(entry.body.as_slice()),
        ],
    )
}

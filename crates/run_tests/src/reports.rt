//! Scripts that are carried out.

use crate::replayed::{Ended, ROOM, compare_all, replayed};
use crate::rows::{
    DAILY_HEARTBEATS, DAILY_HEARTBEATS_REPORT, NO_HEARTBEATS, NO_HEARTBEATS_REPORT, NO_MESSAGES,
    NO_MESSAGES_REPORT, ROW, ROW_REPORT, TEN_MESSAGES, TEN_MESSAGES_REPORT, THREE_MESSAGES,
    THREE_MESSAGES_REPORT,
};
use anyhow::{Context, Result};
use gateway_run::Status;
use row_text::holds;
use script_text::ScriptKind;
use std::alloc::Global;

/// A script, and its report.
type Case = (&'static str, &'static str);

const WHOLE: [Case; 6] = [
    (ROW, ROW_REPORT),
    (NO_MESSAGES, NO_MESSAGES_REPORT),
    (THREE_MESSAGES, THREE_MESSAGES_REPORT),
    (TEN_MESSAGES, TEN_MESSAGES_REPORT),
    (NO_HEARTBEATS, NO_HEARTBEATS_REPORT),
    (DAILY_HEARTBEATS, DAILY_HEARTBEATS_REPORT),
];

const SMALL: [Case; 5] = [
    ("", "fixgate report 1\nend\n"),
    ("# nothing\n\nturn", "fixgate report 1\nend\n"),
    (
        "session GATE BUYER\nconnect\nfinish 0\nturn\n",
        "fixgate report 1\nsession 0 GATE BUYER owner 0 lease 0 in 0 out 0\n holding 0 0 from 0 start 0 end 0 sends 0\nconnection 0 session - taken 0 garbled 0 written 0 cause end\nend\n",
    ),
    (
        "libraries 2\nconnect\nturn\nfinish 0\n",
        "fixgate report 1\nconnection 0 session - taken 0 garbled 0 written 0 cause none\nlibrary 1 reads 0\nlibrary 2 reads 0\nend\n",
    ),
    (
        "option timeout 60000\nsession GATE BUYER\nat 20260105-09:30:00\nat 20260105-09:30:01\nturn\nconnect\nturn\nframe 0 35=A|49=BUYER|56=GATE|34=1|98=0|108=30|\nturn\nfinish 0\nframe 0 35=D|49=BUYER|56=GATE|34=2|11=A1|\n",
        "fixgate report 1\nsession 0 GATE BUYER owner 0 lease 0 in 0 out 1\n bind 0\n admin 1\n holding 0 0 from 0 start 0 end 0 sends 0\n out 1 20260105-09:30:01.000 35=A|98=0|108=30|\nconnection 0 session 0 taken 61 garbled 0 written 86 cause none\n wrote 8=FIX.4.4|9=64|35=A|49=GATE|56=BUYER|34=1|52=20260105-09:30:01.000|98=0|108=30|10=149|\nend\n",
    ),
];

/// Of every kind of line some, each script with the connections of its report.
const EVERY_LINE: [&str; 11] = [
    "session GATE BUYER\n\nsession GATE DESK\nconnect\nconnect\n",
    "connect\n# a comment\nconnect\n",
    "connect\nat 20260105-09:30:00\n",
    "connect\nbytes 0 8=\n",
    "connect\nturn\nfailread 0\nfailwrite 0 3\n",
    "connect\nblock 0 10\nunblock 0\n",
    "libraries 1\nlib 1 poll\nlib 1 beat\nlib 1 request 0 0\nlib 1 send 0 35=8|\nlib 1 release 0\n",
    "libraries 1\nsession GATE BUYER\ndial GATE HUB hub:1 30 1000\ntake\nturn\n",
    "turn\ntake\nfinish 1024\n",
    "connect\nframe 0 35=A|49=BUYER|56=GATE|34=1|98=0|108=30|\nturn\nturn\n",
    "session GATE BUYER\nconnect\nframe 0 35=A|49=BUYER|56=GATE|34=1|98=0|108=30|\nframe 0 35=D|49=BUYER|56=GATE|34=1|11=A1|\nturn\nturn\n",
];

pub(crate) fn whole_reports(alloc: Global) -> Result<()> {
    compare_all(alloc, &WHOLE)
}

pub(crate) fn small_scripts(alloc: Global) -> Result<()> {
    compare_all(alloc, &SMALL)
}

/// A run came to its end, and its report is whole.
fn is_whole(ended: &Ended) -> Result<()> {
    ended.is(Status::Ok)?;
    let written = ended.written.as_slice();
    holds(
        "a report begins",
        written.starts_with(b"fixgate report 1\n"),
    )?;
    holds("it ends", written.ends_with(b"end\n"))
}

pub(crate) fn scripts_of_every_line(alloc: Global) -> Result<()> {
    for script in EVERY_LINE {
        let ended = replayed(alloc, script.as_bytes(), ROOM)?;
        is_whole(&ended).context(format_args!("{script:?}"))?;
    }
    Ok(())
}

/// What stands before and behind the value of field 58 in a script, and in its report.
const BEFORE: &[u8] =
    b"session GATE BUYER\nlibraries 1\nat 20260105-09:30:00.000\nconnect\nframe 0 35=A|49=BUYER|56=GATE|34=1|52=20260105-09:30:00.000|98=0|108=30|\nframe 0 35=D|49=BUYER|56=GATE|34=2|52=20260105-09:30:00.000|58=";

const REPORT_BEFORE: &[u8] =
    b"fixgate report 1\nsession 0 GATE BUYER owner 0 lease 0 in 1 out 1\n bind 0\n admin 1\n arrive 0\n leave 0\n holding 0 0 from 0 start 0 end 1 sends 0\n in 0 35=D|49=BUYER|56=GATE|34=2|52=20260105-09:30:00.000|58=";

const REPORT_BEHIND: &[u8] =
    b"|\n out 1 20260105-09:30:00.000 35=A|98=0|108=30|\nconnection 0 session 0 taken 65622 garbled 0 written 86 cause end\n wrote 8=FIX.4.4|9=64|35=A|49=GATE|56=BUYER|34=1|52=20260105-09:30:00.000|98=0|108=30|10=148|\nlibrary 1 reads 0\nend\n";

/// How many bytes the longest value has: the body has 55 bytes before it, and one behind it, 65,511 in all, in a frame
/// of 65,536.
const LONGEST: usize = 65_455;

/// A text with so many `x` behind it.
fn with_value(alloc: Global, before: &[u8], count: usize) -> Result<Vec<u8>> {
    let mut text = Vec::from_slice(alloc, before)?;
    text.resize(text.len().saturating_add(count), b'x')?;
    Ok(text)
}

/// A script whose second frame has so many `x` in field 58, and twenty turns.
fn long_script(alloc: Global, count: usize) -> Result<Vec<u8>> {
    let mut script = with_value(alloc, BEFORE, count)?;
    script.extend_from_slice(b"|\nfinish 0\n")?;
    for _ in 0..20 {
        script.extend_from_slice(b"turn\n")?;
    }
    Ok(script)
}

fn long_report(alloc: Global) -> Result<Vec<u8>> {
    let mut report = with_value(alloc, REPORT_BEFORE, LONGEST)?;
    report.extend_from_slice(REPORT_BEHIND)?;
    Ok(report)
}

/// What comes of a script whose second frame has so many `x`.
fn replayed_long(alloc: Global, count: usize) -> Result<Ended> {
    let script = long_script(alloc, count)?;
    replayed(alloc, script.as_slice(), 200_000)
}

pub(crate) fn the_longest_frame(alloc: Global) -> Result<()> {
    let report = long_report(alloc)?;
    let longest = replayed_long(alloc, LONGEST)?;
    longest.is_with(Status::Ok, report.as_slice())
}

pub(crate) fn a_frame_that_is_too_long(alloc: Global) -> Result<()> {
    let fault = Status::ScriptFault {
        line: 6,
        kind: ScriptKind::BadText,
    };
    let longer = replayed_long(alloc, LONGEST + 1)?;
    longer.is_with(fault, b"")
}

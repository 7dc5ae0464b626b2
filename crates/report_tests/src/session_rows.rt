//! The lines of sessions.

use crate::checks::same_text;
use crate::records::{lines, run};
use crate::sessions::{Numbered, session};
use crate::texts::T;
use lease_core::{Entry, Why};
use session_book::SessionRecord;
use std::alloc::Global;
use std::test::Fail;

/// A journal with every entry and every refusal that stands in one.
const JOURNAL: [Entry; 19] = [
    Entry::Bind { c: 0 },
    Entry::Reset { series: 2 },
    Entry::Admin { number: 1 },
    Entry::Arrive { pos: 0 },
    Entry::Plan {
        begin: 1,
        last: 0,
        at: T,
    },
    Entry::Refused {
        library: 1,
        nr: 1,
        why: Why::MissingMessages {
            asked: 5,
            logged: 1,
        },
    },
    Entry::Granted {
        library: 1,
        nr: 2,
        lease: 1,
        from: 0,
        start: 1,
    },
    Entry::Send {
        lease: 1,
        library: 1,
        ordinal: 1,
        number: 2,
    },
    Entry::Release {
        lease: 1,
        library: 1,
        count: 1,
        heir: 0,
    },
    Entry::Granted {
        library: 2,
        nr: 1,
        lease: 2,
        from: 1,
        start: 1,
    },
    Entry::Release {
        lease: 2,
        library: 2,
        count: 0,
        heir: 3,
    },
    Entry::Hold {
        lease: 2,
        until: T + 2_000,
    },
    Entry::Refused {
        library: 1,
        nr: 3,
        why: Why::Reserved {
            for_library: 3,
            until: T + 2_000,
        },
    },
    Entry::Lapse { lease: 2 },
    Entry::Granted {
        library: 3,
        nr: 1,
        lease: 3,
        from: 0,
        start: 1,
    },
    Entry::Refused {
        library: 2,
        nr: 2,
        why: Why::OtherOwner { owner: 3, lease: 3 },
    },
    Entry::Timeout {
        lease: 3,
        library: 3,
        count: 0,
    },
    Entry::Refused {
        library: 1,
        nr: 4,
        why: Why::LeasesSpent { lease: 3 },
    },
    Entry::Leave { c: 0 },
];

const JOURNAL_LINES: &str = "session 0 GATE BUYER owner 0 lease 3 in 1 out 2
 bind 0
 reset 2
 admin 1
 arrive 0
 plan 1 0 20260105-09:30:00.000
 refused 1 1 missing-messages 5 1
 granted 1 2 lease 1 from 0 start 1
 send 1 1 1 2
 release 1 1 1
 granted 2 1 lease 2 from 1 start 1
 hand 2 2 0 3
 hold 2 20260105-09:30:02.000
 refused 1 3 reserved 3 20260105-09:30:02.000
 lapse 2
 granted 3 1 lease 3 from 0 start 1
 refused 2 2 other-owner 3 3
 timeout 3 3 0
 refused 1 4 leases-spent 3
 leave 0
 holding 0 0 from 0 start 0 end 1 sends 0
 holding 1 1 from 0 start 1 end 1 sends 1
 holding 0 0 from 1 start 1 end 1 sends 0
 holding 2 2 from 1 start 1 end 1 sends 0
 holding 0 0 from 1 start 1 end 1 sends 0
 holding 3 3 from 0 start 1 end 1 sends 0
 holding 0 0 from 1 start 1 end 1 sends 0
 in 0 35=D|11=A1|
 series 2
 out 1 20260105-09:30:00.000 35=A|98=0|108=30|141=Y|
 out 2 20260105-09:30:01.500 35=8|37=O1|
";

/// The report's lines for one session.
fn lines_of(alloc: Global, session: SessionRecord) -> Result<Vec<u8>, Fail> {
    let sessions = Vec::from_array(alloc, [session])?;
    lines(
        alloc,
        &run(alloc, sessions, 0, Vec::new(alloc), Vec::new(alloc)),
    )
}

#[test]
fn each_entry_has_its_line(rt: HostRuntime) -> Result<(), Fail> {
    let alloc = rt.alloc();
    let numbered: [Numbered<'_>; 2] = [(T, "35=A|98=0|108=30|141=Y|"), (T + 1_500, "35=8|37=O1|")];
    let record = session(
        alloc,
        "BUYER",
        &JOURNAL,
        &["35=D|11=A1|"],
        &[&[], &numbered],
    )?;
    same_text(&rt, lines_of(alloc, record)?.as_slice(), JOURNAL_LINES);
    Ok(())
}

#[test]
fn a_session_without_entries(rt: HostRuntime) -> Result<(), Fail> {
    let alloc = rt.alloc();
    let record = session(alloc, "BUYER", &[], &[], &[&[]])?;
    let wanted =
        "session 0 GATE BUYER owner 0 lease 0 in 0 out 0\n holding 0 0 from 0 start 0 end 0 sends 0\n";
    same_text(&rt, lines_of(alloc, record)?.as_slice(), wanted);
    Ok(())
}

const SERIES_LINES: &str = "session 0 GATE BUYER owner 0 lease 0 in 0 out 3
 bind 3
 admin 1
 leave 3
 bind 4
 reset 2
 admin 1
 leave 4
 bind 5
 reset 3
 admin 1
 holding 0 0 from 0 start 0 end 0 sends 0
 out 1 20260105-09:30:00.000 35=A|98=0|108=30|
 series 2
 out 1 20260105-09:30:01.000 35=A|98=0|108=30|141=Y|
 series 3
 out 1 20260105-09:30:02.000 35=A|98=0|108=30|141=Y|
";

#[test]
fn each_series_but_the_first_is_named(rt: HostRuntime) -> Result<(), Fail> {
    let alloc = rt.alloc();
    let entries = [
        Entry::Bind { c: 3 },
        Entry::Admin { number: 1 },
        Entry::Leave { c: 3 },
        Entry::Bind { c: 4 },
        Entry::Reset { series: 2 },
        Entry::Admin { number: 1 },
        Entry::Leave { c: 4 },
        Entry::Bind { c: 5 },
        Entry::Reset { series: 3 },
        Entry::Admin { number: 1 },
    ];
    let first: [Numbered<'_>; 1] = [(T, "35=A|98=0|108=30|")];
    let second: [Numbered<'_>; 1] = [(T + 1_000, "35=A|98=0|108=30|141=Y|")];
    let third: [Numbered<'_>; 1] = [(T + 2_000, "35=A|98=0|108=30|141=Y|")];
    let record = session(alloc, "BUYER", &entries, &[], &[&first, &second, &third])?;
    same_text(&rt, lines_of(alloc, record)?.as_slice(), SERIES_LINES);
    Ok(())
}

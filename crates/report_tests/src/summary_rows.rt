//! The summary of a drill's run.

use crate::checks::same_text;
use crate::libraries::library;
use crate::records::{run, silent};
use crate::sessions::{Numbered, session};
use crate::texts::T;
use connection_core::ConnRecord;
use lease_core::Entry;
use run_report::{LibReport, summary_text};
use session_book::SessionRecord;
use std::alloc::Global;
use std::test::Fail;

const LOGON: Numbered<'static> = (T, "35=A|98=0|108=30|");

/// A session that was granted once, by which its library sent twice.
const TWO_SENDS: [Entry; 9] = [
    Entry::Bind { c: 0 },
    Entry::Admin { number: 1 },
    Entry::Arrive { pos: 0 },
    Entry::Granted {
        library: 1,
        nr: 1,
        lease: 1,
        from: 0,
        start: 1,
    },
    Entry::Arrive { pos: 1 },
    Entry::Send {
        lease: 1,
        library: 1,
        ordinal: 1,
        number: 2,
    },
    Entry::Send {
        lease: 1,
        library: 1,
        ordinal: 2,
        number: 3,
    },
    Entry::Release {
        lease: 1,
        library: 1,
        count: 2,
        heir: 0,
    },
    Entry::Leave { c: 0 },
];

const TWO_SENDS_SUMMARY: &str = "fixgate drill 7
sessions 2 libraries 2 connections 3
accepted 3 entries 4 leases 1 reads 5 sends 2
end
";

/// A session with all of these.
fn buyer(alloc: Global) -> Result<SessionRecord, Fail> {
    let numbered: [Numbered<'_>; 3] = [LOGON, (T, "35=8|37=O1|"), (T, "35=8|37=O2|")];
    let orders = ["35=D|11=A1|", "35=D|11=A2|"];
    session(alloc, "BUYER", &TWO_SENDS, &orders, &[&numbered])
}

/// A session that sent nothing but its Logon.
fn desk(alloc: Global) -> Result<SessionRecord, Fail> {
    session(alloc, "DESK", &[], &["35=D|11=A3|"], &[&[LOGON]])
}

fn sessions(alloc: Global) -> Result<Vec<SessionRecord>, Fail> {
    let mut sessions = Vec::new(alloc);
    sessions.push(buyer(alloc)?)?;
    sessions.push(desk(alloc)?)?;
    Ok(sessions)
}

fn connections(alloc: Global, count: u8) -> Result<Vec<ConnRecord>, Fail> {
    let mut connections = Vec::new(alloc);
    for _c in 0..count {
        connections.push(silent(alloc, None))?;
    }
    Ok(connections)
}

/// Libraries by their numbers, with how many messages their polls gave.
fn libraries(alloc: Global, rows: &[(u8, u64)]) -> Result<Vec<LibReport>, Fail> {
    let mut libraries = Vec::new(alloc);
    for (number, reads) in rows {
        libraries.push(library(alloc, *number, Vec::new(alloc), *reads)?)?;
    }
    Ok(libraries)
}

#[test]
fn what_there_was_is_counted(rt: HostRuntime) -> Result<(), Fail> {
    let alloc = rt.alloc();
    let sessions = sessions(alloc)?;
    let connections = connections(alloc, 3)?;
    let libraries = libraries(alloc, &[(1, 2), (2, 3)])?;
    let record = run(alloc, sessions, 2, connections, libraries);
    let text = summary_text(alloc, 7, &record)?;
    same_text(&rt, text.as_slice(), TWO_SENDS_SUMMARY);
    Ok(())
}

const CUT_SUMMARY: &str = "fixgate drill 500
sessions 0 libraries 3 connections 0
accepted 0 entries 0 leases 0 reads 18446744073709551615 sends 0
end
";

#[test]
fn a_greater_sum_is_cut(rt: HostRuntime) -> Result<(), Fail> {
    let alloc = rt.alloc();
    let libraries = libraries(alloc, &[(1, u64::MAX - 1), (2, 3), (3, u64::MAX)])?;
    let record = run(alloc, Vec::new(alloc), 0, Vec::new(alloc), libraries);
    let text = summary_text(alloc, 500, &record)?;
    same_text(&rt, text.as_slice(), CUT_SUMMARY);
    Ok(())
}

const EMPTY_SUMMARY: &str = "fixgate drill 1
sessions 0 libraries 0 connections 0
accepted 0 entries 0 leases 0 reads 0 sends 0
end
";

#[test]
fn nothing_is_summed(rt: HostRuntime) -> Result<(), Fail> {
    let alloc = rt.alloc();
    let record = run(alloc, Vec::new(alloc), 0, Vec::new(alloc), Vec::new(alloc));
    let text = summary_text(alloc, 1, &record)?;
    same_text(&rt, text.as_slice(), EMPTY_SUMMARY);
    Ok(())
}

//! Records of one session, told in short.

use crate::libraries::library;
use crate::records::run;
use crate::sessions::{Numbered, session};
use crate::texts::frames;
use connection_core::ConnRecord;
use gate_io::Bytes;
use lease_core::{Entry, Why};
use library_api::{Event, Released};
use row_text::soh;
use run_report::{Call, LibReport, report_text};
use session_core::Cause;
use std::alloc::Global;
use std::test::Fail;

/// A record. In its texts `|` stands for SOH.
pub struct Whole<'a> {
    /// The counterparty of GATE's session.
    pub them: &'a str,
    pub journal: &'a [Entry],
    pub inbound: &'a [&'a str],
    pub outbound: &'a [Numbered<'a>],
    /// How many of the connections were accepted.
    pub accepted: u32,
    pub connections: &'a [Carried<'a>],
    pub libraries: &'a [Played<'a>],
}

/// A connection of the session: the bodies of the frames that it brought and took, and why it ended.
pub struct Carried<'a> {
    pub taken: &'a [&'a str],
    pub written: &'a [&'a str],
    pub cause: Option<Cause>,
}

/// A library with its calls.
pub struct Played<'a> {
    pub number: u8,
    pub calls: &'a [Answered<'a>],
    pub reads: u64,
}

/// What a call for the session was answered.
pub enum Answered<'a> {
    Asked {
        from: u64,
        nr: u32,
    },
    Nothing,
    Granted {
        nr: u32,
        lease: u32,
        from: u64,
        start: u64,
    },
    Refused {
        nr: u32,
        why: Why,
    },
    Message {
        lease: u32,
        pos: u64,
        text: &'a str,
    },
    Released {
        lease: u32,
    },
    Handed {
        heir: u8,
        lease: u32,
    },
}

/// The report of a record.
pub fn report(alloc: Global, whole: &Whole<'_>) -> Result<Vec<u8>, Fail> {
    let session = session(
        alloc,
        whole.them,
        whole.journal,
        whole.inbound,
        &[whole.outbound],
    )?;
    let sessions = Vec::from_array(alloc, [session])?;
    let connections = connections(alloc, whole.connections)?;
    let libraries = libraries(alloc, whole.libraries)?;
    let record = run(alloc, sessions, whole.accepted, connections, libraries);
    Ok(report_text(alloc, &record)?)
}

fn connections(alloc: Global, rows: &[Carried<'_>]) -> Result<Vec<ConnRecord>, Fail> {
    let mut connections = Vec::new(alloc);
    for row in rows {
        connections.push(connection(alloc, row)?)?;
    }
    Ok(connections)
}

fn connection(alloc: Global, row: &Carried<'_>) -> Result<ConnRecord, Fail> {
    let taken = frames(alloc, row.taken)?;
    let written = frames(alloc, row.written)?;
    Ok(ConnRecord {
        session: Some(0),
        taken: Bytes::of(taken),
        garbled: 0,
        written: Bytes::of(written),
        cause: row.cause,
    })
}

fn libraries(alloc: Global, rows: &[Played<'_>]) -> Result<Vec<LibReport>, Fail> {
    let mut libraries = Vec::new(alloc);
    for row in rows {
        let calls = calls(alloc, row.calls)?;
        libraries.push(library(alloc, row.number, calls, row.reads)?)?;
    }
    Ok(libraries)
}

fn calls(alloc: Global, rows: &[Answered<'_>]) -> Result<Vec<Call>, Fail> {
    let mut calls = Vec::new(alloc);
    for row in rows {
        calls.push(call(alloc, row)?)?;
    }
    Ok(calls)
}

fn call(alloc: Global, row: &Answered<'_>) -> Result<Call, Fail> {
    match *row {
        Answered::Asked { from, nr } => Ok(Call::Request {
            s: 0,
            from,
            answer: Ok(nr),
        }),
        Answered::Released { lease } => Ok(Call::Release {
            s: 0,
            answer: Ok(Released { lease, count: 0 }),
        }),
        Answered::Handed { heir, lease } => Ok(Call::Hand {
            s: 0,
            heir,
            answer: Ok(Released { lease, count: 0 }),
        }),
        Answered::Message { lease, pos, text } => Ok(Call::Poll {
            event: message(alloc, lease, pos, text)?,
        }),
        Answered::Nothing => Ok(Call::Poll {
            event: Event::Nothing,
        }),
        Answered::Refused { nr, why } => Ok(Call::Poll {
            event: Event::Refused { nr, s: 0, why },
        }),
        Answered::Granted {
            nr,
            lease,
            from,
            start,
        } => Ok(Call::Poll {
            event: Event::Granted {
                nr,
                s: 0,
                lease,
                from,
                start,
            },
        }),
    }
}

fn message(alloc: Global, lease: u32, pos: u64, text: &str) -> Result<Event, Fail> {
    let bytes = soh(alloc, text)?;
    Ok(Event::Message {
        s: 0,
        lease,
        pos,
        bytes: Bytes::of(bytes),
    })
}

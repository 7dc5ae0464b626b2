//! What can be asked of what a run left, with what is so.

use crate::texts::frames;
use crate::told::{Instead, unless_bytes, unless_so, unless_told};
use connection_core::ConnRecord;
use engine_end::EngineRecord;
use gate_io::NoMemory;
use lease_core::{Entry, Record};
use session_book::SessionRecord;
use session_core::Cause;
use std::alloc::Global;

/// What is so. What is wanted is told as `Debug` prints it.
#[derive(Clone, Copy)]
pub(crate) enum Left<'a> {
    /// The session's journal has these entries.
    Journal(u16, &'a str),
    /// So many messages came to the session and were numbered by it.
    Lengths(u16, &'a str),
    /// The connections, those that were accepted first, were bound to these sessions and ended by these
    /// causes.
    Connections(&'a str),
    /// The connection at this place took the frames of these bodies, and nothing else.
    Took(usize, &'a str),
    /// The connection at this place took nothing.
    TookNothing(usize),
    Strays(&'a str),
    /// So many connections were accepted.
    Accepted(&'a str),
    /// These entries weren't handed out before, each with its session and its record's moment.
    Added(&'a str),
}

/// What is so in place of what a line tells.
pub(crate) fn left_instead_of(
    alloc: Global,
    left: &EngineRecord,
    what: Left<'_>,
) -> Result<Instead, NoMemory> {
    match what {
        Left::Journal(s, _) | Left::Lengths(s, _) => {
            match left.sessions.as_slice().get(usize::from(s)) {
                Some(session) => of_a_session(alloc, session, what),
                None => unless_so(alloc, false, "no such session"),
            }
        }
        Left::Connections(wanted) => {
            let ends = ends(alloc, left.connections.as_slice())?;
            unless_told(alloc, wanted, &ends.as_slice())
        }
        Left::Took(k, texts) => unless_taken(alloc, left, k, frames(alloc, texts)?.as_slice()),
        Left::TookNothing(k) => unless_taken(alloc, left, k, b""),
        Left::Strays(wanted) => unless_told(alloc, wanted, &left.strays.as_slice()),
        Left::Accepted(wanted) => unless_told(alloc, wanted, &left.accepted),
        Left::Added(wanted) => {
            let added = added(alloc, left.added.as_slice())?;
            unless_told(alloc, wanted, &added.as_slice())
        }
    }
}

fn of_a_session(
    alloc: Global,
    session: &SessionRecord,
    what: Left<'_>,
) -> Result<Instead, NoMemory> {
    match what {
        Left::Journal(_, wanted) => unless_told(alloc, wanted, &session.registry.entries()),
        Left::Lengths(_, wanted) => {
            unless_told(
                alloc,
                wanted,
                &(session.inbound.len(), session.outbound.len()),
            )
        }
        _ => unless_so(alloc, false, "nothing of a session"),
    }
}

// What a connection took in place of these bytes.
fn unless_taken(
    alloc: Global,
    left: &EngineRecord,
    k: usize,
    wanted: &[u8],
) -> Result<Instead, NoMemory> {
    match left.connections.as_slice().get(k) {
        Some(connection) => unless_bytes(alloc, wanted, connection.written.as_slice()),
        None => unless_so(alloc, false, "no such connection"),
    }
}

// How the connections were bound and ended.
fn ends(
    alloc: Global,
    connections: &[ConnRecord],
) -> Result<Vec<(Option<u16>, Option<Cause>)>, NoMemory> {
    let mut ends = Vec::new(alloc);
    for connection in connections {
        ends.push((connection.session, connection.cause))?;
    }
    Ok(ends)
}

// The records' entries, each with its session and its moment.
fn added(alloc: Global, records: &[Record]) -> Result<Vec<(u16, Entry, u64)>, NoMemory> {
    let mut entries = Vec::new(alloc);
    for record in records {
        entries.push((record.s, record.entry, record.at))?;
    }
    Ok(entries)
}

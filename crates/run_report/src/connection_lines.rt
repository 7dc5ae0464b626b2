//! The lines of strays and of connections.

ghost use Rattle.std.specs.Prelude.{◌≡◌, ◌≤◌, ◌+◌, ◌^◌, ◌++◌, OnOk, length};
ghost use Rattle.std.specs.List.{flat_map};
ghost use Rattle.run_report.specs.Connections.{bound_word, cause_words, connection_numbers, connection_text, connections_text, stray_line, written_line};
ghost use Rattle.run_report.specs.Lines.{indented_line, numbered_texts, word_text};

use crate::words::ReportWord::{Number, Printed, Stamp, Word};
use crate::words::{ReportWord, put_indented, put_line, put_named, put_spaced};
use connection_core::ConnRecord;
use engine_end::Stray;
use gate_io::{FIRST_DIALLED, NoMemory};
use session_core::Cause;

/// The requests for sessions that weren't configured.
pub fn put_strays(out: &mut Vec<u8>, strays: &[Stray]) -> Result<(), NoMemory>
    ensures { OnOk result (out.new.items ≡ out.old.items ++ flat_map stray_line strays.now) }
{
    for stray in strays {
        put_stray(out, stray)?;
    }
    Ok(())
}

#[tactic(auto, unfolding(crate::specs::Connections::stray_line))]
fn put_stray(out: &mut Vec<u8>, stray: &Stray) -> Result<(), NoMemory>
    ensures { OnOk result (out.new.items ≡ out.old.items ++ stray_line stray.now) }
{
    put_line(
        out,
        "stray",
        &[
            Number(u64::from(stray.library)),
            Number(u64::from(stray.nr)),
            Number(u64::from(stray.s)),
        ],
    )
}

/// The connections, of which so many were accepted.
pub fn put_connections(
    out: &mut Vec<u8>,
    accepted: u32,
    connections: &[ConnRecord],
) -> Result<(), NoMemory>
    ensures { OnOk result (out.new.items ≡ out.old.items ++ connections_text accepted connections.now) }
{
    let count = connections.len().min(accepted as usize);
    put_numbered(out, 0, &connections[..count])?;
    put_numbered(out, FIRST_DIALLED, &connections[count..])
}

/// Connections in order, of which the first has this number.
fn put_numbered(out: &mut Vec<u8>, first: u32, connections: &[ConnRecord]) -> Result<(), NoMemory>
    ensures { OnOk result (out.new.items ≡ out.old.items ++ numbered_texts connection_text first connections.now) }
{
    for (c, connection) in connections.iter().enumerate() {
        put_connection(out, u64::from(first) + c as u64, connection)?;
    }
    Ok(())
}

fn put_connection(out: &mut Vec<u8>, c: u64, connection: &ConnRecord) -> Result<(), NoMemory>
    ensures { OnOk result (out.new.items ≡ out.old.items ++ connection_text c connection.now) }
{
    let written = connection.written.as_slice();
    put_numbers(
        out,
        c,
        connection.session,
        connection.taken.as_slice().len() as u64,
        connection.garbled,
        written.len() as u64,
    )?;
    put_cause(out, connection.cause)?;
    put_written(out, written)
}

/// The line of a connection up to its cause.
#[tactic(auto, unfolding(crate::specs::Connections::connection_numbers))]
fn put_numbers(
    out: &mut Vec<u8>,
    c: u64,
    session: Option<u16>,
    taken: u64,
    garbled: u64,
    written: u64,
) -> Result<(), NoMemory>
    ensures { OnOk result (out.new.items ≡ out.old.items ++ connection_numbers c session taken garbled written) }
{
    out.extend_from_slice(b"connection")?;
    put_spaced(
        out,
        &[
            Number(c),
            Word("session"),
            bound_report_word(session),
            Word("taken"),
            Number(taken),
            Word("garbled"),
            Number(garbled),
            Word("written"),
            Number(written),
            Word("cause"),
        ],
    )?;
    Ok(())
}

/// The number of the session, or `-` where the connection was never bound.
fn bound_report_word(session: Option<u16>) -> ReportWord<'static>
    ensures { word_text result ≡ bound_word session }
{
    match session {
        Some(s) => Number(u64::from(s)),
        None => Word("-"),
    }
}

/// What was written to a connection, where something was.
#[tactic(auto, unfolding(crate::specs::Connections::written_line))]
fn put_written(out: &mut Vec<u8>, written: &[u8]) -> Result<(), NoMemory>
    ensures { OnOk result (out.new.items ≡ out.old.items ++ written_line written.now) }
{
    if written.is_empty() {
        Ok(())
    } else {
        put_indented(out, &[Word("wrote"), Printed(written)])
    }
}

/// The cause by which a connection ended, at the end of its line.
#[tactic(auto, unfolding(crate::specs::Connections::cause_words))]
fn put_cause(out: &mut Vec<u8>, cause: Option<Cause>) -> Result<(), NoMemory>
    ensures { OnOk result (out.new.items ≡ out.old.items ++ indented_line (cause_words cause)) }
{
    let Some(cause) = cause else {
        return put_named(out, "none", &[]);
    };
    match cause {
        Cause::End => put_named(out, "end", &[]),
        Cause::ReadFault => put_named(out, "read-fault", &[]),
        Cause::WriteFault => put_named(out, "write-fault", &[]),
        Cause::NotLogon => put_named(out, "not-logon", &[]),
        Cause::NoSuchSession => put_named(out, "no-such-session", &[]),
        Cause::Duplicate { connection } => {
            put_named(out, "duplicate", &[Number(u64::from(connection))])
        }
        Cause::BadLogon { tag } => put_named(out, "bad-logon", &[Number(u64::from(tag))]),
        Cause::NoNumber => put_named(out, "no-number", &[]),
        Cause::LowNumber { expected, got } => put_named(
            out,
            "low-number",
            &[Number(u64::from(expected)), Number(u64::from(got))],
        ),
        Cause::CompId { tag } => put_named(out, "comp-id", &[Number(u64::from(tag))]),
        Cause::Silent { since } => put_named(out, "silent", &[Stamp(since)]),
        Cause::LoggedOut => put_named(out, "logged-out", &[]),
        Cause::SlowConsumer { waiting } => { put_named(out, "slow-consumer", &[Number(waiting)]) }
    }
}

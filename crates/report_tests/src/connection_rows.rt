//! The lines of strays and of connections.

use crate::checks::same_text;
use crate::records::{lines, run, run_with, silent};
use crate::texts::T;
use connection_core::ConnRecord;
use gate_io::Bytes;
use library_desk::Stray;
use session_core::Cause;
use std::test::Fail;

const CAUSES: [Option<Cause>; 14] = [
    Some(Cause::End),
    Some(Cause::ReadFault),
    Some(Cause::WriteFault),
    Some(Cause::NotLogon),
    Some(Cause::NoSuchSession),
    Some(Cause::Duplicate { connection: 3 }),
    Some(Cause::BadLogon { tag: 108 }),
    Some(Cause::NoNumber),
    Some(Cause::LowNumber {
        expected: 7,
        got: 5,
    }),
    Some(Cause::CompId { tag: 49 }),
    Some(Cause::Silent { since: T }),
    Some(Cause::LoggedOut),
    Some(Cause::SlowConsumer { waiting: 1_048_577 }),
    None,
];

const CAUSE_LINES: &str = "connection 0 session - taken 0 garbled 0 written 0 cause end
connection 1 session - taken 0 garbled 0 written 0 cause read-fault
connection 2 session - taken 0 garbled 0 written 0 cause write-fault
connection 3 session - taken 0 garbled 0 written 0 cause not-logon
connection 4 session - taken 0 garbled 0 written 0 cause no-such-session
connection 5 session - taken 0 garbled 0 written 0 cause duplicate 3
connection 6 session - taken 0 garbled 0 written 0 cause bad-logon 108
connection 7 session - taken 0 garbled 0 written 0 cause no-number
connection 8 session - taken 0 garbled 0 written 0 cause low-number 7 5
connection 9 session - taken 0 garbled 0 written 0 cause comp-id 49
connection 10 session - taken 0 garbled 0 written 0 cause silent 20260105-09:30:00.000
connection 11 session - taken 0 garbled 0 written 0 cause logged-out
connection 1024 session - taken 0 garbled 0 written 0 cause slow-consumer 1048577
connection 1025 session - taken 0 garbled 0 written 0 cause none
";

#[test]
fn each_cause_has_its_words(rt: HostRuntime) -> Result<(), Fail> {
    let alloc = rt.alloc();
    let mut connections = Vec::new(alloc);
    for cause in CAUSES {
        connections.push(silent(alloc, cause))?;
    }
    // The last two were dialled.
    let record = run(alloc, Vec::new(alloc), 12, connections, Vec::new(alloc));
    same_text(&rt, lines(alloc, &record)?.as_slice(), CAUSE_LINES);
    Ok(())
}

#[test]
fn bytes_are_counted_and_printed(rt: HostRuntime) -> Result<(), Fail> {
    let alloc = rt.alloc();
    let connection = ConnRecord {
        session: Some(0),
        taken: Bytes::of(Vec::from_slice(alloc, b"garbled!")?),
        garbled: 7,
        written: Bytes::of(Vec::from_slice(alloc, b"a b\x01|\\\x00\n~\x7f\xff")?),
        cause: None,
    };
    let connections = Vec::from_array(alloc, [connection])?;
    let record = run(alloc, Vec::new(alloc), 1, connections, Vec::new(alloc));
    let wanted =
        "connection 0 session 0 taken 8 garbled 7 written 11 cause none\n wrote a b|\\7c\\5c\\00\\0a~\\7f\\ff\n";
    same_text(&rt, lines(alloc, &record)?.as_slice(), wanted);
    Ok(())
}

#[test]
fn strays_stand_before_connections(rt: HostRuntime) -> Result<(), Fail> {
    let alloc = rt.alloc();
    let strays = [
        Stray {
            library: 1,
            nr: 3,
            s: 65_535,
        },
        Stray {
            library: 16,
            nr: 1,
            s: 64,
        },
    ];
    let record = run_with(
        alloc,
        Vec::new(alloc),
        Vec::from_array(alloc, strays)?,
        1,
        Vec::from_array(alloc, [silent(alloc, None)])?,
        Vec::new(alloc),
    );
    let wanted =
        "stray 1 3 65535\nstray 16 1 64\nconnection 0 session - taken 0 garbled 0 written 0 cause none\n";
    same_text(&rt, lines(alloc, &record)?.as_slice(), wanted);
    Ok(())
}

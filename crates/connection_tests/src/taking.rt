//! What comes of a connection, and the pieces that are handed out.

ghost use Rattle.std.specs.Prelude.{◌≡◌, ◌≤◌, IsNone, OnOk};
ghost use Rattle.connection_core.specs.Connection.{room};

use crate::checks::{holds, same, same_at};
use crate::texts::MORNING;
use connection_core::{Connection, MOST_READ, OwnedPiece};
use fix_frame::{is_body, write_frame};
use gate_io::NoMemory;
use rand_core::utils::NextWord;
use rand_pcg::Pcg32;
use row_text::soh;
use session_core::Cause;
use std::alloc::Global;
use std::test::Fail;

/// Takes the bytes in by parts of at most so many, and puts down what is handed out: the body of a
/// good piece, and a question mark for each garbled byte.
fn take_all(
    alloc: Global,
    connection: &mut Connection,
    bytes: &[u8],
    part: usize,
    given: &mut Vec<u8>,
) -> Result<(), NoMemory>
    requires stands { IsNone connection.old.cause }
    requires room { MOST_READ ≤ room connection.old }
    ensures stands { IsNone connection.new.cause }
    ensures room { OnOk result (MOST_READ ≤ room connection.new) }
{
    let mut from = 0;
    while from < bytes.len() {
        let count = part.max(1).min(MOST_READ).min(bytes.len() - from);
        connection.take_in(&bytes[from..from + count])?;
        drain(alloc, connection, given)?;
        from += count;
    }
    Ok(())
}

fn drain(alloc: Global, connection: &mut Connection, given: &mut Vec<u8>) -> Result<(), NoMemory>
    requires stands { IsNone connection.old.cause }
    ensures stands { IsNone connection.new.cause }
    ensures room { OnOk result (MOST_READ ≤ room connection.new) }
{
    while let Some(piece) = connection.next(alloc)? {
        put_down(given, &piece)?;
    }
    Ok(())
}

fn put_down(given: &mut Vec<u8>, piece: &OwnedPiece) -> Result<(), NoMemory> {
    match piece {
        OwnedPiece::Good(body) => given.extend_from_slice(body)?,
        OwnedPiece::Garbled { length } => {
            for _ in 0..*length {
                given.push(b'?')?;
            }
        }
    }
    Ok(())
}

/// Parts of a stream, and what is handed out of each.
const PARTS: [(&str, &str); 6] = [
    (
        "8=FIX.4.4|9=52|35=0|49=BUYER|56=GATE|34=2|52=20260105-09:30:00.000|10=104|",
        "35=0|49=BUYER|56=GATE|34=2|52=20260105-09:30:00.000|",
    ),
    // with a wrong sum
    (
        "8=FIX.4.4|9=52|35=0|49=BUYER|56=GATE|34=2|52=20260105-09:30:00.000|10=105|",
        "??????????????????????????????????????????????????????????????????????????",
    ),
    ("x", "?"),
    ("8=FIX.4.3", "?????????"),
    ("8=FIX.4.4|9=5|35=0|10=163|", "35=0|"),
    ("8=FIX.4.4|9=05|35=0|10=211|", "35=0|"),
];

/// A stream of so many random parts, and what is handed out of it.
fn stream(alloc: Global, random: &mut Pcg32, count: usize) -> Result<(Vec<u8>, Vec<u8>), NoMemory> {
    let mut bytes = Vec::new(alloc);
    let mut given = Vec::new(alloc);
    for _ in 0..count {
        let (part, pieces) = PARTS[(random.next_word() % 6) as usize];
        bytes.extend_from_slice(&soh(alloc, part)?)?;
        given.extend_from_slice(&soh(alloc, pieces)?)?;
    }
    Ok((bytes, given))
}

/// How many of what was put down are garbled bytes.
fn garbled_in(given: &[u8]) -> u64 {
    given.iter().fold(
        0u64,
        |count, byte| count.wrapping_add(u64::from(*byte == b'?')),
    )
}

#[test]
fn parts_of_every_size_give_the_same(rt: HostRuntime) -> Result<(), Fail> {
    let alloc = rt.alloc();
    let mut random = Pcg32::new(21, 1);
    for part in 1..130 {
        let (bytes, wanted) = stream(alloc, &mut random, 12)?;
        let mut connection = Connection::accepted(alloc, 0, MORNING)?;
        let mut given = Vec::new(alloc);
        take_all(alloc, &mut connection, &bytes, part, &mut given)?;
        holds(&rt, given == wanted, &part);
        let record = connection.into_record();
        assert!(rt; record.taken.as_slice() == bytes.as_slice());
        same_at(&rt, &record.garbled, &garbled_in(&wanted), &part);
    }
    Ok(())
}

/// What is handed out where the bytes come in two parts, the first of so many bytes.
fn take_twice(alloc: Global, bytes: &[u8], first: usize) -> Result<Vec<u8>, NoMemory> {
    let mut connection = Connection::accepted(alloc, 0, MORNING)?;
    let mut given = Vec::new(alloc);
    let (now, later) = bytes.split_at(first.min(bytes.len()));
    take_all(alloc, &mut connection, now, MOST_READ, &mut given)?;
    take_all(alloc, &mut connection, later, MOST_READ, &mut given)?;
    Ok(given)
}

#[test]
fn a_cut_at_each_place_gives_the_same(rt: HostRuntime) -> Result<(), Fail> {
    let alloc = rt.alloc();
    let (bytes, wanted) = stream(alloc, &mut Pcg32::new(23, 1), 9)?;
    for first in 0..bytes.len() {
        let given = take_twice(alloc, &bytes, first)?;
        holds(&rt, given == wanted, &first);
    }
    Ok(())
}

/// A body of so many bytes, at least 9.
fn long_body(alloc: Global, length: usize) -> Result<Vec<u8>, NoMemory> {
    let mut body = soh(alloc, "35=B|58=")?;
    for _ in 9..length {
        body.push(b'x')?;
    }
    body.push(1)?;
    Ok(body)
}

#[test]
fn the_longest_frame_is_taken_by_whole_reads(rt: HostRuntime) -> Result<(), Fail> {
    let alloc = rt.alloc();
    // `8=FIX.4.4|`, `9=65511|` and `10=ccc|` have 25 bytes.
    let body = long_body(alloc, 65_511)?;
    assert!(rt; is_body(&body));
    let frame = write_frame(alloc, &body)?;
    same(&rt, &frame.len(), &65_536);
    let mut connection = Connection::accepted(alloc, 0, MORNING)?;
    let mut given = Vec::new(alloc);
    take_all(alloc, &mut connection, &frame, MOST_READ, &mut given)?;
    take_all(alloc, &mut connection, &frame, MOST_READ, &mut given)?;
    assert!(rt; given.len() == 2 * body.len() && given[..body.len()] == body[..]);
    Ok(())
}

#[test]
fn a_long_stream_is_taken_by_whole_reads(rt: HostRuntime) -> Result<(), Fail> {
    let alloc = rt.alloc();
    let (bytes, wanted) = stream(alloc, &mut Pcg32::new(22, 1), 3_000)?;
    let mut connection = Connection::accepted(alloc, 0, MORNING)?;
    let mut given = Vec::new(alloc);
    take_all(alloc, &mut connection, &bytes, MOST_READ, &mut given)?;
    assert!(rt; given == wanted);
    Ok(())
}

#[test]
fn garbled_bytes_behind_the_end_arent_counted(rt: HostRuntime) -> Result<(), Fail> {
    let alloc = rt.alloc();
    let mut connection = Connection::accepted(alloc, 0, MORNING)?;
    let bytes = soh(alloc, "xx8=FIX.4.4|9=5|35=0|10=163|yyy")?;
    connection.take_in(&bytes[..bytes.len().min(MOST_READ)])?;
    // two garbled bytes, and the piece that ends it
    connection.next(alloc)?;
    connection.next(alloc)?;
    connection.next(alloc)?;
    connection.end(Cause::NotLogon);
    let record = connection.into_record();
    same(&rt, &record.garbled, &2);
    assert!(rt; record.taken.as_slice() == bytes.as_slice());
    same(&rt, &record.cause, &Some(Cause::NotLogon));
    assert!(rt; record.written.as_slice().is_empty());
    Ok(())
}

//! Records of each kind at the ends of their ranges, and outside of them.

use crate::checks::{same, same_at};
use crate::reader::read;
use crate::recovering::{Recovery, damage, records, recovered_over};
use crate::rows::{MOMENT, Row, arrive, bind, leave, logon, one_batch, plain};
use std::alloc::{AllocError, Global};
use std::process::Abort;
use std::test::Fail;

/// The end of the year 9999.
const LAST: u64 = 253_402_300_799_999;

const WORD: u64 = 4_294_967_295;

const LONG: u64 = u64::MAX;

/// What a file of these rows stands for over three sessions and two leases, by `recover`, with which
/// the plain reader has to agree.
fn answer(rt: &impl Abort, alloc: Global, rows: &[Row]) -> Result<Recovery, Fail> {
    let file = one_batch(alloc, rows)?;
    let plainly = Recovery::Read(read(alloc, &file, 3, 2)?);
    let got = recovered_over(alloc, file, 3, 2)?;
    same_at(rt, &got, &plainly, &rows);
    Ok(got)
}

fn at(moment: u64, row: Row) -> Row {
    Row { at: moment, ..row }
}

fn expecting(expected: u32, row: Row) -> Row {
    Row { expected, ..row }
}

fn granted(library: u64, nr: u64, lease: u64) -> Row<'static> {
    plain(6, [library, nr, lease, 0, 0])
}

fn refused(library: u64, nr: u64, why: [u64; 3]) -> Row<'static> {
    let [cause, first, second] = why;
    plain(7, [library, nr, cause, first, second])
}

fn send(count: u64, number: u64, body: &[u8]) -> Row {
    Row {
        at: MOMENT,
        body,
        ..plain(8, [1, 16, count, number, 0])
    }
}

/// A row of each kind, one behind the other, each number that a row is free in at its greatest.
fn greatest() -> [Row<'static>; 18] {
    [
        bind(WORD),
        plain(13, [2, 0, 0, 0, 0]),
        at(LAST, logon()),
        expecting(1_000_000_000, arrive(0)),
        at(LAST, plain(4, [LONG, LONG, 0, 0, 0])),
        refused(16, WORD, [4, LONG, 1]),
        plain(6, [16, WORD, 1, 1, 1]),
        refused(16, WORD, [1, 16, 1]),
        at(LAST, send(1, 2, b"35=8\x01")),
        plain(9, [1, 16, 1, 15, 0]),
        plain(11, [1, LAST, 0, 0, 0]),
        refused(16, WORD, [2, 15, LAST]),
        plain(12, [1, 0, 0, 0, 0]),
        plain(6, [1, 0, 2, 0, 1]),
        plain(10, [2, 1, 0, 0, 0]),
        refused(16, WORD, [3, 2, 0]),
        leave(WORD),
        Row { s: 2, ..bind(0) },
    ]
}

#[test]
fn each_kind_may_have_its_greatest_numbers(rt: HostRuntime) -> Result<(), Fail> {
    let rows = greatest();
    for count in 0..rows.len() {
        let front = rows.get(..count).unwrap_or(&[]);
        same(&rt, &answer(&rt, rt.alloc(), front)?, &records(count));
    }
    same(&rt, &answer(&rt, rt.alloc(), &rows)?, &records(18));
    Ok(())
}

/// Rows that are one further than the row of the greatest numbers at the same place.
fn further() -> [(usize, Row<'static>); 24] {
    [
        (0, bind(WORD + 1)),
        (0, Row { s: 3, ..bind(1) }),
        (0, expecting(0, bind(1))),
        (0, expecting(1_000_000_001, bind(1))),
        (0, at(1, bind(1))),
        (0, plain(0, [0, 0, 0, 0, 0])),
        (0, plain(14, [0, 0, 0, 0, 0])),
        (0, plain(3, [1, 0, 0, 0, 1])),
        (1, plain(13, [3, 0, 0, 0, 0])),
        (2, at(LAST + 1, logon())),
        (3, at(1, arrive(0))),
        (3, arrive(1)),
        (4, at(LAST + 1, plain(4, [1, 0, 0, 0, 0]))),
        (5, refused(17, WORD, [4, LONG, 1])),
        (5, refused(0, WORD, [4, LONG, 1])),
        (5, refused(16, WORD + 1, [4, LONG, 1])),
        (5, refused(16, WORD, [4, 1, 1])),
        (6, plain(6, [17, 1, 1, 1, 1])),
        (6, plain(6, [16, WORD + 1, 1, 1, 1])),
        (6, plain(6, [16, 1, 1, 2, 1])),
        (8, at(LAST + 1, send(1, 2, b"35=8\x01"))),
        (9, plain(9, [1, 16, 1, 17, 0])),
        (10, plain(11, [1, LAST + 1, 0, 0, 0])),
        (13, granted(1, 0, 3)),
    ]
}

#[test]
fn rows_outside_their_ranges_are_damage(rt: HostRuntime) -> Result<(), Fail> {
    let rows = greatest();
    for (count, row) in further() {
        let mut front = Vec::new(rt.alloc());
        front.extend_from_slice(rows.get(..count).unwrap_or(&[]))?;
        front.push(row)?;
        same_at(&rt, &answer(&rt, rt.alloc(), &front)?, &damage(0), &row);
    }
    Ok(())
}

/// Bodies that a record of a kind may have, or not.
fn bodies() -> [(u8, &'static [u8], bool); 34] {
    [
        (1, b"35=D\x01", true),
        (1, b"35=A\x01", true),
        (1, b"35=D\x0195=1\x0196=\x01\x01", true),
        (1, b"", false),
        (1, b"35=D", false),
        (1, b"34=1\x0135=D\x01", false),
        (1, b"35=D\x0111=\x01", false),
        (1, b"35=D\x01011=1\x01", false),
        (1, b"35=D\x0195=2\x0196=a\x01", false),
        (2, b"35=A\x0198=0\x01108=0\x01", true),
        (2, b"35=A\x0198=0\x01108=4294967295\x01141=Y\x01", true),
        (2, b"35=0\x01", true),
        (2, b"35=0\x01112=TEST\x01", true),
        (2, b"35=1\x01112=1\x01", true),
        (2, b"35=2\x017=1\x0116=0\x01", true),
        (2, b"35=3\x0145=2\x01371=112\x01372=1\x01373=255\x01", true),
        (2, b"35=3\x0145=2\x01371=112\x01373=1\x01", true),
        (2, b"35=5\x01", true),
        (2, b"35=5\x0158=over\x01", true),
        (2, b"", false),
        (2, b"35=A\x0198=0\x01108=4294967296\x01", false),
        (2, b"35=A\x0198=0\x01108=00\x01", false),
        (2, b"35=A\x0198=0\x01108=30\x01141=N\x01", false),
        (2, b"35=1\x01112=2\x01", false),
        (2, b"35=2\x017=1\x01", false),
        (2, b"35=3\x0145=2\x01371=112\x01372=1\x01373=256\x01", false),
        (2, b"35=4\x01", false),
        (2, b"35=8\x01", false),
        (8, b"35=8\x0137=GO\x01", true),
        (8, b"35=AE\x01", true),
        (8, b"35=5\x01", false),
        (8, b"35=8\x0134=1\x01", false),
        (8, b"37=GO\x0135=8\x01", false),
        (8, b"", false),
    ]
}

/// What is answered for a record of this kind with a body.
fn with_body(rt: &impl Abort, alloc: Global, kind: u8, body: &[u8]) -> Result<Recovery, Fail> {
    let row = match kind {
        1 => Row { body, ..arrive(0) },
        2 => Row { body, ..logon() },
        _ => send(1, 1, body),
    };
    answer(rt, alloc, &[granted(16, 1, 1), row])
}

#[test]
fn bodies_are_those_of_their_kind(rt: HostRuntime) -> Result<(), Fail> {
    for (kind, body, may) in bodies() {
        let wanted = if may { records(2) } else { damage(0) };
        let got = with_body(&rt, rt.alloc(), kind, body)?;
        same_at(&rt, &got, &wanted, &(kind, body));
    }
    Ok(())
}

/// A message that begins so and goes on with a text, of so many bytes in all.
fn long_body(alloc: Global, head: &[u8], length: usize) -> Result<Vec<u8>, AllocError> {
    let mut body = head.to_vec(alloc)?;
    body.resize(length.saturating_sub(1), b'x')?;
    body.push(1)?;
    Ok(body)
}

#[test]
fn bodies_have_a_longest(rt: HostRuntime) -> Result<(), Fail> {
    let news: &[u8] = b"35=B\x0158=";
    let heartbeat: &[u8] = b"35=0\x01112=";
    let logout: &[u8] = b"35=5\x0158=";
    let cases = [
        (1, news, 65_511, records(2)),
        (1, news, 65_512, damage(0)),
        (2, heartbeat, 266, records(2)),
        (2, heartbeat, 267, damage(0)),
        (2, logout, 265, records(2)),
        (2, logout, 266, damage(0)),
        (8, news, 8_192, records(2)),
        (8, news, 8_193, damage(0)),
    ];
    for (kind, head, length, wanted) in cases {
        let body = long_body(rt.alloc(), head, length)?;
        let got = with_body(&rt, rt.alloc(), kind, &body)?;
        same_at(&rt, &got, &wanted, &(kind, length));
    }
    Ok(())
}

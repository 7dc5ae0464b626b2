//! Records as a plain program writes them, byte by byte, from the table of the format.

use std::alloc::{AllocError, Global};

/// One record: its session, its kind, its five numbers, its moment, its expected number, its body.
#[derive(Clone, Copy, Debug)]
pub struct Row<'a> {
    pub s: u16,
    pub kind: u8,
    pub numbers: [u64; 5],
    pub at: u64,
    pub expected: u32,
    pub body: &'a [u8],
}

/// A moment of the tests.
pub const MOMENT: u64 = 1_767_605_400_000;

/// A record of session 0 with these numbers, and with neither moment nor body.
pub fn plain(kind: u8, numbers: [u64; 5]) -> Row<'static> {
    Row {
        s: 0,
        kind,
        numbers,
        at: 0,
        expected: 1,
        body: b"",
    }
}

pub fn bind(c: u64) -> Row<'static> {
    plain(3, [c, 0, 0, 0, 0])
}

pub fn logon() -> Row<'static> {
    Row {
        at: MOMENT,
        expected: 2,
        body: b"35=A\x0198=0\x01108=30\x01",
        ..plain(2, [1, 0, 0, 0, 0])
    }
}

pub fn arrive(pos: u64) -> Row<'static> {
    Row {
        expected: 3,
        body: b"35=D\x0149=BUYER\x0156=GATE\x0134=2\x0152=20260105-09:30:00.000\x0111=A1\x01",
        ..plain(1, [pos, 0, 0, 0, 0])
    }
}

pub fn leave(c: u64) -> Row<'static> {
    Row {
        expected: 3,
        ..plain(5, [c, 0, 0, 0, 0])
    }
}

/// How many bytes these are.
pub fn size_of(bytes: &[u8]) -> u32 {
    u32::try_from(bytes.len()).unwrap_or(u32::MAX)
}

pub fn put_row(out: &mut Vec<u8>, row: &Row) -> Result<(), AllocError> {
    out.extend_from_slice(&row.s.to_be_bytes())?;
    out.push(row.kind)?;
    for number in &row.numbers {
        out.extend_from_slice(&number.to_be_bytes())?;
    }
    out.extend_from_slice(&row.at.to_be_bytes())?;
    out.extend_from_slice(&row.expected.to_be_bytes())?;
    out.extend_from_slice(&size_of(row.body).to_be_bytes())?;
    out.extend_from_slice(row.body)
}

/// The text of a batch: how long its records are, and they themselves.
pub fn put_texts(out: &mut Vec<u8>, texts: &[u8]) -> Result<(), AllocError> {
    out.extend_from_slice(&size_of(texts).to_be_bytes())?;
    out.extend_from_slice(texts)
}

/// A batch of these rows.
pub fn put_batch(alloc: Global, out: &mut Vec<u8>, rows: &[Row]) -> Result<(), AllocError> {
    let mut texts = Vec::new(alloc);
    for row in rows {
        put_row(&mut texts, row)?;
    }
    put_texts(out, texts.as_slice())
}

/// A file of one batch behind an open gate, and a closed gate behind it.
pub fn one_batch(alloc: Global, rows: &[Row]) -> Result<Vec<u8>, AllocError> {
    let mut file = Vec::new(alloc);
    file.push(1)?;
    put_batch(alloc, &mut file, rows)?;
    file.push(0)?;
    Ok(file)
}

/// Such a file of records as text.
pub fn one_text(alloc: Global, texts: &[u8]) -> Result<Vec<u8>, AllocError> {
    let mut file = Vec::new(alloc);
    file.push(1)?;
    put_texts(&mut file, texts)?;
    file.push(0)?;
    Ok(file)
}

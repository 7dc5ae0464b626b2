//! Journals that look random: batches of rows of several sessions, each of which may stand there.

use crate::rows::{MOMENT, Row, plain, put_row, put_texts};
use crate::runs::Run;
use draws::Draw;
use std::alloc::{AllocError, Global};

/// Over how many sessions the journals are.
pub const SESSIONS: u16 = 3;

/// How often each session can be granted.
pub const LEASES: u32 = 2;

/// The rows of a batch as text, and how many they are.
#[derive(Drop)]
pub struct Batch {
    pub texts: Vec<u8>,
    pub count: usize,
}

fn inbound_body(draw: &mut Draw) -> &'static [u8] {
    match draw.below(3) {
        0 => b"35=D\x0111=A1\x01",
        1 => b"35=B\x0195=3\x0196=a\x01b\x0158=x\x01",
        _ => b"35=D\x0149=BUYER\x0156=GATE\x0134=2\x0152=20260105-09:30:00.000\x0111=A1\x01",
    }
}

fn admin_body(draw: &mut Draw, number: u64) -> &'static [u8] {
    match (draw.below(8), number) {
        (0, _) => b"35=A\x0198=0\x01108=30\x01",
        (1, _) => b"35=A\x0198=0\x01108=0\x01141=Y\x01",
        (2, _) => b"35=2\x017=1\x0116=0\x01",
        (3, _) => b"35=3\x0145=2\x01371=112\x01372=1\x01373=1\x01",
        (4, _) => b"35=5\x0158=over\x01",
        (_, 1) => b"35=1\x01112=1\x01",
        (_, 2) => b"35=1\x01112=2\x01",
        _ => b"35=0\x01112=TEST\x01",
    }
}

fn sent_body(draw: &mut Draw) -> &'static [u8] {
    match draw.below(2) {
        0 => b"35=8\x0137=GO\x01",
        _ => b"35=AE\x01571=7\x01",
    }
}

fn numbers(draw: &mut Draw, run: &Run, kind: u8) -> [u64; 5] {
    let small = u64::from(draw.below(3));
    let library = small.saturating_add(1);
    let number = run.sent.saturating_add(1);
    match kind {
        1 => [run.inbound, 0, 0, 0, 0],
        2 => [number, 0, 0, 0, 0],
        3 => [small, 0, 0, 0, 0],
        4 => [small, library, 0, 0, 0],
        5 => [run.bound.unwrap_or(0), 0, 0, 0, 0],
        6 => [library, 7, run.lease.saturating_add(1), small, run.inbound],
        7 => {
            let past = run.inbound.saturating_add(1);
            let why = run.refusal(library).unwrap_or([4, past, run.inbound]);
            let [cause, first, second] = why;
            [library, 7, cause, first, second]
        }
        8 => [
            run.lease,
            run.library,
            run.sends.saturating_add(1),
            number,
            0,
        ],
        9 => [run.lease, run.library, run.sends, small, 0],
        10 => [run.lease, run.library, run.sends, 0, 0],
        11 => [run.lease, MOMENT, 0, 0, 0],
        12 => [run.lease, 0, 0, 0, 0],
        _ => [run.series.saturating_add(1), 0, 0, 0, 0],
    }
}

/// A row of a session that may stand next there, or nearly.
fn draw_row(draw: &mut Draw, s: u16, run: &Run) -> Row<'static> {
    let kind = match draw.below(14) {
        0 => 11,
        kind => kind as u8,
    };
    let row = plain(kind, numbers(draw, run, kind));
    let [first, _, _, _, _] = row.numbers;
    let (at, body) = match kind {
        1 => (0, inbound_body(draw)),
        2 => (MOMENT, admin_body(draw, first)),
        4 => (MOMENT, row.body),
        8 => (MOMENT, sent_body(draw)),
        _ => (0, row.body),
    };
    Row {
        s,
        at,
        expected: draw.below(1_000_000_000).saturating_add(1),
        body,
        ..row
    }
}

/// A row that may stand next in one of the sessions, which then stands there.
fn next_row(draw: &mut Draw, runs: &mut [Run]) -> Option<Row<'static>> {
    for _ in 0..200u32 {
        let s = draw.below(u32::from(SESSIONS)) as u16;
        let Some(run) = runs.get_mut(usize::from(s)) else {
            return None;
        };
        let row = draw_row(draw, s, run);
        if run.may_follow(&row) {
            run.take(&row);
            return Some(row);
        }
    }
    None
}

fn make_batch(alloc: Global, draw: &mut Draw, runs: &mut [Run]) -> Result<Batch, AllocError> {
    let mut texts = Vec::new(alloc);
    let mut count = 0usize;
    for _ in 0..draw.between(1, 6) {
        if let Some(row) = next_row(draw, runs) {
            put_row(&mut texts, &row)?;
            count = count.saturating_add(1);
        }
    }
    Ok(Batch { texts, count })
}

/// At most so many batches of rows.
pub fn make(alloc: Global, draw: &mut Draw, most: usize) -> Result<Vec<Batch>, AllocError> {
    let mut runs = Vec::new(alloc);
    for _ in 0..SESSIONS {
        runs.push(Run::new(LEASES))?;
    }
    let mut batches = Vec::new(alloc);
    for _ in 0..draw.between(1, most) {
        batches.push(make_batch(alloc, draw, &mut runs)?)?;
    }
    Ok(batches)
}

/// The text of all rows of the first batches.
pub fn texts_of(alloc: Global, batches: &[Batch]) -> Result<Vec<u8>, AllocError> {
    let mut texts = Vec::new(alloc);
    for batch in batches {
        texts.extend_from_slice(&batch.texts)?;
    }
    Ok(texts)
}

/// How many rows the batches have.
pub fn count_of(batches: &[Batch]) -> usize {
    let mut count = 0usize;
    for batch in batches {
        count = count.saturating_add(batch.count);
    }
    count
}

/// The file of these batches.
pub fn file_of(alloc: Global, batches: &[Batch]) -> Result<Vec<u8>, AllocError> {
    let mut file = Vec::new(alloc);
    for batch in batches {
        file.push(1)?;
        put_texts(&mut file, &batch.texts)?;
    }
    file.push(0)?;
    Ok(file)
}

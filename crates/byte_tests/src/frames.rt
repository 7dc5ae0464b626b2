//! Frames: worked rows, garbled bytes and the limits.

use crate::checks::{holds, same, same_at};
use crate::feeding::cut_parts;
use crate::texts::row_bytes;
use fix_frame::{
    Cutter, FrameError, LEAST_LIMIT, LEAST_ROOM, LONGEST_BODY, LONGEST_FRAME, OwnedPiece, Piece,
    frame_len, is_body, write_frame,
};
use std::alloc::{AllocError, Global};
use std::process::Abort;
use std::test::Fail;

const LOGON: &str = "35=A|49=BUYER|56=GATE|34=1|52=20260105-09:30:00.000|98=0|108=30|";

const ORDER: &str = "35=D|49=BUYER|56=GATE|34=2|52=20260105-09:30:00.000|11=A1|";

/// The frame of a body.
fn frame_of(rt: &impl Abort, alloc: Global, body: &[u8]) -> Result<Vec<u8>, FrameError> {
    assert!(rt; is_body(body));
    write_frame(alloc, body)
}

/// The bytes of these texts, one behind another.
fn joined(alloc: Global, texts: &[&str]) -> Result<Vec<u8>, AllocError> {
    let mut bytes = Vec::new(alloc);
    for text in texts {
        bytes.extend_from_slice(&row_bytes(alloc, text)?)?;
    }
    Ok(bytes)
}

/// Writes the frame of a body, which has this head, trailer and length, and has it cut again.
fn write_and_cut(
    rt: &impl Abort,
    alloc: Global,
    cutter: &mut Cutter,
    row: (&str, &str, &str, usize),
) -> Result<(), Fail> {
    let (text, head, trailer, length) = row;
    let body = row_bytes(alloc, text)?;
    let frame = frame_of(rt, alloc, &body)?;
    same(rt, &frame, &joined(alloc, &[head, text, trailer])?);
    same(rt, &frame.len(), &length);
    assert!(rt; frame.len() <= cutter.room());
    cutter.feed(&frame);
    same(rt, &cutter.next(), &Some(Piece::Good(&body)));
    same(rt, &cutter.next(), &None);
    Ok(())
}

#[test]
fn worked_frames_are_written_and_cut(rt: HostRuntime) -> Result<(), Fail> {
    let rows = [
        (LOGON, "8=FIX.4.4|9=64|", "10=148|", 86),
        (ORDER, "8=FIX.4.4|9=58|", "10=148|", 80),
        (
            "35=D|49=BUYER|56=GATE|34=3|52=20260105-09:30:00.000|11=A2|",
            "8=FIX.4.4|9=58|",
            "10=150|",
            80,
        ),
    ];
    let mut cutter = Cutter::new(rt.alloc(), LONGEST_FRAME)?;
    for row in rows {
        write_and_cut(&rt, rt.alloc(), &mut cutter, row)?;
    }
    Ok(())
}

/// The sum of the garbled bytes among the next pieces, so many of them.
fn garbled_among(cutter: &mut Cutter, count: u32) -> usize {
    let mut sum = 0usize;
    for _ in 0..count {
        if let Some(Piece::Garbled { length }) = cutter.next() {
            sum = sum.wrapping_add(length);
        }
    }
    sum
}

/// Cuts these bytes with the frame of `ORDER` behind them: so many pieces have so many garbled bytes, and
/// then the order comes.
fn cut_before_the_order(
    rt: &impl Abort,
    alloc: Global,
    texts: &[&str],
    garbled: usize,
    count: u32,
) -> Result<(), Fail> {
    let order = row_bytes(alloc, ORDER)?;
    let mut bytes = joined(alloc, texts)?;
    bytes.extend_from_slice(&frame_of(rt, alloc, &order)?)?;
    let mut cutter = Cutter::new(alloc, LONGEST_FRAME)?;
    assert!(rt; bytes.len() <= cutter.room());
    cutter.feed(&bytes);
    same(rt, &garbled_among(&mut cutter, count), &garbled);
    same(rt, &cutter.next(), &Some(Piece::Good(&order)));
    same(rt, &cutter.next(), &None);
    Ok(())
}

#[test]
fn garbled_bytes_are_counted(rt: HostRuntime) -> Result<(), Fail> {
    let rows = [
        // A length may have leading zeros.
        ("8=FIX.4.4|9=000064|", LOGON, "10=084|", 0, 1),
        // Byte 65 of the body doesn't end a field.
        ("8=FIX.4.4|9=65|", LOGON, "10=149|", 86, 86),
        ("8=FIX.4.4|9=58|", ORDER, "10=149|", 80, 1),
    ];
    for (head, body, trailer, garbled, count) in rows {
        cut_before_the_order(&rt, rt.alloc(), &[head, body, trailer], garbled, count)?;
    }
    Ok(())
}

/// Whether the piece in memory of its own is the one that is lent.
fn is_same(taken: &Option<OwnedPiece>, lent: Option<Piece>) -> bool {
    match (taken, lent) {
        (None, None) => true,
        (Some(OwnedPiece::Good(own)), Some(Piece::Good(body))) => own.as_slice() == body,
        (Some(OwnedPiece::Garbled { length: own }), Some(Piece::Garbled { length })) => *own
            == length,
        _ => false,
    }
}

/// A byte alone, a frame, one whose checksum is wrong, two bytes alone, a frame, and one that begins.
const MIXED: &str =
    "x8=FIX.4.4|9=5|35=0|10=163|8=FIX.4.4|9=5|35=0|10=164|||8=FIX.4.4|9=10|35=0|58=x|10=242|8=FIX.4.4|9=";

#[test]
fn taken_pieces_are_those_that_are_lent(rt: HostRuntime) -> Result<(), Fail> {
    let short = row_bytes(rt.alloc(), "35=0|")?;
    let long = row_bytes(rt.alloc(), "35=0|58=x|")?;
    let mut lender = Cutter::new(rt.alloc(), LONGEST_FRAME)?;
    let mut giver = Cutter::new(rt.alloc(), LONGEST_FRAME)?;
    let bytes = row_bytes(rt.alloc(), MIXED)?;
    assert!(rt; bytes.len() <= lender.room() && bytes.len() <= giver.room());
    lender.feed(&bytes);
    giver.feed(&bytes);
    for wanted in [
        Some(Piece::Garbled { length: 1 }),
        Some(Piece::Good(&short)),
        Some(Piece::Garbled { length: 26 }),
        Some(Piece::Garbled { length: 1 }),
        Some(Piece::Garbled { length: 1 }),
        Some(Piece::Good(&long)),
        None,
    ] {
        let lent = lender.next();
        let taken = giver.take_next(rt.alloc())?;
        same(&rt, &lent, &wanted);
        holds(&rt, is_same(&taken, lent), &(taken, lent));
    }
    Ok(())
}

/// A body of so many bytes.
fn body_of(alloc: Global, size: usize) -> Result<Vec<u8>, Fail> {
    let mut body = row_bytes(alloc, "35=B|58=")?;
    body.resize(size.saturating_sub(1), b'x')?;
    body.push(1)?;
    Ok(body)
}

#[test]
fn frames_end_at_the_limit(rt: HostRuntime) -> Result<(), Fail> {
    let body = body_of(rt.alloc(), LONGEST_BODY)?;
    same(&rt, &frame_len(&body), &65_536);
    let frame = frame_of(&rt, rt.alloc(), &body)?;
    same(&rt, &frame.len(), &65_536);
    let mut cutter = Cutter::new(rt.alloc(), LONGEST_FRAME)?;
    for byte in &frame {
        assert!(rt; cutter.next().is_none());
        assert!(rt; cutter.room() >= LEAST_ROOM);
        cutter.feed(&[*byte]);
    }
    same(&rt, &cutter.next(), &Some(Piece::Good(&body)));
    Ok(())
}

#[test]
fn longer_bodies_are_too_long(rt: HostRuntime) -> Result<(), Fail> {
    for (size, length) in [(65_512, 65_537), (99_999, 100_024), (100_000, 100_026)] {
        let body = body_of(rt.alloc(), size)?;
        same(&rt, &frame_len(&body), &length);
        let error = frame_of(&rt, rt.alloc(), &body);
        same(&rt, &error, &Err(FrameError::TooLong { length }));
    }
    Ok(())
}

#[test]
fn short_limits_are_held_to(rt: HostRuntime) -> Result<(), Fail> {
    let rows = [
        ("8=FIX.4.4|9=10|35=0|58=x|10=242|", 1),
        ("8=FIX.4.4|9=11|35=0|58=xx|10=107|", 33),
    ];
    for (text, count) in rows {
        let bytes = row_bytes(rt.alloc(), text)?;
        for given in cut_parts(rt.alloc(), LEAST_LIMIT, &[bytes])? {
            same(&rt, &given.len(), &count);
        }
    }
    Ok(())
}

#[test]
fn what_is_a_body(rt: HostRuntime) -> Result<(), Fail> {
    let rows = [
        ("35=|", true),
        ("35=D|11=a|", true),
        ("", false),
        ("35=", false),
        ("35=D", false),
        ("|35=D|", false),
        ("36=D|", false),
    ];
    for (text, wanted) in rows {
        same_at(&rt, &is_body(&row_bytes(rt.alloc(), text)?), &wanted, &text);
    }
    Ok(())
}

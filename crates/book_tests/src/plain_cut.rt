//! The cut of a connection's bytes, each time from the first byte on. No clause ties it to the
//! definition, and none of its code is that of the crates.

use crate::texts::sum_of;
use gate_io::NoMemory;
use std::alloc::Global;

/// A piece: a body, or so many garbled bytes.
#[derive(Drop)]
pub enum PlainPiece {
    Good(Vec<u8>),
    Garbled(usize),
}

/// What stands at the beginning of some bytes: a frame with a body of so many bytes behind so many,
/// the beginning of one, or a byte that begins none.
#[derive(Clone, Copy)]
enum Front {
    Frame { head: usize, body: usize },
    Rest,
    Stray,
}

/// The most bytes of a frame, and how many of them are neither digits of its length nor its body.
const LONGEST: usize = 65_536;

const AROUND: usize = 20;

const START: &[u8] = b"8=FIX.4.4\x019=";

/// What a byte of a frame has to be.
#[derive(Clone, Copy)]
enum Want {
    This(u8),
    Digit,
    Any,
}

fn meets(want: Want, byte: u8) -> bool {
    match want {
        Want::This(exact) => byte == exact,
        Want::Digit => byte.is_ascii_digit(),
        Want::Any => true,
    }
}

/// The byte at this place of a body of this length and of what is behind it.
fn wanted(at: usize, body: usize) -> Want {
    let behind = at.saturating_sub(body);
    if at < 3 {
        return this(b"35=", at);
    }
    if at.saturating_add(1) == body {
        return Want::This(1);
    }
    if at < body {
        return Want::Any;
    }
    match behind {
        0..=2 => this(b"10=", behind),
        3..=5 => Want::Digit,
        _ => Want::This(1),
    }
}

fn this(text: &[u8], at: usize) -> Want {
    match text.get(at) {
        Some(byte) => Want::This(*byte),
        None => Want::Any,
    }
}

/// How many digits stand at the front, at most ten, and their value.
fn digits(bytes: &[u8]) -> (usize, usize) {
    let mut count = 0usize;
    let mut value = 0usize;
    for byte in bytes {
        if !byte.is_ascii_digit() || count == 10 {
            return (count, value);
        }
        count = count.saturating_add(1);
        value = value
            .saturating_mul(10)
            .saturating_add(usize::from(byte.wrapping_sub(b'0')));
    }
    (count, value)
}

/// Whether a frame can have a length of so many digits, whose value is from the least to the most.
fn fits(count: usize, least: usize, most: usize) -> bool {
    let longest = LONGEST.saturating_sub(AROUND).saturating_sub(count);
    count <= 9 && least.max(4) <= most.min(longest)
}

/// Whether digits can be put behind so many with this value, so that a frame can have that length.
fn can_grow(count: usize, value: usize) -> bool {
    let mut more = count;
    let mut least = value;
    let mut ways = 1usize;
    for _ in count..10 {
        if fits(more, least, least.saturating_add(ways).saturating_sub(1)) {
            return true;
        }
        more = more.saturating_add(1);
        least = least.saturating_mul(10);
        ways = ways.saturating_mul(10);
    }
    false
}

/// What stands at the front of bytes that don't end in it.
fn front_of(bytes: &[u8]) -> Front {
    for (want, byte) in START.iter().zip(bytes.iter()) {
        if *want != *byte {
            return Front::Stray;
        }
    }
    let Some((_, behind)) = bytes.split_at_checked(START.len()) else {
        return Front::Rest;
    };
    let (count, value) = digits(behind);
    let Some((_, behind)) = behind.split_at_checked(count) else {
        return Front::Stray;
    };
    match behind.split_first() {
        None if can_grow(count, value) => Front::Rest,
        Some((1, behind)) if count > 0 && fits(count, value, value) => body_of(
            behind,
            START.len().saturating_add(count).saturating_add(1),
            value,
        ),
        _ => Front::Stray,
    }
}

/// The same from the body on, which has so many bytes, as have those before it.
fn body_of(bytes: &[u8], head: usize, body: usize) -> Front {
    let whole = body.saturating_add(7);
    for (at, byte) in bytes.iter().take(whole).enumerate() {
        if !meets(wanted(at, body), *byte) {
            return Front::Stray;
        }
    }
    if bytes.len() < whole {
        return Front::Rest;
    }
    Front::Frame { head, body }
}

/// The piece that a frame is, and its length.
fn piece_of(
    alloc: Global,
    bytes: &[u8],
    head: usize,
    body: usize,
) -> Result<(PlainPiece, usize), NoMemory> {
    let summed = head.saturating_add(body);
    let whole = summed.saturating_add(7);
    let garbled = (PlainPiece::Garbled(whole), whole);
    let Some((front, behind)) = bytes.split_at_checked(summed) else {
        return Ok(garbled);
    };
    let trailer = format!(in alloc; "10={:03}\x01", sum_of(front))?;
    let Some((_, text)) = front.split_at_checked(head) else {
        return Ok(garbled);
    };
    if !behind.starts_with(trailer.as_bytes()) {
        return Ok(garbled);
    }
    Ok((PlainPiece::Good(Vec::from_slice(alloc, text)?), whole))
}

/// The pieces of bytes, in order.
pub fn cut(alloc: Global, bytes: &[u8]) -> Result<Vec<PlainPiece>, NoMemory> {
    let mut pieces = Vec::new(alloc);
    let mut left = bytes;
    for _ in 0..bytes.len() {
        let (piece, size) = match front_of(left) {
            _ if left.is_empty() => return Ok(pieces),
            Front::Rest => return Ok(pieces),
            Front::Stray => (PlainPiece::Garbled(1), 1),
            Front::Frame { head, body } => piece_of(alloc, left, head, body)?,
        };
        pieces.push(piece)?;
        let Some((_, behind)) = left.split_at_checked(size) else {
            return Ok(pieces);
        };
        left = behind;
    }
    Ok(pieces)
}

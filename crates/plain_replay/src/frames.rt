//! Where frames begin and end in the bytes of a connection.

use gate_io::NoMemory;
use std::alloc::Global;

/// The most bytes of a frame.
const MOST_FRAME: u64 = 65_536;

/// The bytes of a frame beside its length field's digits and its body: `8=FIX.4.4|9=`, `|` and `10=ccc|`.
const AROUND: u64 = 20;

/// The least body: `35=|`.
const LEAST_BODY: u64 = 4;

const HEAD: &[u8] = b"8=FIX.4.4\x019=";

/// What stands at a place.
#[derive(Clone, Copy, Debug)]
pub(crate) enum Piece {
    /// The bytes may go on to a frame.
    Rest,
    /// So many bytes that are no frame.
    Garbled {
        length: usize,
    },
    /// A frame of so many bytes, whose body stands between two places.
    Good {
        from: usize,
        to: usize,
        length: usize,
    },
}

const NO_FRAME: Piece = Piece::Garbled { length: 1 };

/// How the bytes at a place compare with what a frame has there.
#[derive(Clone, Copy, PartialEq, Eq)]
enum Match {
    Whole,
    /// They end before they differ.
    Short,
    Differs,
}

fn compare(bytes: &[u8], at: usize, wanted: &[u8]) -> Match {
    for (i, byte) in wanted.iter().enumerate() {
        match bytes.get(at.saturating_add(i)) {
            None => return Match::Short,
            Some(found) if found != byte => return Match::Differs,
            Some(_same) => {}
        }
    }
    Match::Whole
}

/// The length that digits say, their number, and whether the field's end was seen. None where it is no length field.
fn read_length(bytes: &[u8], at: usize) -> Option<(u64, u64, bool)> {
    let mut value = 0u64;
    for digits in 0..10u64 {
        match bytes.get(at.saturating_add(digits as usize)) {
            None => return Some((value, digits, false)),
            Some(1) if digits > 0 => return Some((value, digits, true)),
            Some(byte) if byte.is_ascii_digit() && digits < 9 => {
                let digit = u64::from(byte.wrapping_sub(b'0'));
                value = value.wrapping_mul(10).wrapping_add(digit);
            }
            Some(_other) => return None,
        }
    }
    None
}

/// The longest body of a frame whose length field has so many digits.
fn longest_body(digits: u64) -> u64 {
    MOST_FRAME.saturating_sub(AROUND).saturating_sub(digits)
}

/// Whether digits that have this value so far can go on to the length of a body.
fn can_go_on(value: u64, digits: u64) -> bool {
    let mut least = value;
    let mut most = value;
    for all in digits..10 {
        if least.max(LEAST_BODY) <= most.min(longest_body(all)) {
            return true;
        }
        least = least.saturating_mul(10);
        most = most.saturating_mul(10).saturating_add(9);
    }
    false
}

/// What stands at a place of all the bytes that were read so far.
pub(crate) fn piece_at(bytes: &[u8], at: usize) -> Piece {
    match compare(bytes, at, HEAD) {
        Match::Whole => {}
        Match::Short => return Piece::Rest,
        Match::Differs => return NO_FRAME,
    }
    let digits_at = at.saturating_add(HEAD.len());
    let Some((value, digits, ended)) = read_length(bytes, digits_at) else {
        return NO_FRAME;
    };
    if !ended {
        return if digits == 0 || can_go_on(value, digits) {
            Piece::Rest
        } else {
            NO_FRAME
        };
    }
    if value < LEAST_BODY || value > longest_body(digits) {
        return NO_FRAME;
    }
    let from = digits_at.saturating_add(digits as usize).saturating_add(1);
    let to = from.saturating_add(value as usize);
    frame_of_body(bytes, at, from, to)
}

/// What stands at a place where the head of a frame is whole, and its body would stand between two places.
fn frame_of_body(bytes: &[u8], at: usize, from: usize, to: usize) -> Piece {
    let end = compare(bytes, to.saturating_sub(1), b"\x0110=");
    let parts = [compare(bytes, from, b"35="), end, compare_sum(bytes, to)];
    for part in parts {
        match part {
            Match::Whole => {}
            Match::Short => return Piece::Rest,
            Match::Differs => return NO_FRAME,
        }
    }
    let length = to.saturating_add(7).saturating_sub(at);
    if sum_of(bytes, at, to) == written_sum(bytes, to) {
        Piece::Good { from, to, length }
    } else {
        Piece::Garbled { length }
    }
}

/// Whether three digits and an end stand where the sum does.
fn compare_sum(bytes: &[u8], to: usize) -> Match {
    for i in 3..7usize {
        match bytes.get(to.saturating_add(i)) {
            None => return Match::Short,
            Some(1) if i == 6 => {}
            Some(byte) if byte.is_ascii_digit() && i < 6 => {}
            Some(_other) => return Match::Differs,
        }
    }
    Match::Whole
}

fn written_sum(bytes: &[u8], to: usize) -> u64 {
    let mut sum = 0u64;
    for i in 3..6usize {
        if let Some(byte) = bytes.get(to.saturating_add(i)) {
            let digit = u64::from(byte.wrapping_sub(b'0'));
            sum = sum.wrapping_mul(10).wrapping_add(digit);
        }
    }
    sum
}

fn sum_of(bytes: &[u8], from: usize, to: usize) -> u64 {
    let mut sum = 0u8;
    for i in from..to {
        if let Some(byte) = bytes.get(i) {
            sum = sum.wrapping_add(*byte);
        }
    }
    u64::from(sum)
}

/// The frame of a body.
pub(crate) fn frame_of(alloc: Global, body: &[u8]) -> Result<Vec<u8>, NoMemory> {
    let mut frame = Vec::from_slice(alloc, HEAD)?;
    let length = body.len();
    let digits = format!(in alloc; "{length}")?;
    frame.extend_from_slice(digits.as_bytes())?;
    frame.push(1)?;
    frame.extend_from_slice(body)?;
    let sum = sum_of(&frame, 0, frame.len());
    let trailer = format!(in alloc; "10={sum:03}")?;
    frame.extend_from_slice(trailer.as_bytes())?;
    frame.push(1)?;
    Ok(frame)
}

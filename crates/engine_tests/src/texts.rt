//! Texts in which `|` stands for SOH, and their frames.

use fix_fields::LONGEST_APPLICATION_BODY;
use gate_io::NoMemory;
use row_text::{Sign, put_signed, signed};
use std::alloc::Global;

/// 2026-01-05 09:30:00.000
pub(crate) const T: u64 = 1_767_605_400_000;

/// BUYER's order, in which `#` stands for its number.
pub(crate) const ORDER: &str = "35=D|(#)11=A#|";

/// What stands between two bodies.
const THEN: &str = " then ";

// What stands for parts of bodies.
const SIGNS: [Sign<'static>; 9] = [
    (b'@', b"20260105-09:30:00.000"),
    (b'(', b"49=BUYER\x0156=GATE\x0134="),
    (b'[', b"49=DESK\x0156=GATE\x0134="),
    (b'{', b"49=HUB\x0156=GATE\x0134="),
    (b'<', b"49=GATE\x0156=BUYER\x0134="),
    (b')', b"\x0152=20260105-09:30:00.000\x01"),
    (b']', b"\x0152=20260105-09:30:00.000\x01"),
    (b'}', b"\x0152=20260105-09:30:00.000\x01"),
    (b'>', b"\x0152=20260105-09:30:00.000\x01"),
];

/// The bytes of a text in which `|` stands for SOH, `@` for the morning's beginning as field 52 has it, and
/// with a number n `(n)` for BUYER's header, `[n]` for DESK's, `{n}` for HUB's, and `<n>` for GATE's to
/// BUYER.
pub(crate) fn soh(alloc: Global, text: &str) -> Result<Vec<u8>, NoMemory> {
    signed(alloc, text, &SIGNS)
}

/// So where `#` stands for a number.
pub(crate) fn numbered(alloc: Global, text: &str, number: u64) -> Result<Vec<u8>, NoMemory> {
    let digits = format!(in alloc; "{number}")?;
    let mut bytes = Vec::new(alloc);
    for byte in text.as_bytes() {
        if *byte == b'#' {
            bytes.extend_from_slice(digits.as_bytes())?;
        } else {
            put_signed(&mut bytes, *byte, &SIGNS)?;
        }
    }
    Ok(bytes)
}

/// The longest body that a library may send, of one field beside its type.
pub(crate) fn longest(alloc: Global) -> Result<Vec<u8>, NoMemory> {
    let mut body = soh(alloc, "35=8|58=")?;
    for _ in body.len()..LONGEST_APPLICATION_BODY - 1 {
        body.push(b'x')?;
    }
    body.push(1)?;
    Ok(body)
}

// The frame of a body: BeginString, BodyLength, the body, CheckSum.
fn frame(alloc: Global, body: &[u8]) -> Result<Vec<u8>, NoMemory> {
    let head = format!(in alloc; "8=FIX.4.4\x019={}\x01", body.len())?;
    let mut frame = Vec::from_slice(alloc, head.as_bytes())?;
    frame.extend_from_slice(body)?;
    let tail = format!(in alloc; "10={:03}\x01", sum(frame.as_slice()))?;
    frame.extend_from_slice(tail.as_bytes())?;
    Ok(frame)
}

// The sum of the bytes modulo 256.
fn sum(bytes: &[u8]) -> u8 {
    let mut sum = 0u8;
    for byte in bytes {
        sum = sum.wrapping_add(*byte);
    }
    sum
}

/// The frames of these bodies, which are parted by `then`, one behind the other.
pub(crate) fn frames(alloc: Global, texts: &str) -> Result<Vec<u8>, NoMemory> {
    let mut bytes = Vec::new(alloc);
    for text in texts.split(THEN) {
        bytes.extend_from_slice(frame(alloc, soh(alloc, text)?.as_slice())?.as_slice())?;
    }
    Ok(bytes)
}

/// The frames of a body in which `#` stands for its number, with the numbers from one to another.
pub(crate) fn run(alloc: Global, text: &str, first: u64, last: u64) -> Result<Vec<u8>, NoMemory> {
    let mut bytes = Vec::new(alloc);
    for number in first..last.saturating_add(1) {
        let body = numbered(alloc, text, number)?;
        bytes.extend_from_slice(frame(alloc, body.as_slice())?.as_slice())?;
    }
    Ok(bytes)
}

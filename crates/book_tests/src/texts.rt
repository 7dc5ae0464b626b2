//! Texts in which `|` stands for SOH.

use gate_io::NoMemory;
use row_text::{BUYER, signed};
use std::alloc::Global;

/// 2026-01-05 09:30:00.000
pub const T: u64 = 1_767_605_400_000;

/// The bytes of a text in which `|` stands for SOH and `(n)` for BUYER's header with the number n.
pub fn soh(alloc: Global, text: &str) -> Result<Vec<u8>, NoMemory> {
    signed(alloc, text, &BUYER)
}

/// The sum of all bytes, modulo 256.
pub fn sum_of(bytes: &[u8]) -> u8 {
    bytes.iter().fold(0u8, |sum, byte| sum.wrapping_add(*byte))
}

/// The frame of a body.
pub fn frame(alloc: Global, body: &[u8]) -> Result<Vec<u8>, NoMemory> {
    let head = format!(in alloc; "8=FIX.4.4\x019={}\x01", body.len())?;
    let mut frame = Vec::from_slice(alloc, head.as_bytes())?;
    frame.extend_from_slice(body)?;
    let trailer = format!(in alloc; "10={:03}\x01", sum_of(&frame))?;
    frame.extend_from_slice(trailer.as_bytes())?;
    Ok(frame)
}

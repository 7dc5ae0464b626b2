//! Texts in which `|` stands for SOH.

use fix_frame::{FrameError, is_body, write_frame};
use gate_io::NoMemory;
use row_text::{BUYER, signed};
use std::alloc::Global;

/// 2026-01-05 09:30:00.000
pub const T: u64 = 1_767_605_400_000;

/// The bytes of a text in which `|` stands for SOH and `(n)` for BUYER's header with the number n.
pub fn soh(alloc: Global, text: &str) -> Result<Vec<u8>, NoMemory> {
    signed(alloc, text, &BUYER)
}

/// The frame of the body with this text, or the bytes of a text that is none.
pub fn frame(alloc: Global, text: &str) -> Result<Vec<u8>, NoMemory> {
    let body = soh(alloc, text)?;
    if !is_body(body.as_slice()) {
        return Ok(body);
    }
    match write_frame(alloc, body.as_slice()) {
        Ok(frame) => Ok(frame),
        Err(FrameError::OutOfMemory) => Err(NoMemory::OutOfMemory),
        Err(FrameError::TooLong { .. }) => Ok(body),
    }
}

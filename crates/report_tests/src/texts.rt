//! Frames of texts in which `|` stands for SOH.

use fix_frame::{is_body, write_frame};
use row_text::soh;
use std::alloc::Global;
use std::test::Fail;

/// 2026-01-05 09:30:00.000
pub const T: u64 = 1_767_605_400_000;

/// The frames of these bodies, one behind the other.
pub fn frames(alloc: Global, texts: &[&str]) -> Result<Vec<u8>, Fail> {
    let mut bytes = Vec::new(alloc);
    for text in texts {
        let mut frame = frame(alloc, soh(alloc, text)?)?;
        bytes.append(&mut frame)?;
    }
    Ok(bytes)
}

fn frame(alloc: Global, body: Vec<u8>) -> Result<Vec<u8>, Fail> {
    if is_body(body.as_slice()) {
        Ok(write_frame(alloc, body.as_slice())?)
    } else {
        Err(Fail::new("no body"))
    }
}

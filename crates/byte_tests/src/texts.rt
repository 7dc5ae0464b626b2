//! Bytes as text, in which `|` stands for SOH.

use std::alloc::{AllocError, Global};

/// The text with byte 1 for each `|`.
pub(crate) fn row_bytes(alloc: Global, text: &str) -> Result<Vec<u8>, AllocError> {
    text.bytes()
        .map(|b| if b == b'|' { 1 } else { b })
        .collect(alloc)
}

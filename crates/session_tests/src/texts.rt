//! Texts in which `|` stands for SOH.

use gate_io::NoMemory;
use row_text::{Sign, signed};
use std::alloc::Global;

/// 2026-01-05 09:30:00.000
pub const T: u64 = 1_767_605_400_000;

// `(n)` stands for BUYER's header with the number n.
const SIGNS: [Sign<'static>; 2] = [(b'(', b"49=BUYER\x0156=GATE\x0134="), (b')', b"\x01")];

/// The bytes of a text in which `|` stands for SOH and `(n)` for BUYER's header with the number n.
pub fn soh(alloc: Global, text: &str) -> Result<Vec<u8>, NoMemory> {
    signed(alloc, text, &SIGNS)
}

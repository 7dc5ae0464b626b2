//! Texts in which `|` stands for SOH, and moments.

ghost use Rattle.std.specs.Prelude.{◌≤◌};

use gate_io::{LAST_MOMENT, NoMemory};
use row_text::{Sign, signed};
use std::alloc::Global;

/// The morning's beginning, 2026-01-05 09:30:00.000.
pub const T: u64 = 1_767_605_400_000;

/// The moment that is so many milliseconds past the morning's beginning.
pub fn moment(past: u64) -> u64
    ensures { result ≤ LAST_MOMENT }
{
    T.saturating_add(past).min(LAST_MOMENT)
}

// `(n)` stands for BUYER's header with the number n, and `[n]` for SELLER's.
const SIGNS: [Sign<'static>; 4] = [
    (b'(', b"49=BUYER\x0156=GATE\x0134="),
    (b'[', b"49=SELLER\x0156=GATE\x0134="),
    (b')', b"\x0152=20260105-09:30:00.000\x01"),
    (b']', b"\x0152=20260105-09:30:00.000\x01"),
];

/// The bytes of a text in which `|` stands for SOH, `(n)` for BUYER's header with the number n, and
/// `[n]` for SELLER's.
pub fn soh(alloc: Global, text: &str) -> Result<Vec<u8>, NoMemory> {
    signed(alloc, text, &SIGNS)
}

/// The order of a number that the counterparty of session 0 or 1 sends.
pub fn order(alloc: Global, s: u16, number: u64) -> Result<Vec<u8>, NoMemory> {
    let text = if s == 0 {
        format!(in alloc; "35=D|({number})11=A{number}|")?
    } else {
        format!(in alloc; "35=D|[{number}]11=A{number}|")?
    };
    soh(alloc, text.as_str())
}

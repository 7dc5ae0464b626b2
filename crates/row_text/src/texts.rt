//! Bytes of messages as text, in which `|` stands for SOH.

use gate_io::NoMemory;
use std::alloc::Global;
use std::fmt::Write;

/// A sign of a text, and the bytes that it stands for.
pub type Sign<'a> = (u8, &'a [u8]);

/// The signs with which `(n)` stands for the rest of a header behind the type: that of BUYER's message with the number
/// n, to GATE, from 2026-01-05 09:30:00.000.
pub const BUYER: [Sign<'static>; 2] = [
    (b'(', b"49=BUYER\x0156=GATE\x0134="),
    (b')', b"\x0152=20260105-09:30:00.000\x01"),
];

/// The bytes of a text in which `|` stands for SOH.
pub fn soh(alloc: Global, text: &str) -> Result<Vec<u8>, NoMemory> {
    signed(alloc, text, &[])
}

/// The bytes of a text in which `|` stands for SOH, and each of the signs for its bytes.
pub fn signed(alloc: Global, text: &str, signs: &[Sign<'_>]) -> Result<Vec<u8>, NoMemory> {
    let mut bytes = Vec::new(alloc);
    for byte in text.as_bytes() {
        put_signed(&mut bytes, *byte, signs)?;
    }
    Ok(bytes)
}

/// Puts what a byte of a text stands for behind other bytes.
pub fn put_signed(bytes: &mut Vec<u8>, byte: u8, signs: &[Sign<'_>]) -> Result<(), NoMemory> {
    for (sign, meant) in signs {
        if *sign == byte {
            bytes.extend_from_slice(meant)?;
            return Ok(());
        }
    }
    bytes.push(if byte == b'|' { 1 } else { byte })?;
    Ok(())
}

/// The text of bytes, in which `|` stands for SOH. A `|`, a backslash and what isn't printable stand as `\xNN`.
pub fn legible(alloc: Global, bytes: &[u8]) -> Result<String, NoMemory> {
    let mut text = String::new(alloc);
    put_legible(&mut text, bytes)?;
    Ok(text)
}

/// Puts bytes, so written, behind a text.
pub fn put_legible(text: &mut String, bytes: &[u8]) -> Result<(), NoMemory> {
    for byte in bytes {
        match *byte {
            1 => text.push('|')?,
            b'|' | b'\\' | ..b' ' | 127.. => write!(text, "\\x{byte:02x}")?,
            _ => text.push(char::from(*byte))?,
        }
    }
    Ok(())
}

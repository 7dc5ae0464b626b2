//! What a counterparty sends, and what a library answers.

use std::alloc::Global;

/// 2026-01-05 09:30:00.000
pub const MORNING: u64 = 1_767_605_400_000;

/// What follows the header in a Logon.
pub const LOGON: &str = "98=0\x01108=30\x01";

/// What follows the header in an order.
pub const ORDER: &str =
    "11=order-1\x0155=ACME\x0154=1\x0138=100\x0140=2\x0144=12.50\x0159=0\x011=account-77\x0158=as told at the desk\x01";

/// An execution report that fills an order.
pub const REPORT: &[u8] =
    b"35=8\x0137=O1\x0117=E1\x01150=F\x0139=2\x0111=order-1\x0155=ACME\x0154=1\x0138=100\x0132=100\x0131=12.50\x01151=0\x0114=100\x016=12.50\x01";

/// Puts the frame of a message of BUYER's behind the input.
pub fn put_message(
    alloc: Global,
    input: &mut Vec<u8>,
    kind: &str,
    number: u64,
    rest: &str,
) -> Result<(), anyhow::Error> {
    let body = format!(in alloc;
        "35={kind}\x0149=BUYER\x0156=GATE\x0134={number}\x0152=20260105-09:30:00.000\x01{rest}"
    )?;
    let head = format!(in alloc; "8=FIX.4.4\x019={}\x01", body.len())?;
    input.extend_from_slice(head.as_bytes())?;
    input.extend_from_slice(body.as_bytes())?;
    let sum = sum(head.as_bytes()).wrapping_add(sum(body.as_bytes()));
    let tail = format!(in alloc; "10={sum:03}\x01")?;
    input.extend_from_slice(tail.as_bytes())?;
    Ok(())
}

// The sum of the bytes modulo 256.
fn sum(bytes: &[u8]) -> u8 {
    let mut sum = 0u8;
    for byte in bytes {
        sum = sum.wrapping_add(*byte);
    }
    sum
}

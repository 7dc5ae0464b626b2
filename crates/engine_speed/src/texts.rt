//! What counterparties send, and what a library answers.

use std::alloc::Global;

/// 2026-01-05 09:30:00.000
pub const MORNING: u64 = 1_767_605_400_000;

/// The counterparty of the one session.
const BUYER: &str = "BUYER";

/// An execution report that fills an order.
pub const REPORT: &[u8] =
    b"35=8\x0137=O1\x0117=E1\x01150=F\x0139=2\x0111=order-1\x0155=ACME\x0154=1\x0138=100\x0132=100\x0131=12.50\x01151=0\x0114=100\x016=12.50\x01";

/// A Logon of BUYER's, and behind it so many orders with the numbers from 2 on, each in a frame of its own.
pub fn morning(alloc: Global, orders: u64) -> Result<Vec<u8>, anyhow::Error> {
    let mut input = logon(alloc, BUYER)?;
    for k in 0..orders {
        put(
            alloc,
            &mut input,
            BUYER,
            "D",
            k.wrapping_add(2),
            "11=order-1\x0155=ACME\x0154=1\x0138=100\x0140=2\x0144=12.50\x0159=0\x011=account-77\x0158=as told at the desk\x01",
        )?;
    }
    Ok(input)
}

/// The frame of a counterparty's Logon.
pub fn logon(alloc: Global, name: &str) -> Result<Vec<u8>, anyhow::Error> {
    let mut input = Vec::new(alloc);
    put(alloc, &mut input, name, "A", 1, "98=0\x01108=30\x01")?;
    Ok(input)
}

/// The name of the counterparty of a session, where there are many.
pub fn name_of(alloc: Global, session: u32) -> Result<String, anyhow::Error> {
    Ok(format!(in alloc; "B{session:02}")?)
}

/// The script that configures so many sessions, each on a connection of its own, and so many libraries.
pub fn script(alloc: Global, sessions: u32, libraries: u8) -> Result<String, anyhow::Error> {
    let mut text = format!(in alloc;
        "libraries {libraries}\nconnections {sessions}\noption lane 16\n"
    )?;
    for session in 0..sessions {
        let name = name_of(alloc, session)?;
        let line = format!(in alloc; "session GATE {name}\n")?;
        text.push_str(line.as_str())?;
    }
    Ok(text)
}

// Puts the frame of a counterparty's message behind the input.
fn put(
    alloc: Global,
    input: &mut Vec<u8>,
    name: &str,
    kind: &str,
    number: u64,
    rest: &str,
) -> Result<(), anyhow::Error> {
    let body = format!(in alloc;
        "35={kind}\x0149={name}\x0156=GATE\x0134={number}\x0152=20260105-09:30:00.000\x01{rest}"
    )?;
    let head = format!(in alloc; "8=FIX.4.4\x019={}\x01", body.len())?;
    input.extend_from_slice(head.as_bytes())?;
    input.extend_from_slice(body.as_bytes())?;
    let sum = sum(head.as_bytes()).wrapping_add(sum(body.as_bytes()));
    let tail = format!(in alloc; "10={sum:03}\x01")?;
    input.extend_from_slice(tail.as_bytes())?;
    Ok(())
}

// The sum of the bytes modulo 256.
fn sum(bytes: &[u8]) -> u8 {
    let mut sum = 0u8;
    for byte in bytes {
        sum = sum.wrapping_add(*byte);
    }
    sum
}

//! Acts of both sides that belong together, and many of one kind.
use crate::engine::Engine;
use gate_io::NoMemory;
use lease_core::{Command, Why};
use lease_words::Sent;
use library_play::{Application, Seen};
use std::alloc::Global;

/// Why requests are refused.
pub const OWNED: Why = Why::OtherOwner { owner: 2, lease: 4 };

/// What is sent many times.
pub const BODY: &[u8] = b"35=8\x0137=1\x01";

/// Library 1 requests the session from a position on, and polls that it was granted. The lease is
/// answered, from which the cursor goes on.
pub fn hold(engine: &mut Engine, library: &mut Application, from: u64) -> Option<u32> {
    let nr = library.request(0, from).ok()?;
    if engine.command() != Some(Command::Request { nr, s: 0, from }) {
        return None;
    }
    let lease = engine.grant(1)?;
    if !engine.point(lease, from) || !engine.tell_granted(nr, 0, lease, from) {
        return None;
    }
    match library.poll() {
        Seen::Granted { lease: granted, .. } if granted == lease => Some(lease),
        _ => None,
    }
}

// Makes this request, refuses it, and says whether the library polls that. The command stays in
// its ring.
fn is_refused(engine: &mut Engine, library: &mut Application, nr: u32) -> bool {
    let refused = Seen::Refused {
        nr,
        s: 0,
        why: OWNED,
    };
    library.request(0, 0) == Ok(nr)
        && engine.tell_refused(nr, 0, OWNED)
        && library.poll() == refused
        && library.asking().is_none()
}

/// Whether the requests of the numbers from 1 to this one are made, and refused.
pub fn requests(engine: &mut Engine, library: &mut Application, count: u32) -> bool {
    for nr in 1..=count {
        if !is_refused(engine, library, nr) {
            return false;
        }
    }
    true
}

/// Tells so many times that all is done, and says whether there was room.
pub fn dones(library: &mut Application, count: u32) -> bool {
    for _ in 0..count {
        if library.done(false).is_err() {
            return false;
        }
    }
    true
}

/// Sends so many times, and says whether each was the next send of lease 1.
pub fn sends(alloc: Global, library: &mut Application, count: u32) -> Result<bool, NoMemory> {
    for before in 0..count {
        let sent = Sent {
            lease: 1,
            ordinal: before + 1,
        };
        if library.send(alloc, 0, BODY)? != Some(Ok(sent)) {
            return Ok(false);
        }
    }
    Ok(true)
}

/// A body that may be sent, of so many bytes. At least 9 of them are there.
pub fn long_body(alloc: Global, length: usize) -> Result<Vec<u8>, NoMemory> {
    let mut body = Vec::from_slice(alloc, b"35=8\x0158=")?;
    for _ in 9..length {
        body.push(b'x')?;
    }
    body.push(b'\x01')?;
    Ok(body)
}

/// So many messages arrive, each with its position, and are published. It says whether the log has
/// that position for them.
pub fn arrivals(alloc: Global, engine: &mut Engine, count: u64) -> Result<bool, NoMemory> {
    for _ in 0..count {
        let pos = engine.log().len();
        let body = format!(in alloc; "35=8\x0137={pos}\x01")?;
        if engine.arrive(alloc, body.as_bytes())? != pos {
            return Ok(false);
        }
    }
    engine.publish();
    Ok(true)
}

/// Whether two pumps push so many messages whole, of which the first may find no memory after some.
pub fn pump_twice(alloc: Global, engine: &mut Engine, count: u64) -> Result<bool, NoMemory> {
    let before = engine.cursor().at;
    let is_whole = engine.pump(alloc).is_ok();
    let done = engine.cursor().at.saturating_sub(before);
    let second = engine.pump(alloc)?;
    let left = count.saturating_sub(done);
    Ok(is_whole == (left == 0) && second.pushed == left)
}

/// Whether the log's messages of these positions are polled in order by lease 1, and then nothing.
pub fn reads(engine: &Engine, library: &mut Application, first: u64, end: u64) -> bool {
    for pos in first..end {
        let message = Seen::Message {
            s: 0,
            lease: 1,
            pos,
        };
        if library.poll() != message || engine.log().body(pos) != Some(library.bytes()) {
            return false;
        }
    }
    library.poll() == Seen::Nothing
}

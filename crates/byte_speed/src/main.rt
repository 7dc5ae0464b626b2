//! Cuts a stream of bytes into frames, and reads the fields of their bodies.
//!
//! Without words it does so with a small stream of its own, and prints what it found. With the words
//! `cut FILE PIECE` or `read FILE PIECE` it takes the stream from a file, feeds it in pieces of so
//! many bytes, from 1 to 4,096, reads the fields only for `read`, and prints how many nanoseconds
//! that took before what it found.
//!
//! Stands on `fix_frame` (the cut) and `fix_fields` (the fields), which are measured, `gate_io` (a file that is
//! read whole) and `anyhow` (errors). Told in docs/measuring.md.
#![tactic(auto)]

ghost use Rattle.std.specs.Prelude.{◌<◌, ◌≤◌, IfSome, OnOk};
ghost use Rattle.fix_frame.specs.Cutting.{free};

use anyhow::bail;
use fix_fields::{FieldError, Fields};
use fix_frame::{Cutter, LEAST_ROOM, LONGEST_FRAME, Piece};
use gate_io::{FileSource, NoMemory, read_all};
use std::alloc::Global;
use std::time::Instant;
use std::{env, fmt};

/// The longest stream, in bytes.
const LONGEST_STREAM: usize = 1_073_741_824;

/// What was found in a stream.
#[derive(Clone, Copy, Debug, PartialEq, Eq)]
struct Found {
    good: u64,
    garbled: u64,
    fields: u64,
    faults: u64,
}

impl fmt::Display for Found {
    fn fmt<W: fmt::Write>(&self, f: &mut fmt::Formatter<W>) -> fmt::Result {
        let Found {
            good,
            garbled,
            fields,
            faults,
        } = *self;
        write!(
            f,
            "good {good} garbled {garbled} fields {fields} faults {faults}"
        )
    }
}

/// Cuts the bytes, fed in pieces, and reads the fields of the good bodies where that is asked.
fn find(alloc: Global, bytes: &[u8], piece: usize, reading: bool) -> Result<Found, NoMemory>
    requires least { 0 < piece }
    requires most { piece ≤ LEAST_ROOM }
{
    let mut cutter = Cutter::new(alloc, LONGEST_FRAME)?;
    let mut found = Found {
        good: 0,
        garbled: 0,
        fields: 0,
        faults: 0,
    };
    let mut rest = bytes;
    while !rest.is_empty() {
        let (now, later) = rest.split_at(piece.min(rest.len()));
        cutter.feed(now);
        take_pieces(alloc, &mut cutter, &mut found, reading)?;
        rest = later;
    }
    Ok(found)
}

/// Takes each whole piece that the cutter has.
fn take_pieces(
    alloc: Global,
    cutter: &mut Cutter,
    found: &mut Found,
    reading: bool,
) -> Result<(), NoMemory>
    ensures { OnOk result (LEAST_ROOM ≤ free cutter.new) }
{
    while let Some(piece) = cutter.next() {
        match piece {
            Piece::Garbled { length } => {
                found.garbled = found.garbled.saturating_add(length as u64);
            }
            Piece::Good(body) => {
                found.good = found.good.saturating_add(1);
                if reading {
                    read_fields(alloc, body, found)?;
                }
            }
        }
    }
    Ok(())
}

/// Reads the fields of a body.
fn read_fields(alloc: Global, body: &[u8], found: &mut Found) -> Result<(), NoMemory> {
    match Fields::read(alloc, body) {
        Ok(fields) => found.fields = found.fields.saturating_add(fields.len() as u64),
        Err(FieldError::OutOfMemory) => return Err(NoMemory::OutOfMemory),
        Err(_) => found.faults = found.faults.saturating_add(1),
    }
    Ok(())
}

/// A small stream: frames, and a stray byte behind every second one.
fn sample(alloc: Global) -> Result<Vec<u8>, anyhow::Error> {
    let frame =
        b"8=FIX.4.4\x019=58\x0135=D\x0149=BUYER\x0156=GATE\x0134=2\x0152=20260105-09:30:00.000\x0111=A1\x0110=148\x01";
    let mut stream = Vec::new(alloc);
    for k in 0..1000 {
        stream.extend_from_slice(frame)?;
        if k % 2 == 0 {
            stream.push(b'8')?;
        }
    }
    Ok(stream)
}

/// A piece's length in its range.
fn piece_of(word: &str) -> Option<usize>
    ensures { IfSome result (λ piece. (0 < piece) × (piece ≤ LEAST_ROOM)) }
{
    let piece = word.parse::<usize>().ok()?;
    if piece > 0 && piece <= LEAST_ROOM {
        Some(piece)
    } else {
        None
    }
}

/// Measures the stream of a file.
fn measure(rt: &HostRuntime, words: &[String]) -> Result<(), anyhow::Error> {
    let alloc = rt.alloc();
    let [mode, path, piece] = words else {
        bail!("wanted: cut FILE PIECE | read FILE PIECE");
    };
    let reading = mode.as_str() == "read";
    let Some(piece) = piece_of(piece.as_str()) else {
        bail!("a piece has 1 to {LEAST_ROOM} bytes");
    };
    let mut source = FileSource::new(*rt, String::from_str(alloc, path.as_str())?);
    let bytes = read_all(alloc, &mut source, LONGEST_STREAM)?;
    let start = Instant::now(rt)?;
    let found = find(alloc, bytes.as_slice(), piece, reading)?;
    let taken = start.elapsed(rt)?;
    println!(rt; "{} {found}", taken.as_nanos())?;
    Ok(())
}

fn main(rt: HostRuntime) -> Result<(), anyhow::Error> {
    let alloc = rt.alloc();
    let mut args = env::args(&rt)?;
    let _program = args.next();
    let words: Vec<String> = args.collect(alloc)?;
    if !words.is_empty() {
        return measure(&rt, words.as_slice());
    }
    let stream = sample(alloc)?;
    let found = find(alloc, stream.as_slice(), 100, true)?;
    println!(rt; "{found}")?;
    Ok(())
}

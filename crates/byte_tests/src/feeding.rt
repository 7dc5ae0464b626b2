//! The pieces of bytes that come in parts, by a `Cutter`.

ghost use Rattle.std.specs.Prelude.{◌≡◌, ◌≤◌, ◌++◌, [], List, ℕ, IfOk, OnOk, length, map, take, vec_len};
ghost use Rattle.byte_tests.specs.Parts.{bytes_in, kept, pieces_in};
ghost use Rattle.fix_frame.specs.Cut.{CutPiece, IsCutSoFar, cut};
ghost use Rattle.fix_frame.specs.Cutting.{free, lent_piece};

use fix_frame::{Cutter, LEAST_LIMIT, LEAST_ROOM, LONGEST_FRAME, Piece};
use gate_io::{Bytes, NoMemory};
use std::alloc::Global;

/// A piece that keeps its bytes.
#[derive(Debug, Drop)]
pub enum OwnedPiece {
    /// The body of a frame whose checksum is right.
    Good(Bytes),
    /// So many bytes that belong to no frame.
    Garbled { length: usize },
}

/// The pieces of bytes that come in parts: for each part those that are whole once it has come.
/// Whatever the parts are, after each of them just the pieces of the bytes so far were given.
pub fn cut_parts(
    alloc: Global,
    limit: usize,
    parts: &[Vec<u8>],
) -> Result<Vec<Vec<OwnedPiece>>, NoMemory>
    requires least { LEAST_LIMIT ≤ limit }
    requires most { limit ≤ LONGEST_FRAME }
    ensures each { IfOk result (λ given. vec_len given ≡ length parts.now) }
    ensures pieces { IfOk result (λ given. (k : ℕ) → k ≤ length parts.now →
        pieces_in (take k given.items) ≡ (cut limit (bytes_in (take k parts.now))).pieces) }
{
    let mut cutter = Cutter::new(alloc, limit)?;
    let mut given = Vec::new(alloc);
    for part in parts {
        given.push(cut_part(alloc, &mut cutter, part)?)?;
    }
    Ok(given)
}

/// The pieces that are whole once a part of any length has come.
fn cut_part(alloc: Global, cutter: &mut Cutter, part: &[u8]) -> Result<Vec<OwnedPiece>, NoMemory>
    requires { LEAST_ROOM ≤ free cutter.old }
    ensures limit { cutter.new.limit ≡ cutter.old.limit }
    ensures room { OnOk result (LEAST_ROOM ≤ free cutter.new) }
    ensures all { OnOk result ((cut cutter.old.limit cutter.old.held).pieces ≡ [] → (cut cutter.new.limit cutter.new.held).pieces ≡ []) }
    ensures so_far { IfOk result (λ given. (text : List ℕ) (before : List CutPiece) → IsCutSoFar cutter.old.limit text before cutter.old.held
        → IsCutSoFar cutter.new.limit (text ++ part.now) (before ++ map kept given.items) cutter.new.held) }
{
    let mut given = Vec::new(alloc);
    let mut from = 0;
    while from < part.len() {
        let count = LEAST_ROOM.min(part.len() - from);
        cutter.feed(&part[from..from + count]);
        drain(alloc, cutter, &mut given)?;
        from += count;
    }
    Ok(given)
}

/// Adds the pieces that are whole now.
fn drain(alloc: Global, cutter: &mut Cutter, given: &mut Vec<OwnedPiece>) -> Result<(), NoMemory>
    ensures limit { cutter.new.limit ≡ cutter.old.limit }
    ensures room { OnOk result (LEAST_ROOM ≤ free cutter.new) }
    ensures all { OnOk result ((cut cutter.new.limit cutter.new.held).pieces ≡ []) }
    ensures so_far { OnOk result ((text : List ℕ) (before : List CutPiece) → IsCutSoFar cutter.old.limit text (before ++ map kept given.old.items) cutter.old.held
        → IsCutSoFar cutter.new.limit text (before ++ map kept given.new.items) cutter.new.held) }
{
    while let Some(piece) = cutter.next() {
        given.push(owned(alloc, piece)?)?;
    }
    Ok(())
}

/// The piece with bytes of its own.
fn owned(alloc: Global, piece: Piece) -> Result<OwnedPiece, NoMemory>
    ensures { IfOk result (λ copy. kept copy ≡ lent_piece piece.entry) }
{
    match piece {
        Piece::Good(body) => Ok(OwnedPiece::Good(Bytes::of(Vec::from_slice(alloc, body)?))),
        Piece::Garbled { length } => Ok(OwnedPiece::Garbled { length }),
    }
}

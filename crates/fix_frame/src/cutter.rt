//! Cutting the bytes of a connection into frames.

ghost use Rattle.std.specs.Prelude.{◌≡◌, ◌≤◌, ◌↔◌, ◌+◌, [], ◌∷◌, ◌++◌, List, ℕ, IfOk, OnErr, IfNone, IfSome, IsNone, MatchOption, length, option_map, vec_capacity};
ghost use Rattle.std.specs.Borrow.{sem};
ghost use Rattle.fix_frame.specs.Frame.{IsCheckField, number_of};
ghost use Rattle.fix_frame.specs.Cut.{CutPiece, IsCutSoFar, IsPiece, TakesPiece, cut, good, piece_at, piece_of};
ghost use Rattle.fix_frame.specs.Look.{IsStretchText};
ghost use Rattle.fix_frame.specs.Cutting.{free, lent_piece};
ghost use Rattle.fix_frame.specs.Loans.{GivesNext};
ghost use Rattle.fix_frame.specs.Owned.{cut_piece};

use crate::layout::{BODY_END, LEAST_LIMIT, LEAST_ROOM, LONGEST_FRAME, TRAILER, checksum};
use crate::look::{Front, front_of};
use crate::ring::Ring;
use gate_io::NoMemory;
use std::alloc::Global;
use std::marker::Model;

/// A piece of the bytes of a connection.
#[derive(Clone, Copy, Debug, PartialEq, Eq)]
pub enum Piece<'a> {
    /// A frame whose checksum is right: its body, from `35=` up to and including the byte that
    /// ends the field before `10=`.
    Good(&'a [u8]),
    /// So many bytes that belong to no frame: a stretch with the form of a frame whose checksum is
    /// wrong, or a single byte with which no frame begins.
    Garbled { length: usize },
}

/// The same in memory of its own.
#[derive(Debug, Drop)]
pub enum OwnedPiece {
    /// The body of a frame whose checksum is right.
    Good(Vec<u8>),
    /// So many bytes that belong to no frame.
    Garbled { length: usize },
}

/// Cuts the bytes of one connection, which come in pieces of any size, into frames and garbled
/// bytes, in order.
///
/// It holds at most `LEAST_ROOM` bytes more than its limit, in one buffer, which is made by `new`. A
/// call of `next` takes constant time, but for two things. A whole stretch with the form of a frame
/// is summed, so each byte is summed at most once. And where such a stretch goes past the buffer's
/// end, the whole buffer is turned, so that the stretch lies in one slice: only then bytes that are
/// held move, and at least `LEAST_ROOM` bytes have gone since the turn before.
#[derive(Drop)]
pub struct Cutter {
    limit: usize,
    ring: Ring,
    /// Nothing is found before so many bytes are held.
    quiet: usize,
}

impl Model for Cutter {
    ghost use Rattle.fix_frame.specs.Cutting.{Cutting};

    ghost Value = { Cutting };

    ghost use Rattle.fix_frame.specs.Inside.{IsCutter};

    ghost view = { λ c. record { limit = c.limit; held = c.ring.bytes } };

    ghost invariant = { IsCutter };
}

impl Cutter {
    /// A cutter of frames of at most `limit` bytes that holds nothing. The limit is from `LEAST_LIMIT`
    /// to `LONGEST_FRAME`.
    pub fn new(alloc: Global, limit: usize) -> Result<Cutter, NoMemory>
        requires least { LEAST_LIMIT ≤ limit }
        requires most { limit ≤ LONGEST_FRAME }
        ensures empty { IfOk result (λ cutter. cutter ≡ record { limit = limit; held = [] }) }
        // Nothing is cut so far.
        ensures so_far { IfOk result (λ cutter. IsCutSoFar cutter.limit [] [] cutter.held) }
    {
        Ok(Cutter {
            limit,
            ring: Ring::new(alloc, limit + LEAST_ROOM)?,
            quiet: 0,
        })
    }

    /// How many bytes `feed` takes now.
    pub fn room(&self) -> usize
        ensures room { result ≡ free self.now }
        ensures bound { length self.now.held ≤ self.now.limit + LEAST_ROOM }
    {
        self.ring.room()
    }

    /// Takes the next bytes of the connection.
    pub fn feed(&mut self, piece: &[u8])
        requires { length piece.now ≤ free self.old }
        ensures held { self.new ≡ record { limit = self.old.limit; held = self.old.held ++ piece.now } }
        // What was given so far is what was to be given before these bytes came.
        ensures so_far { (text : List ℕ) (given : List CutPiece) → IsCutSoFar self.old.limit text given self.old.held
            → IsCutSoFar self.new.limit (text ++ piece.now) given self.new.held }
    {
        self.ring.append(piece);
    }

    /// The next piece of the bytes, or None where more bytes are wanted.
    pub fn next(&mut self) -> Option<Piece<'_>>
        // What stands at the beginning of the bytes that are held.
        ensures piece { option_map lent_piece result ≡ option_map (λ found. found.piece) (piece_at self.old.limit self.old.held) }
        ensures none { IsNone result ↔ ((cut self.old.limit self.old.held).pieces ≡ []) }
        ensures room { IfNone result (LEAST_ROOM ≤ free self.old) }
        ensures lawful { IfSome result (λ piece. IsPiece self.old.limit (lent_piece piece)) }
        // The piece has gone, and what was given so far goes on with it; where there is none nothing changed.
        ensures* after_loan { sem 𝓛 (GivesNext self.entry result) }
    {
        let held = self.ring.held();
        if held.len() < self.quiet {
            return None;
        }
        match front_of(self.limit, &held) {
            Front::Rest { quiet } => {
                self.quiet = quiet;
                None
            }
            Front::Stray => {
                self.quiet = 0;
                self.ring.skip(1);
                Some(Piece::Garbled { length: 1 })
            }
            Front::Shaped { body, length } => {
                self.quiet = 0;
                Some(piece_of(self.ring.take(length), body))
            }
        }
    }

    /// The same, where the body of a good piece is copied to memory of its own. Without memory nothing
    /// changed.
    pub fn take_next(&mut self, alloc: Global) -> Result<Option<OwnedPiece>, NoMemory>
        ensures piece { IfOk result (λ given. option_map cut_piece given ≡ option_map (λ found. found.piece) (piece_at self.old.limit self.old.held)) }
        ensures none { IfOk result (λ given. IsNone given ↔ ((cut self.old.limit self.old.held).pieces ≡ [])) }
        ensures room { IfOk result (λ given. IfNone given (LEAST_ROOM ≤ free self.new)) }
        ensures lawful { IfOk result (λ given. IfSome given (λ piece. IsPiece self.old.limit (cut_piece piece))) }
        // The piece has gone; where there is none nothing changed.
        ensures limit { self.new.limit ≡ self.old.limit }
        ensures held { IfOk result (λ given. MatchOption given (self.new.held ≡ self.old.held)
            (λ piece. TakesPiece self.old.limit self.old.held (cut_piece piece) self.new.held)) }
        // What was given so far goes on with the piece; where there is none it is all.
        ensures so_far { (text : List ℕ) (before : List CutPiece) → IsCutSoFar self.old.limit text before self.old.held
            → IfOk result (λ given. MatchOption given ((cut self.old.limit text).pieces ≡ before)
            (λ piece. IsCutSoFar self.old.limit text (before ++ cut_piece piece ∷ []) self.new.held)) }
        ensures err { OnErr result (self.new ≡ self.old) }
    {
        let bytes = self.ring.held();
        if self.quiet > bytes.len() {
            return Ok(None);
        }
        match front_of(self.limit, &bytes) {
            Front::Rest { quiet } => {
                self.quiet = quiet;
                Ok(None)
            }
            Front::Stray => {
                self.quiet = 0;
                self.ring.skip(1);
                Ok(Some(OwnedPiece::Garbled { length: 1 }))
            }
            Front::Shaped { body, length } => {
                let room = Vec::with_capacity(alloc, length - body - TRAILER)?;
                self.quiet = 0;
                Ok(Some(owned(piece_of(self.ring.take(length), body), room)))
            }
        }
    }
}

/// The piece in memory of its own: an empty vector, which has room for its body.
fn owned(piece: Piece<'_>, mut room: Vec<u8>) -> OwnedPiece
    requires empty { room.items ≡ [] }
    requires fits { (body : List ℕ) → lent_piece piece ≡ good body → length body ≤ vec_capacity room }
    ensures { cut_piece result ≡ lent_piece piece.entry }
{
    match piece {
        Piece::Good(body) => {
            room.extend_from_slice(body).unwrap();
            OwnedPiece::Good(room)
        }
        Piece::Garbled { length } => OwnedPiece::Garbled { length },
    }
}

/// The piece that a stretch with the form of a frame is, whose body begins at `start`.
pub(crate) fn piece_of(stretch: &[u8], start: usize) -> Piece<'_>
    requires { (field : List ℕ) × (body : List ℕ) × (digits : List ℕ) × IsStretchText stretch.now start field body digits }
    ensures { (field body digits : List ℕ) → IsStretchText stretch.now start field body digits → lent_piece result ≡ piece_of field body digits }
{
    let end = stretch.len() - TRAILER;
    let digits = end + BODY_END.len() - 1;
    if written_sum(&stretch[digits..digits + 3]) == checksum(&stretch[..end]) as usize {
        Piece::Good(&stretch[start..end])
    } else {
        Piece::Garbled {
            length: stretch.len(),
        }
    }
}

/// The value of three digits.
fn written_sum(digits: &[u8]) -> usize
    requires { IsCheckField digits.now }
    ensures { result ≡ number_of digits.now }
{
    100 * (digits[0] - b'0') as usize
        + 10 * (digits[1] - b'0') as usize
        + (digits[2] - b'0') as usize
}

//! The buffer of a `Cutter`: bytes that come at one end and go at the other.

ghost use Rattle.std.specs.Prelude.{◌≡◌, ◌+◌, ◌-◌, ◌≤◌, [], ◌++◌, IfOk, length, take, drop, vec_len};
ghost use Rattle.std.specs.Borrow.{sem};
ghost use Rattle.fix_frame.specs.Store.{in_ring};
ghost use Rattle.fix_frame.specs.Ring.{LendsFront};

use crate::two_slices::TwoSlices;
use gate_io::NoMemory;
use std::alloc::Global;
use std::marker::Model;

/// Bytes in order in a buffer of fixed size. They begin at `start`, and go on at the buffer's
/// beginning where they come to its end.
#[derive(Drop)]
pub(crate) struct Ring {
    buffer: Vec<u8>,
    start: usize,
    length: usize,
}

impl Model for Ring {
    ghost use Rattle.std.specs.Prelude.{◌≤◌, vec_len};
    ghost use Rattle.fix_frame.specs.Store.{Store, in_ring};

    ghost Value = { Store };

    ghost view = { λ r. record { room = vec_len r.buffer; bytes = in_ring r.start r.length r.buffer.items } };

    ghost invariant = { λ r. (r.start ≤ vec_len r.buffer) × (r.length ≤ vec_len r.buffer) };
}

impl Ring {
    pub(crate) fn new(alloc: Global, capacity: usize) -> Result<Ring, NoMemory>
        ensures { IfOk result (λ ring. ring ≡ record { room = capacity; bytes = [] }) }
    {
        Ok(Ring {
            buffer: vec![in alloc; 0u8; capacity]?,
            start: 0,
            length: 0,
        })
    }

    /// How many more bytes fit.
    pub(crate) fn room(&self) -> usize
        ensures { result + length self.now.bytes ≡ self.now.room }
    {
        self.buffer.len() - self.length
    }

    /// The bytes.
    pub(crate) fn held(&self) -> TwoSlices<'_>
        ensures { result ≡ self.now.bytes }
    {
        let size = self.buffer.len();
        if self.length <= size - self.start {
            TwoSlices::new(&self.buffer[self.start..self.start + self.length], &[])
        } else {
            let back = self.length - (size - self.start);
            TwoSlices::new(&self.buffer[self.start..], &self.buffer[..back])
        }
    }

    /// Puts the piece behind the bytes.
    pub(crate) fn append(&mut self, piece: &[u8])
        requires { length self.old.bytes + length piece.now ≤ self.old.room }
        ensures { self.new ≡ record { room = self.old.room; bytes = self.old.bytes ++ piece.now } }
    {
        put(&mut self.buffer, self.start, self.length, piece);
        self.length += piece.len();
    }

    /// Lets the first `count` bytes go.
    pub(crate) fn skip(&mut self, count: usize)
        requires { count ≤ length self.old.bytes }
        ensures { self.new ≡ record { room = self.old.room; bytes = drop count self.old.bytes } }
    {
        let to_end = self.buffer.len() - self.start;
        self.length -= count;
        if self.length == 0 {
            self.start = 0;
        } else if count < to_end {
            self.start += count;
        } else {
            self.start = count - to_end;
        }
    }

    /// Lets the first `count` bytes go, and lends them in one slice. Where they go past the
    /// buffer's end the whole buffer is turned before, and else nothing moves.
    pub(crate) fn take(&mut self, count: usize) -> &[u8]
        requires { count ≤ length self.old.bytes }
        ensures value { result.now ≡ take count self.old.bytes }
        ensures* after_loan { sem 𝓛 (LendsFront self.entry count) }
    {
        let start = straighten(&mut self.buffer, self.start, self.length, count);
        self.length -= count;
        self.start = if self.length == 0 { 0 } else { start + count };
        &self.buffer[start..start + count]
    }
}

/// Puts the piece behind the `held` bytes that begin at `start`.
fn put(buffer: &mut [u8], start: usize, held: usize, piece: &[u8])
    requires start { start ≤ length buffer.old }
    requires room { held + length piece.now ≤ length buffer.old }
    ensures { in_ring start (held + length piece.now) buffer.new ≡ in_ring start held buffer.old ++ piece.now }
{
    let to_end = buffer.len() - start;
    if held >= to_end {
        write_at(buffer, held - to_end, piece);
    } else if piece.len() <= to_end - held {
        write_at(buffer, start + held, piece);
    } else {
        let split = to_end - held;
        write_at(buffer, start + held, &piece[..split]);
        write_at(buffer, 0, &piece[split..]);
    }
}

/// Writes the piece over the bytes from `at` on.
fn write_at(buffer: &mut [u8], at: usize, piece: &[u8])
    requires { at + length piece.now ≤ length buffer.old }
    ensures { buffer.new ≡ take at buffer.old ++ (piece.now ++ drop (at + length piece.now) buffer.old) }
{
    buffer[at..at + piece.len()].copy_from_slice(piece);
}

/// Turns the buffer where the first `count` of the `held` bytes that begin at `start` go past its
/// end, so that they begin at its front, and gives the place where they begin then.
fn straighten(buffer: &mut Vec<u8>, start: usize, held: usize, count: usize) -> usize
    requires start { start ≤ vec_len buffer.old }
    requires held { held ≤ vec_len buffer.old }
    requires count { count ≤ held }
    ensures same { in_ring result held buffer.new.items ≡ in_ring start held buffer.old.items }
    ensures straight { result + count ≤ vec_len buffer.new }
    ensures size { vec_len buffer.new ≡ vec_len buffer.old }
{
    if count <= buffer.len() - start {
        return start;
    }
    buffer.rotate_left(start);
    0
}

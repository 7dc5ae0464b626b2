//! Bytes in order that lie in two slices.

ghost use Rattle.std.specs.Prelude.{◌≡◌, ◌+◌, ◌^◌, ◌<◌, ◌++◌, IsTrue, drop, length, slice_index, take};

use std::marker::Model;

/// Bytes that lie in two slices, the front before the back.
#[derive(Drop)]
pub(crate) struct TwoSlices<'a> {
    front: &'a [u8],
    back: &'a [u8],
}

impl<'a> Model for TwoSlices<'a> {
    ghost use Rattle.std.specs.Prelude.{List, ℕ, ◌++◌};

    ghost Value = { List ℕ };

    ghost view = { λ s. s.front.now ++ s.back.now };
}

impl<'a> TwoSlices<'a> {
    pub(crate) fn new(front: &'a [u8], back: &'a [u8]) -> TwoSlices<'a>
        ensures { result ≡ front.now ++ back.now }
    {
        TwoSlices { front, back }
    }

    pub(crate) fn len(&self) -> usize
        ensures { result ≡ length self.now }
    {
        self.front.len() + self.back.len()
    }

    pub(crate) fn at(&self, i: usize) -> u8
        requires { i < length self.now }
        ensures { result ≡ slice_index self.now i }
    {
        if i < self.front.len() {
            self.front[i]
        } else {
            self.back[i - self.front.len()]
        }
    }

    /// Whether the front has this text from `at` on.
    pub(crate) fn has_in_front(&self, at: usize, text: &[u8]) -> bool
        requires { at + length text.now < 2 ^ 64 }
        ensures { IsTrue result → take (length text.now) (drop at self.now) ≡ text.now }
    {
        at + text.len() <= self.front.len() && self.front[at..at + text.len()] == text[..]
    }
}

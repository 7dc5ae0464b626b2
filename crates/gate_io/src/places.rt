//! A scripted place in what is written to a connection.

ghost use Rattle.std.specs.Prelude.{◌≡◌, ◌≤◌, None, Some, if◌then◌else◌};
ghost use Rattle.gate_io.specs.Plan.{count_before, is_reached, place_after};

use std::marker::Model;

/// A scripted place in what is written to a connection, if there is one. Contracts see how many
/// bytes are written before it.
#[derive(Debug, Drop)]
pub struct Place {
    after: Option<u64>,
}

impl Model for Place {
    ghost use Rattle.std.specs.Prelude.{ℕ, Option};

    ghost Value = { Option ℕ };

    ghost view = { λ p. p.after };
}

impl Place {
    pub fn nowhere() -> Place
        ensures { result ≡ None }
    {
        Place { after: None }
    }

    /// The place behind so many more bytes.
    pub fn behind(after: u64) -> Place
        ensures { result ≡ Some after }
    {
        Place { after: Some(after) }
    }

    pub fn is_reached(&self) -> bool
        ensures { result ≡ is_reached self.now }
    {
        self.after == Some(0)
    }

    /// As many of so many bytes as stand before the place.
    pub fn count_before(&self, len: usize) -> usize
        ensures { result ≡ count_before self.now len }
    {
        match self.after {
            Some(after) if after < len as u64 => after as usize,
            _ => len,
        }
    }

    /// So many bytes were written.
    pub fn pass(&mut self, n: usize)
        ensures { self.new ≡ place_after n self.old }
    {
        if let Some(after) = self.after {
            self.after = Some(after.saturating_sub(n as u64));
        }
    }

    /// The place is left behind, where it is reached.
    pub fn meet(&mut self)
        ensures { self.new ≡ (if is_reached self.old then None else self.old) }
    {
        if self.is_reached() {
            self.after = None;
        }
    }
}

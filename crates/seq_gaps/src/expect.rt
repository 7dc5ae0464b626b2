//! The number line: what is expected next, what is held, and which gap was named.

ghost use Rattle.std.specs.Prelude.{◌≡◌, ℕ, ◌+◌, ◌<◌, ◌≤◌, ◌↔◌, ◌⊎◌, IfOk, IsSome, IsNone, Option, None, Some};
ghost use Rattle.std.specs.FinMap as map;
ghost use Rattle.seq_gaps.specs.Line.{IsNumber, IsLine, IsHeld, IsNotHeld, fresh_line, after_fill, after_taking, after_clear};
ghost use Rattle.seq_gaps.specs.Offers.{answer_to_offer, after_offer, gap_below, more_held};

use super::held::Held;
use super::{Gap, HELD_LIMIT, MAX_NUMBER, Offered, Place};
use gate_io::NoMemory;
use std::alloc::Global;
use std::marker::Model;

/// The number line: the number that is expected next, the early items that are held by their
/// numbers, and the horizon, the number below which each gap was asked for already.
///
/// It has room for `HELD_LIMIT` early items from the start on, and no call but `new` takes memory.
#[derive(Debug, Drop)]
pub struct Expect<T> {
    expected: u32,
    horizon: u32,
    held: Held<T>,
}

impl<T> Model for Expect<T> {
    ghost use Rattle.seq_gaps.specs.Line.{Line, line_code, IsLine};

    ghost Value = { Line T };

    ghost coded = { line_code T.code };

    ghost view = { λ a. record { expected = a.expected; held = a.held; horizon = a.horizon } };

    ghost invariant = { λ a. IsLine (record { expected = a.expected; held = a.held; horizon = a.horizon }) };
}

impl<T> Expect<T> {
    /// A line that expects number 1, with nothing held.
    pub fn new(alloc: Global) -> Result<Expect<T>, NoMemory>
        ensures line { IfOk result (λ line. line ≡ fresh_line) }
        ensures held { IfOk result (λ line. map.len line.held ≡ 0) }
    {
        Ok(Expect {
            expected: 1,
            horizon: 0,
            held: Held::new(alloc)?,
        })
    }

    /// The number that is expected next, from 1 to one more than `MAX_NUMBER`.
    pub fn next_number(&self) -> u32
        ensures number { result ≡ self.now.expected }
        ensures line { IsLine self.now }
    {
        self.expected
    }

    /// Offers the item that came with number n, which is from 1 to `MAX_NUMBER`. FIX 4.4, volume 2,
    /// "Ordered Message Processing".
    pub fn offer(&mut self, n: u32, item: T) -> Offered<T>
        requires { IsNumber n }

        // The answer and the line behind it, exactly.
        ensures answer { result ≡ answer_to_offer self.old n item }
        ensures line { self.new ≡ after_offer self.old n item }

        // When each place comes.
        ensures now { (result.place ≡ Place.Now item) ↔ ((n ≡ self.old.expected) × IsNotHeld self.old n) }
        ensures held { (result.place ≡ Place.Held) ↔ ((self.old.expected < n) × IsNotHeld self.old n × (map.len self.old.held < HELD_LIMIT)) }
        ensures known { (result.place ≡ Place.Known item) ↔ ((n < self.old.expected) ⊎ IsHeld self.old n) }
        ensures no_room { (result.place ≡ Place.NoRoom item) ↔ ((self.old.expected < n) × IsNotHeld self.old n × (map.len self.old.held ≡ HELD_LIMIT)) }

        // A gap is named only as an item is held: the numbers below it that no gap was asked for yet.
        ensures gap { result.place ≡ Place.Held → result.gap ≡ gap_below self.old n }
        ensures gap_only_held { IsSome result.gap → result.place ≡ Place.Held }

        // One more is held where it is held, and else no more.
        ensures count { map.len self.new.held ≤ map.len self.old.held + more_held result.place }
    {
        if n > self.expected {
            return self.offer_early(n, item);
        }
        if n < self.expected || self.held.first() == Some(n) {
            return Offered {
                place: Place::Known(item),
                gap: None,
            };
        }
        self.expected += 1;
        Offered {
            place: Place::Now(item),
            gap: None,
        }
    }

    fn offer_early(&mut self, n: u32, item: T) -> Offered<T>
        requires number { IsNumber n }
        requires early { self.old.expected < n }
        ensures answer { result ≡ answer_to_offer self.old n item }
        ensures line { self.new ≡ after_offer self.old n item }
        ensures count { map.len self.new.held ≤ map.len self.old.held + more_held result.place }
    {
        let gap = self.gap_below(n);
        let place = self.held.hold(n, item);
        match place {
            Place::Held => {
                self.horizon = self.horizon.max(n);
                Offered { place, gap }
            }
            Place::Now(_) | Place::Known(_) | Place::NoRoom(_) => Offered { place, gap: None },
        }
    }

    /// The numbers below n that are missing and that no gap was named for.
    fn gap_below(&self, n: u32) -> Option<Gap>
        ensures { result ≡ gap_below self.now n }
    {
        let from = self.expected.max(self.horizon + 1);
        if from < n {
            Some(Gap { from, to: n - 1 })
        } else {
            None
        }
    }

    /// Takes the item that is held with the expected number, which is counted then.
    pub fn take_ready(&mut self) -> Option<T>
        ensures item { result ≡ map.get self.old.held self.old.expected }
        ensures line { self.new ≡ after_taking self.old }
        ensures count { IsSome result → map.len self.new.held < map.len self.old.held }
    {
        let item = self.held.take_first(self.expected)?;
        self.expected += 1;
        Some(item)
    }
}

impl<T: Drop> Expect<T> {
    /// Counts the numbers below `to` as a whole, as a gap fill or a reset says, and drops what is
    /// held of them. `to` is from the expected number to one more than `MAX_NUMBER`. What is held
    /// from it on stays, and so does the horizon.
    pub fn fill(&mut self, to: u32)
        requires forward { self.old.expected ≤ to }
        requires to_end { to ≤ MAX_NUMBER + 1 }
        ensures line { self.new ≡ after_fill self.old to }
        ensures count { map.len self.new.held ≤ map.len self.old.held }
    {
        self.held.drop_below(to);
        self.expected = to;
    }

    /// Drops what is held, as the connection ended. The expected number stays, and gaps are asked
    /// for anew.
    pub fn clear(&mut self)
        ensures line { self.new ≡ after_clear self.old }
        ensures count { map.len self.new.held ≡ 0 }
    {
        self.held.clear();
        self.horizon = 0;
    }

    /// Begins again at number 1 with nothing held, as at a Logon with ResetSeqNumFlag (141) of Y.
    pub fn restart(&mut self)
        ensures line { self.new ≡ fresh_line }
        ensures count { map.len self.new.held ≡ 0 }
    {
        self.clear();
        self.expected = 1;
    }
}

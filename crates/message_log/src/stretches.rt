//! Where the stretches of session entries lie.

ghost use Rattle.std.specs.Prelude.{◌≡◌, ℕ, ◌+◌, ◌-◌, ◌*◌, ◌^◌, ◌<◌, ◌≤◌, ◌∷◌, ◌++◌, [], length, IfSome, IfNone, None, MatchOption};
ghost use Rattle.message_log.specs.Stretches.{AreInOrder, AnyCovers, Covers, closed_after, stretch_at};

use crate::shelf::{Shelf, Steps};
use std::alloc::Global;
use std::sync::ledger::Ledger;

/// Session entries with adjoining numbers of a series.
#[derive(Clone, Copy, Debug, PartialEq, Eq)]
pub struct Stretch {
    pub series: u32,
    pub first: u64,
    pub last: u64,
}

/// The stretches of session entries of a log.
#[derive(Debug, Drop)]
pub(crate) struct Stretches {
    pub(crate) closed: Shelf<Stretch>,
    // the first number of the stretch at the log's end
    pub(crate) growing: Option<u64>,
}

impl Stretches {
    pub(crate) fn new(alloc: Global) -> Stretches
        ensures closed { result.closed.items ≡ [] }
        ensures growing { result.growing ≡ None }
    {
        Stretches {
            closed: Shelf::new(alloc),
            growing: None,
        }
    }

    /// Closes the stretch at the log's end, if there is one.
    pub(crate) fn close(&mut self, series: u32, last: u64)
        requires { 0 < self.old.closed.spare }
        ensures closed { self.new.closed.items ≡ closed_after self.old.closed.items self.old.growing series last }
        ensures growing { self.new.growing ≡ None }
        ensures kept { self.old.closed.spare ≤ self.new.closed.spare + 1 }
    {
        if let Some(first) = self.growing {
            let stretch = Stretch {
                series,
                first,
                last,
            };
            self.closed.push(stretch).unwrap();
            self.growing = None;
        }
    }
}

impl Stretches {
    ghost use Rattle.std.specs.Prelude.{◌↔◌, if◌then◌else◌, Some, unwrap_or, IsTrue};
    ghost use Rattle.message_log.specs.Stretches.{GrowsOver};

    /// Whether the number, or one below it, begins the stretch at the end of the present series.
    pub(crate) fn grows_over(&self, present: u32, series: u32, number: u64) -> bool
        ensures { IsTrue result ↔ ((series ≡ present) × GrowsOver self.now.growing number) }
    {
        match self.growing {
            Some(first) => series == present && first <= number,
            None => false,
        }
    }

    /// Notes that a series has one more entry, with this number.
    pub(crate) fn note(&mut self, admin: bool, series: u32, number: u64)
        requires room { 0 < self.old.closed.spare }
        requires from_one { 0 < number }
        ensures closed { self.new.closed.items ≡ (if admin then self.old.closed.items
            else closed_after self.old.closed.items self.old.growing series (number - 1)) }
        ensures growing { self.new.growing ≡ (if admin then Some (unwrap_or self.old.growing number) else None) }
        ensures kept { self.old.closed.spare ≤ self.new.closed.spare + 1 }
    {
        if admin {
            self.growing = Some(self.growing.unwrap_or(number));
        } else {
            self.close(series, number - 1);
        }
    }
}

/// The last number of the stretch that a number is in, by halving.
pub(crate) fn find_end<L: Ledger>(
    stretches: &Shelf<Stretch>,
    series: u32,
    number: u64,
    steps: &mut Steps<L>,
) -> Option<u64>
    requires { AreInOrder stretches.now.items }
    ensures found { IfSome result (λ z. (i : ℕ) × (i < length stretches.now.items)
        × Covers (stretch_at stretches.now.items i) series number × ((stretch_at stretches.now.items i).last ≡ z)) }
    ensures none { IfNone result (AnyCovers stretches.now.items series number → ⊥) }
    ensures forward { steps.old ≤ steps.new }
    ensures cost { 2 ^ (steps.new - steps.old) ≤ 2 * length stretches.now.items + 1 }
{
    let mut low = 0;
    let mut high = stretches.len() as u64;
    while low < high {
        let middle = low + (high - low) / 2;
        let stretch = stretches.read(middle, steps)?;
        if stretch.lies_before(series, number) {
            low = middle + 1;
        } else if stretch.lies_behind(series, number) {
            high = middle;
        } else {
            return Some(stretch.last);
        }
    }
    None
}

impl Stretch {
    ghost use Rattle.message_log.specs.Stretches.{is_before, is_behind};

    fn lies_before(&self, series: u32, number: u64) -> bool
        ensures { result ≡ is_before self.now series number }
    {
        self.series < series || self.series == series && self.last < number
    }

    fn lies_behind(&self, series: u32, number: u64) -> bool
        ensures { result ≡ is_behind self.now series number }
    {
        series < self.series || self.series == series && number < self.first
    }
}

//! The log of numbered messages.

ghost use Rattle.std.specs.Prelude.{◌≡◌, ℕ, ◌+◌, ◌-◌, ◌*◌, ◌^◌, ◌<◌, ◌≤◌, ◌↔◌, ◌⊎◌, [], ◌∷◌, ◌++◌, length, slice_index, sum_by, false, IfOk, OnOk, OnErr, IsOk, IsNone, Some, IfSome, MatchOption};
ghost use Rattle.std.specs.Option.{option_copied};
ghost use Rattle.message_log.specs.Series.{series_at, entry_at, with_entry, IsNoSeries, HasNoNumber};
ghost use Rattle.message_log.specs.Growth.{GoesOn};
ghost use Rattle.message_log.specs.Stretches.{is_session, IsStretchEnd, stretch_count};

use crate::entry::OutEntry;
use crate::pages::Paged;
use crate::shelf::{Shelf, Steps};
use crate::stretches::{Stretches, find_end};
use gate_io::NoMemory;
use std::alloc::Global;
use std::marker::{Brand, Model};
use std::sync::ledger::{Blank, Ledger};

/// The last series that a log can have.
pub const LAST_SERIES: u32 = u32::MAX;

/// The messages that were numbered, in series: a series begins at each reset of the numbers. Contracts
/// see the list of the series, each the list of its entries, and how many more calls of `push` and
/// `turn_over` take no memory.
#[derive(Debug)]
pub struct OutLog {
    // the entries of all series
    entries: Paged<OutEntry>,
    // where each series but the first begins among them
    starts: Shelf<u64>,
    // where the present series begins
    start: u64,
    stretches: Stretches,
}

impl Drop for OutLog {
    fn drop(self) {
        let OutLog {
            entries: _,
            starts: _,
            start: _,
            stretches: _,
        } = self;
    }
}

impl Model for OutLog {
    ghost use Rattle.std.specs.Prelude.{min};
    ghost use Rattle.message_log.specs.declared.entry.OutEntry.{OutEntry};
    ghost use Rattle.message_log.specs.Series.{SeriesLog, series_from};
    ghost use Rattle.message_log.specs.OutLog.{IsOutLog};

    ghost Value = { SeriesLog OutEntry };

    ghost view = { λ l. record { series = series_from 0 l.starts.items l.entries.items; spare = min l.entries.spare (min l.starts.spare l.stretches.closed.spare) } };

    ghost invariant = { λ l. IsOutLog l.entries.items l.starts.items l.start l.stretches.closed.items l.stretches.growing };
}

impl OutLog {
    /// Series 1, with no entry. It takes no memory.
    pub fn new(alloc: Global) -> OutLog
        ensures { result ≡ record { series = [] ∷ []; spare = 0 } }
    {
        OutLog {
            entries: Paged::new(alloc),
            starts: Shelf::new(alloc),
            start: 0,
            stretches: Stretches::new(alloc),
        }
    }

    /// Makes room for n more calls of `push` and `turn_over`.
    pub fn reserve(&mut self, alloc: Global, n: usize) -> Result<(), NoMemory>
        ensures series { self.new.series ≡ self.old.series }
        ensures room { OnOk result (n ≤ self.new.spare) }
        ensures with_room { n ≤ self.old.spare → IsOk result }
        ensures kept { self.old.spare ≤ self.new.spare }
    {
        self.entries.reserve(alloc, n)?;
        self.starts.reserve(n)?;
        self.stretches.closed.reserve(n)
    }

    /// Puts an entry at the end of the present series, and answers its number: its place there, from 1.
    /// With spare places it takes no memory; without memory the entry is dropped.
    pub fn push(&mut self, alloc: Global, entry: OutEntry) -> Result<u64, NoMemory>
        ensures ok { OnOk result (self.new.series ≡ with_entry self.old.series entry) }
        ensures number { IfOk result (λ n. n ≡ length (series_at self.old.series (length self.old.series)) + 1) }
        // The number names the entry in the present series.
        ensures named { IfOk result (λ n. entry_at self.new.series (length self.new.series) n ≡ Some entry) }
        ensures err { OnErr result (self.new.series ≡ self.old.series) }
        ensures goes_on { GoesOn self.old.series self.new.series }
        ensures with_spare { 0 < self.old.spare → IsOk result }
        ensures kept { self.old.spare ≤ self.new.spare + 1 }
    {
        let series = self.starts.len() as u32 + 1;
        let number = self.entries.len() - self.start + 1;
        let admin = entry.admin;
        self.stretches.closed.reserve(1)?;
        self.entries.push(alloc, entry)?;
        self.stretches.note(admin, series, number);
        Ok(number)
    }

    /// Begins the next series, whose numbers start again at 1, and answers which it is. With spare
    /// places it takes no memory.
    pub fn turn_over(&mut self, _alloc: Global) -> Result<u32, NoMemory>
        requires { length self.old.series < LAST_SERIES }
        ensures ok { OnOk result (self.new.series ≡ self.old.series ++ [] ∷ []) }
        ensures series { IfOk result (λ k. k ≡ length self.old.series + 1) }
        ensures err { OnErr result (self.new.series ≡ self.old.series) }
        ensures goes_on { GoesOn self.old.series self.new.series }
        ensures with_spare { 0 < self.old.spare → IsOk result }
        ensures kept { self.old.spare ≤ self.new.spare + 1 }
    {
        let series = self.starts.len() as u32 + 1;
        let end = self.entries.len();
        let last = end - self.start;
        self.stretches.closed.reserve(1)?;
        self.starts.push(end)?;
        self.stretches.close(series, last);
        self.start = end;
        Ok(series + 1)
    }

    /// The present series. The first is 1.
    pub fn series(&self) -> u32
        ensures present { result ≡ length self.now.series }
        ensures from_one { 1 ≤ result }
    {
        self.starts.len() as u32 + 1
    }

    /// How many entries all series have.
    pub fn len(&self) -> u64
        ensures length { result ≡ sum_by (λ entries. length entries) self.now.series }
        ensures few { result ≤ 2 ^ 63 }
    {
        self.entries.len()
    }

    /// How many entries a series has.
    pub fn len_of(&self, series: u32) -> Option<u64>
        ensures length { IfSome result (λ n. n ≡ length (series_at self.now.series series)) }
        ensures few { IfSome result (λ n. n ≤ 2 ^ 63) }
        ensures none { IsNone result ↔ IsNoSeries self.now.series series }
    {
        self.length_in::<Brand>(series, Blank::new(1))
    }

    fn length_in<L: Ledger>(&self, series: u32, blank: Blank) -> Option<u64>
        requires name { blank.name ≡ L.name }
        requires parts { blank.parts ≡ L.parts }
        requires some { 0 < blank.parts }
        ensures length { IfSome result (λ n. n ≡ length (series_at self.now.series series)) }
        ensures few { IfSome result (λ n. n ≤ 2 ^ 63) }
        ensures none { IsNone result ↔ IsNoSeries self.now.series series }
    {
        let mut steps = Steps::<L>::new(blank);
        let (start, end) = bounds(&self.starts, self.entries.len(), series, &mut steps)?;
        Some(end - start)
    }

    /// The entry with a number of a series.
    pub fn entry(&self, series: u32, number: u64) -> Option<&OutEntry>
        ensures entry { option_copied result ≡ entry_at self.now.series series number }
        ensures none { IsNone result ↔ HasNoNumber self.now.series series number }
    {
        self.get_in::<Brand>(series, number, Blank::new(1))
    }

    fn get_in<L: Ledger>(&self, series: u32, number: u64, blank: Blank) -> Option<&OutEntry>
        requires name { blank.name ≡ L.name }
        requires parts { blank.parts ≡ L.parts }
        requires some { 0 < blank.parts }
        ensures entry { option_copied result ≡ entry_at self.now.series series number }
        ensures none { IsNone result ↔ HasNoNumber self.now.series series number }
    {
        let mut steps = Steps::<L>::new(blank);
        self.get(series, number, &mut steps)
    }

    /// The entry with a number of a series, by at most 4 look-ups.
    pub fn get<L: Ledger>(
        &self,
        series: u32,
        number: u64,
        steps: &mut Steps<L>,
    ) -> Option<&OutEntry>
        ensures entry { option_copied result ≡ entry_at self.now.series series number }
        ensures none { IsNone result ↔ HasNoNumber self.now.series series number }
        ensures forward { steps.old ≤ steps.new }
        ensures cost { steps.new ≤ steps.old + 4 }
    {
        if number == 0 {
            return None;
        }
        let (start, end) = bounds(&self.starts, self.entries.len(), series, steps)?;
        if number > end - start {
            return None;
        }
        self.entries.get(start + (number - 1), steps)
    }

    /// The greatest number such that all entries from the given one to it are session entries of the
    /// series. With r stretches of session entries in the log it takes so many look-ups at most that
    /// 2 to their number is at most 8 * r + 2.
    pub fn stretch_end<L: Ledger>(
        &self,
        series: u32,
        number: u64,
        steps: &mut Steps<L>,
    ) -> Option<u64>
        ensures end { IfSome result (IsStretchEnd (series_at self.now.series series) number) }
        ensures none { IsNone result ↔ (is_session (series_at self.now.series series) number ≡ false) }
        ensures forward { steps.old ≤ steps.new }
        ensures cost { 2 ^ (steps.new - steps.old) ≤ 8 * stretch_count self.now.series + 2 }
    {
        if self.stretches.grows_over(self.series(), series, number) {
            let last = self.entries.len() - self.start;
            if number > last {
                return None;
            }
            return Some(last);
        }
        find_end(&self.stretches.closed, series, number, steps)
    }
}

/// Where a series begins and ends among so many entries.
fn bounds<L: Ledger>(
    starts: &Shelf<u64>,
    entries: u64,
    series: u32,
    steps: &mut Steps<L>,
) -> Option<(u64, u64)>
    ensures none { IsNone result ↔ ((series ≡ 0) ⊎ (length starts.now.items + 1 < series)) }
    ensures start { IfSome result (λ b. b.0 ≡ slice_index (0 ∷ starts.now.items) (series - 1)) }
    ensures end { IfSome result (λ b. b.1 ≡ slice_index (starts.now.items ++ entries ∷ []) (series - 1)) }
    ensures forward { steps.old ≤ steps.new }
    ensures cost { steps.new ≤ steps.old + 2 }
{
    let before = u64::from(series.checked_sub(1)?);
    let start = if before == 0 {
        0
    } else {
        *starts.read(before - 1, steps)?
    };
    let end = if before == starts.len() as u64 {
        entries
    } else {
        *starts.read(before, steps)?
    };
    Some((start, end))
}

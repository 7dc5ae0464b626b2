//! A list on pages.

ghost use Rattle.std.specs.Prelude.{◌≡◌, ℕ, ◌+◌, ◌^◌, ◌<◌, ◌≤◌, ◌↔◌, [], ◌∷◌, ◌++◌, length, slice_get, All, IfOk, OnOk, OnErr, IsOk, IsNone};
ghost use Rattle.std.specs.Option.{option_copied};
ghost use Rattle.message_log.specs.Pages.{IsReady};

use crate::shelf::{Shelf, Steps};
use gate_io::NoMemory;
use std::alloc::Global;
use std::marker::Model;
use std::mem;
use std::sync::ledger::Ledger;

/// How many items a page has.
pub const PAGE: usize = 1024;

/// How many pages there are at most, so that a length is at most 2^63.
const MOST_PAGES: usize = 9_007_199_254_740_992;

/// A list that grows at its end, on pages of `PAGE` items. A push moves no item of a full page.
#[derive(Debug, Drop)]
pub struct Paged<T> {
    full: Shelf<Shelf<T>>,
    // the page that is written on
    last: Shelf<T>,
    // empty pages with all their memory
    ready: Vec<Shelf<T>>,
    spare: usize,
}

impl<T> Model for Paged<T> {
    ghost use Rattle.std.specs.Prelude.{◌++◌};
    ghost use Rattle.message_log.specs.Stored.{Stored, stored_code};
    ghost use Rattle.message_log.specs.Pages.{items_on, IsPaged};

    ghost Value = { Stored T };

    ghost coded = { stored_code T.code };

    ghost view = { λ p. record { items = items_on p.full.items ++ p.last.items; spare = p.spare } };

    ghost invariant = { λ p. IsPaged p.full p.last p.ready.items p.spare };
}

impl<T> Paged<T> {
    /// The empty list. It takes no memory.
    pub fn new(alloc: Global) -> Paged<T>
        ensures { result ≡ record { items = []; spare = 0 } }
    {
        Paged {
            full: Shelf::new(alloc),
            last: Shelf::new(alloc),
            ready: Vec::new(alloc),
            spare: 0,
        }
    }

    /// How many items there are.
    pub fn len(&self) -> u64
        ensures length { result ≡ length self.now.items }
        ensures few { result ≤ 2 ^ 63 }
    {
        (self.full.len() * PAGE + self.last.len()) as u64
    }

    /// The item at a place, from 0.
    pub fn get<L: Ledger>(&self, place: u64, steps: &mut Steps<L>) -> Option<&T>
        ensures item { option_copied result ≡ slice_get self.now.items place }
        ensures none { IsNone result ↔ (length self.now.items ≤ place) }
        ensures forward { steps.old ≤ steps.new }
        ensures cost { steps.new ≤ steps.old + 2 }
    {
        let page = place / PAGE as u64;
        let on_page = place % PAGE as u64;
        if page == self.full.len() as u64 {
            self.last.read(on_page, steps)
        } else {
            self.full.read(page, steps)?.read(on_page, steps)
        }
    }
}

impl<T: Drop> Paged<T> {
    /// Makes room for n more items.
    pub fn reserve(&mut self, alloc: Global, n: usize) -> Result<(), NoMemory>
        ensures items { self.new.items ≡ self.old.items }
        ensures room { OnOk result (n ≤ self.new.spare) }
        ensures with_room { n ≤ self.old.spare → IsOk result }
        ensures kept { self.old.spare ≤ self.new.spare }
    {
        if n <= self.spare {
            return Ok(());
        }
        let here = PAGE - self.last.len();
        self.last.reserve(here)?;
        let more = n.saturating_sub(here).div_ceil(PAGE);
        make_ready(alloc, &mut self.full, &mut self.ready, more)?;
        self.spare = n;
        Ok(())
    }

    /// Puts an item at the end. With spare places it takes no memory; without memory the item is
    /// dropped.
    pub fn push(&mut self, alloc: Global, item: T) -> Result<(), NoMemory>
        ensures ok { OnOk result (self.new.items ≡ self.old.items ++ item ∷ []) }
        ensures err { OnErr result (self.new.items ≡ self.old.items) }
        ensures with_spare { 0 < self.old.spare → IsOk result }
        ensures kept { self.old.spare ≤ self.new.spare + 1 }
    {
        if self.last.len() == PAGE {
            let page = next_page(alloc, &mut self.full, &mut self.ready)?;
            let full = mem::replace(&mut self.last, page);
            self.full.push(full).unwrap();
        }
        self.last.push(item)?;
        self.spare = self.spare.saturating_sub(1);
        Ok(())
    }
}

/// Keeps so many empty pages ready, and a place for each among the full pages.
fn make_ready<T: Drop>(
    alloc: Global,
    full: &mut Shelf<Shelf<T>>,
    ready: &mut Vec<Shelf<T>>,
    pages: usize,
) -> Result<(), NoMemory>
    requires empty { All IsReady ready.old.items }
    requires few { length full.old.items + length ready.old.items < MOST_PAGES }
    requires places { length ready.old.items ≤ full.old.spare }
    ensures full { full.new.items ≡ full.old.items }
    ensures empty { All IsReady ready.new.items }
    ensures few { length full.new.items + length ready.new.items < MOST_PAGES }
    ensures places { length ready.new.items ≤ full.new.spare }
    ensures kept { length ready.old.items ≤ length ready.new.items }
    ensures ok { OnOk result (pages ≤ length ready.new.items) }
{
    if pages >= MOST_PAGES - full.len() {
        return Err(NoMemory::OutOfMemory);
    }
    full.reserve(pages)?;
    while ready.len() < pages {
        ready.push(Shelf::with_room(alloc, PAGE)?)?;
    }
    Ok(())
}

/// Takes an empty page, a ready one where there is one, for which there is a place among the full
/// pages.
fn next_page<T: Drop>(
    alloc: Global,
    full: &mut Shelf<Shelf<T>>,
    ready: &mut Vec<Shelf<T>>,
) -> Result<Shelf<T>, NoMemory>
    requires empty { All IsReady ready.old.items }
    requires few { length full.old.items + length ready.old.items < MOST_PAGES }
    requires places { length ready.old.items ≤ full.old.spare }
    ensures page { IfOk result IsReady }
    ensures full { full.new.items ≡ full.old.items }
    ensures empty { All IsReady ready.new.items }
    ensures few { OnOk result (length full.new.items + 1 + length ready.new.items < MOST_PAGES) }
    ensures places { OnOk result (1 + length ready.new.items ≤ full.new.spare) }
    ensures taken { OnOk result (length ready.old.items ≤ length ready.new.items + 1) }
    ensures err { OnErr result ((length ready.old.items ≡ 0) × (length ready.new.items ≡ 0)) }
    ensures ready { 0 < length ready.old.items → IsOk result }
{
    if let Some(page) = ready.pop() {
        return Ok(page);
    }
    if full.len() + 1 >= MOST_PAGES {
        return Err(NoMemory::OutOfMemory);
    }
    full.reserve(1)?;
    Shelf::with_room(alloc, PAGE)
}

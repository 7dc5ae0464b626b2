//! Lists whose look-ups are counted.

ghost use Rattle.std.specs.Prelude.{◌≡◌, ℕ, ◌+◌, ◌<◌, ◌≤◌, ◌↔◌, [], ◌∷◌, ◌++◌, length, slice_get, IfOk, OnOk, OnErr, IsOk, IsNone};
ghost use Rattle.std.specs.Option.{option_copied};

use gate_io::NoMemory;
use std::alloc::Global;
use std::marker::Model;
use std::sync::ledger::{Blank, Book, Ledger, Share};

/// How many look-ups were made. It takes no bytes, and only `Shelf::read` adds to it.
#[derive(Drop)]
pub struct Steps<L: Ledger> {
    book: Book<L>,
    share: Share<L>,
}

impl<L: Ledger> Model for Steps<L> {
    ghost use Rattle.std.specs.Prelude.{ℕ, ◌<◌};

    ghost Value = { ℕ };

    ghost view = { λ s. s.book.total };

    ghost invariant = { λ s. 0 < s.share.parts };
}

impl<L: Ledger> Steps<L> {
    /// A counter at 0 that is kept in the ledger.
    pub fn new(blank: Blank) -> Steps<L>
        requires name { blank.name ≡ L.name }
        requires parts { blank.parts ≡ L.parts }
        requires some { 0 < blank.parts }
        ensures { result ≡ 0 }
    {
        let (book, share) = blank.open::<L>();
        Steps { book, share }
    }

    fn tick(&mut self)
        ensures { self.new ≡ self.old + 1 }
    {
        self.book.add(&mut self.share, 1);
    }
}

/// A list that grows at its end. `read` is the only way to an item.
#[derive(Debug, Drop)]
pub struct Shelf<T> {
    items: Vec<T>,
}

impl<T> Model for Shelf<T> {
    ghost use Rattle.std.specs.Prelude.{◌-◌, vec_capacity, vec_len};
    ghost use Rattle.message_log.specs.Stored.{Stored, stored_code};

    ghost Value = { Stored T };

    ghost coded = { stored_code T.code };

    ghost view = { λ s. record { items = s.items.items; spare = vec_capacity s.items - vec_len s.items } };
}

impl<T> Shelf<T> {
    /// Nothing is on it. It takes no memory.
    pub fn new(alloc: Global) -> Shelf<T>
        ensures { result.items ≡ [] }
    {
        Shelf {
            items: Vec::new(alloc),
        }
    }

    /// Nothing is on it, and there is room for n items.
    pub fn with_room(alloc: Global, n: usize) -> Result<Shelf<T>, NoMemory>
        ensures empty { IfOk result (λ shelf. shelf.items ≡ []) }
        ensures room { IfOk result (λ shelf. n ≤ shelf.spare) }
    {
        Ok(Shelf {
            items: Vec::with_capacity(alloc, n)?,
        })
    }

    pub fn len(&self) -> usize
        ensures { result ≡ length self.now.items }
    {
        self.items.len()
    }

    /// The item at place i. This is one look-up.
    pub fn read<L: Ledger>(&self, i: u64, steps: &mut Steps<L>) -> Option<&T>
        ensures item { option_copied result ≡ slice_get self.now.items i }
        ensures none { IsNone result ↔ (length self.now.items ≤ i) }
        ensures one { steps.new ≡ steps.old + 1 }
    {
        steps.tick();
        self.items.get(i as usize)
    }

    /// Makes room for n more items.
    pub fn reserve(&mut self, n: usize) -> Result<(), NoMemory>
        ensures items { self.new.items ≡ self.old.items }
        ensures room { OnOk result (n ≤ self.new.spare) }
        ensures with_room { n ≤ self.old.spare → IsOk result }
        ensures kept { self.old.spare ≤ self.new.spare }
    {
        self.items.reserve(n)?;
        Ok(())
    }
}

impl<T: Drop> Shelf<T> {
    /// Puts an item at the end. With room it takes no memory; without memory the item is dropped.
    pub fn push(&mut self, item: T) -> Result<(), NoMemory>
        ensures ok { OnOk result (self.new.items ≡ self.old.items ++ item ∷ []) }
        ensures err { OnErr result (self.new.items ≡ self.old.items) }
        ensures with_room { 0 < self.old.spare → IsOk result }
        ensures kept { self.old.spare ≤ self.new.spare + 1 }
    {
        self.items.push(item)?;
        Ok(())
    }
}

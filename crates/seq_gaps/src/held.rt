//! The early items, by their numbers.

ghost use Rattle.std.specs.Prelude.{◌≡◌, ℕ, ◌<◌, IfOk, IfSome, IfNone, nat_le};
ghost use Rattle.std.specs.Ordering.{nat_cmp};
ghost use Rattle.std.specs.FinMap as map;
ghost use Rattle.seq_gaps.specs.Early.{early_place, held_with, IsFirst, NoneBelow};

use super::{HELD_LIMIT, Place};
use gate_io::NoMemory;
use std::alloc::Global;
use std::collections::VecDeque;
use std::marker::Model;

/// Early items by their numbers. It has room for `HELD_LIMIT` from the start on.
#[derive(Debug, Drop)]
pub struct Held<T> {
    // The numbers, which rise, and beside them the item of each.
    numbers: VecDeque<u32>,
    items: VecDeque<T>,
}

impl<T> Model for Held<T> {
    ghost use Rattle.std.specs.Prelude.{ℕ, ◌≤◌};
    ghost use Rattle.std.specs.Ordering.{nat_cmp};
    ghost use Rattle.std.specs.FinMap.{FinMap, code};
    ghost use Rattle.std.specs.Coded.{coded_ℕ};
    ghost use Rattle.std.specs.VecDeque.{deque_capacity};
    ghost use Rattle.seq_gaps.specs.declared.offered.TheConstants.{HELD_LIMIT};
    ghost use Rattle.seq_gaps.specs.Early.{held_in, ArePaired};

    ghost Value = { FinMap nat_cmp T };

    ghost coded = { code coded_ℕ T.code };

    ghost view = { λ a. held_in a.numbers.items a.items.items };

    ghost invariant = { λ a. ArePaired a.numbers.items a.items.items × (HELD_LIMIT ≤ deque_capacity a.numbers) × (HELD_LIMIT ≤ deque_capacity a.items) };
}

impl<T> Held<T> {
    pub fn new(alloc: Global) -> Result<Held<T>, NoMemory>
        ensures { IfOk result (λ held. held ≡ map.empty) }
    {
        let numbers = VecDeque::with_capacity(alloc, HELD_LIMIT)?;
        let items = VecDeque::with_capacity(alloc, HELD_LIMIT)?;
        Ok(Held { numbers, items })
    }

    /// The least number that is held.
    pub fn first(&self) -> Option<u32>
        ensures some { IfSome result (IsFirst self.now) }
        ensures none { IfNone result (self.now ≡ map.empty) }
    {
        self.numbers.front().copied()
    }

    /// Takes what is held of n, where no number below n is held.
    pub fn take_first(&mut self, n: u32) -> Option<T>
        requires { NoneBelow self.old n }
        ensures taken { result ≡ map.get self.old n }
        ensures rest { self.new ≡ map.remove self.old n }
    {
        if self.first() != Some(n) {
            return None;
        }
        self.numbers.pop_front();
        self.items.pop_front()
    }

    /// Holds an early item, unless its number is held already or there is no room.
    pub fn hold(&mut self, n: u32, item: T) -> Place<T>
        ensures place { result ≡ early_place self.old n item }
        ensures held { self.new ≡ held_with self.old n item result }
    {
        match self.numbers.binary_search(&n) {
            Ok(_) => Place::Known(item),
            Err(at) => {
                if self.numbers.len() >= HELD_LIMIT {
                    return Place::NoRoom(item);
                }
                self.numbers.insert(at, n).unwrap();
                self.items.insert(at, item).unwrap();
                Place::Held
            }
        }
    }
}

impl<T: Drop> Held<T> {
    /// Drops what is held of the numbers below `to`.
    pub fn drop_below(&mut self, to: u32)
        ensures { self.new ≡ map.retain_keys self.old (nat_le to) }
    {
        while let Some(first) = self.first() {
            if first >= to {
                return;
            }
            self.take_first(first);
        }
    }

    pub fn clear(&mut self)
        ensures { self.new ≡ map.empty }
    {
        self.numbers.clear();
        self.items.clear();
    }
}

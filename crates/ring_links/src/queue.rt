//! The ring as its two ends see it.
ghost use Rattle.std.specs.Prelude.{◌≡◌, ◌+◌, ◌-◌, ◌^◌, ◌<◌, ◌≤◌, length};
ghost use Rattle.ring_links.specs.Order.{is_full};

use crate::ends::{Head, Tail};
use crate::plays::{Claims, Compares, Fetches, HeadMoves, Looks, Pushes, Releases};
use crate::view::{InOrder, View};
use atomic_table::Table;
use std::alloc::Global;
use std::fmt;
use std::marker::Model;

// The words of the table.
pub(crate) const PUSHED: usize = 0;

pub(crate) const TAKEN: usize = 1;

/// A bounded queue between two threads. A `Tail` and a `Head` that were made with it push and pop.
#[derive(Drop)]
pub struct Ring<T> {
    pub(crate) table: Table<Option<T>, View<T>, usize, InOrder, Global>,
}

impl<T> Model for Ring<T> {
    ghost use Rattle.ring_links.specs.Ends.{RingId};

    ghost Value = { RingId };

    ghost use Rattle.std.specs.Prelude.{◌≡◌, ◌<◌};
    ghost use Rattle.ring_links.specs.Ends.{ring_id};

    ghost view = { λ r. ring_id r.table.shared.table_id };

    ghost invariant = { λ r. (r.table.shared.table_id.words ≡ 2) × (r.table.shared.key ≡ r.table.shared.table_id.slots) × (0 < r.table.shared.table_id.slots) };
}

impl<T> fmt::Debug for Ring<T> {
    fn fmt<W: fmt::Write>(&self, f: &mut fmt::Formatter<W>) -> fmt::Result {
        f.pad("Ring { .. }")
    }
}

/// The refusal of a push: the item comes back, with the two counts that left no room for it.
#[derive(Debug, Drop, PartialEq, Eq)]
pub struct Full<T> {
    pub item: T,
    pub pushed: u64,
    pub taken: u64,
}

/// How many items were pushed into a ring, and how many of them were taken out.
#[derive(Clone, Copy, Debug, PartialEq, Eq)]
pub struct Room {
    pub pushed: u64,
    pub taken: u64,
}

fn has_no_room(capacity: u64, pushed: u64, taken: u64) -> bool
    requires { taken ≤ pushed }
    ensures { result ≡ is_full capacity pushed taken }
{
    pushed - taken == capacity || pushed == u64::MAX
}

impl<T> Ring<T> {
    ghost use Rattle.std.specs.Prelude.{◌↔◌, [], ◌∷◌, ◌++◌, drop, IsOk, IsErr, IfErr, IsNone, IsSome, OnOk, OnErr, option_to_list, slice_get};
    ghost use Rattle.ring_links.specs.Ends.{IsFull, HasRoom};

    /// For how many items the ring has room.
    pub fn capacity(&self) -> u64
        ensures { result ≡ self.now.capacity }
    {
        self.table.slot_count() as u64
    }

    /// Pushes an item, or hands it back where the ring is full: where the pushed count less the
    /// taken count is the capacity, or the pushed count is 2^64 - 1.
    pub fn push(&self, tail: &mut Tail<T>, item: T) -> Result<(), Full<T>>
        requires ring { tail.old.ring ≡ self.now }
        ensures ring { tail.new.ring ≡ tail.old.ring }

        // The taken count is loaded once, whatever the answer.
        ensures loaded { tail.new.loads ≡ tail.old.loads + 1 }
        ensures later { tail.old.taken ≤ tail.new.taken }
        ensures heard { tail.old.told ≤ tail.new.taken }
        ensures told { tail.new.told ≡ tail.old.told }
        ensures behind { tail.new.taken ≤ length tail.old.pushed }
        ensures within { length tail.old.pushed ≤ tail.new.taken + self.now.capacity }

        ensures full { IsErr result ↔ IsFull self.now.capacity (length tail.old.pushed) tail.new.taken }
        ensures room { IsOk result ↔ HasRoom self.now.capacity (length tail.old.pushed) tail.new.taken }
        ensures ok { OnOk result (tail.new.pushed ≡ tail.old.pushed ++ item ∷ []) }
        ensures err { OnErr result (tail.new.pushed ≡ tail.old.pushed) }
        ensures refused { IfErr result (λ f. (f.item ≡ item) × (f.pushed ≡ length tail.old.pushed) × (f.taken ≡ tail.new.taken)) }

        // Room that was seen or told of stays.
        ensures succeeds { HasRoom self.now.capacity (length tail.old.pushed) tail.old.taken → IsOk result }
        ensures succeeds_told { HasRoom self.now.capacity (length tail.old.pushed) tail.old.told → IsOk result }
    {
        let shared = &self.table.shared;
        let taken = shared.load::<Claims>(&mut tail.seat, TAKEN);
        let pushed = tail.pushed.count;
        let capacity = self.table.slot_count();
        if has_no_room(capacity as u64, pushed, taken) {
            return Err(Full {
                item,
                pushed,
                taken,
            });
        }
        let vacant = shared.exchange(&mut tail.seat, tail.pushed.place, Some(item));
        let None = vacant else { unreachable!() };
        shared.store::<Pushes>(&mut tail.seat, PUSHED, pushed + 1);
        tail.pushed.advance(capacity);
        Ok(())
    }

    /// Loads the taken count. Where the counts differ by less than the capacity, and the pushed
    /// count isn't 2^64 - 1, the next push succeeds.
    pub fn room(&self, tail: &mut Tail<T>) -> Room
        requires ring { tail.old.ring ≡ self.now }
        ensures ring { tail.new.ring ≡ tail.old.ring }
        ensures loaded { tail.new.loads ≡ tail.old.loads + 1 }
        ensures later { tail.old.taken ≤ tail.new.taken }
        ensures heard { tail.old.told ≤ tail.new.taken }
        ensures told { tail.new.told ≡ tail.old.told }
        ensures same { tail.new.pushed ≡ tail.old.pushed }
        ensures pushed { result.pushed ≡ length tail.old.pushed }
        ensures taken { result.taken ≡ tail.new.taken }
        ensures behind { result.taken ≤ result.pushed }
        ensures within { result.pushed ≤ result.taken + self.now.capacity }
    {
        let taken = self.table.shared.load::<Looks>(&mut tail.seat, TAKEN);
        Room {
            pushed: tail.pushed.count,
            taken,
        }
    }

    /// Pops the oldest item. It is `None` where all that was pushed had been taken.
    pub fn pop(&self, head: &mut Head<T>) -> Option<T>
        requires ring { head.old.ring ≡ self.now }
        ensures ring { head.new.ring ≡ head.old.ring }

        // The pushed count is loaded once, whatever the answer.
        ensures loaded { head.new.loads ≡ head.old.loads + 1 }
        ensures later { head.old.pushed ≤ head.new.pushed }
        ensures heard { length head.old.popped + length head.old.told ≤ head.new.pushed }
        ensures within { head.new.pushed ≤ length head.old.popped + self.now.capacity }

        ensures none { IsNone result ↔ (head.new.pushed ≡ length head.old.popped) }
        ensures some { IsSome result ↔ (length head.old.popped < head.new.pushed) }
        ensures popped { head.new.popped ≡ head.old.popped ++ option_to_list result }

        // Of the items of which a meeting told, the first is given.
        ensures first { 0 < length head.old.told → result ≡ slice_get head.old.told 0 }
        ensures told { head.new.told ≡ drop 1 head.old.told }

        // An item that was seen stays.
        ensures succeeds { length head.old.popped < head.old.pushed → IsSome result }
    {
        let shared = &self.table.shared;
        let pushed = shared.load::<Fetches>(&mut head.seat, PUSHED);
        let taken = head.taken.count;
        if pushed == taken {
            return None;
        }
        let item = shared.exchange(&mut head.seat, head.taken.place, None);
        shared.store::<Releases>(&mut head.seat, TAKEN, taken + 1);
        head.taken.advance(self.table.slot_count());
        item
    }

    /// Tells each end what the other has done. It changes no item, and may be called at any time
    /// between two other calls.
    pub fn meet(&self, tail: &mut Tail<T>, head: &mut Head<T>)
        requires tail { tail.old.ring ≡ self.now }
        requires head { head.old.ring ≡ self.now }

        // What was popped is a prefix of what was pushed, and the head is told of the rest.
        ensures pushed { head.new.popped ++ head.new.told ≡ tail.new.pushed }
        ensures popped { tail.new.told ≡ length head.new.popped }
        ensures tail { tail.new ≡ record tail.old { told = length head.old.popped } }
        ensures head { head.new ≡ record head.old { told = drop (length head.old.popped) tail.old.pushed } }

        // What either end loaded or was told of before is no more than the other has done.
        ensures taken { tail.old.taken ≤ length head.old.popped }
        ensures heard { tail.old.told ≤ length head.old.popped }
        ensures seen { head.old.pushed ≤ length tail.old.pushed }
        ensures within { length tail.old.pushed ≤ length head.old.popped + self.now.capacity }
    {
        let shared = &self.table.shared;
        let moving = shared.split_seat::<HeadMoves>(&mut head.seat);
        shared.join_seat::<HeadMoves>(&mut tail.seat, moving);
        shared.load::<Compares>(&mut tail.seat, PUSHED);
        head.seat = shared.split_seat::<HeadMoves>(&mut tail.seat);
    }
}

//! The two ends of a ring.
ghost use Rattle.std.specs.Prelude.{◌≡◌, ◌+◌, ◌-◌, ◌%◌, ◌^◌, ◌<◌};

use crate::view::View;
use atomic_table::Seat;
use std::fmt;
use std::marker::Model;

/// A count, and its place in the ring: the count modulo the capacity.
#[derive(Drop)]
pub(crate) struct Cursor {
    pub(crate) count: u64,
    pub(crate) place: usize,
}

impl Cursor {
    pub(crate) fn start() -> Cursor
        ensures { (result.count ≡ 0) × (result.place ≡ 0) }
    {
        Cursor { count: 0, place: 0 }
    }

    /// The next count, in a ring of this capacity.
    pub(crate) fn advance(&mut self, capacity: usize)
        requires place { (self.old.place ≡ self.old.count % capacity) × (0 < capacity) }
        requires room { self.old.count < 2 ^ 64 - 1 }
        ensures count { self.new.count ≡ self.old.count + 1 }
        ensures place { self.new.place ≡ self.new.count % capacity }
    {
        self.count += 1;
        self.place += 1;
        if self.place == capacity {
            self.place = 0;
        }
    }
}

/// The end that pushes. It has no part in the ring's memory, and may move to another thread.
#[derive(Drop)]
pub struct Tail<T> {
    pub(crate) seat: Seat<Option<T>, View<T>>,
    pub(crate) pushed: Cursor,
}

impl<T> Model for Tail<T> {
    ghost use Rattle.ring_links.specs.Ends.{TailView};

    ghost Value = { TailView T };

    ghost use Rattle.ring_links.specs.Ends.{ring_id};
    ghost use Rattle.ring_links.specs.Tokens.{IsTail};

    ghost view = { λ t. record { ring = ring_id t.seat.table_id; pushed = t.seat.me.0.tail.items; taken = t.seat.me.0.tail.taken; loads = t.seat.me.0.tail.loads; told = t.seat.me.0.tail.told } };

    ghost invariant = { λ t. IsTail t.seat t.pushed };
}

impl<T> Tail<T> {
    ghost use Rattle.std.specs.Prelude.{◌≡◌, [], ◌<◌, length};
    ghost use Rattle.ring_links.specs.Ends.{ring_id, new_tail};
    ghost use Rattle.ring_links.specs.Order.{tail_view, new_pushing};

    pub(crate) fn new(seat: Seat<Option<T>, View<T>>) -> Tail<T>
        requires { seat.me ≡ (tail_view new_pushing, []) }
        ensures { result ≡ new_tail (ring_id seat.table_id) }
    {
        Tail {
            seat,
            pushed: Cursor::start(),
        }
    }

    /// How many items it pushed.
    pub fn pushed(&self) -> u64
        ensures { result ≡ length self.now.pushed }
    {
        self.pushed.count
    }
}

impl<T> fmt::Debug for Tail<T> {
    fn fmt<W: fmt::Write>(&self, f: &mut fmt::Formatter<W>) -> fmt::Result {
        f.pad("Tail { .. }")
    }
}

/// The end that pops. It has no part in the ring's memory, and may move to another thread.
#[derive(Drop)]
pub struct Head<T> {
    pub(crate) seat: Seat<Option<T>, View<T>>,
    pub(crate) taken: Cursor,
}

impl<T> Model for Head<T> {
    ghost use Rattle.ring_links.specs.Ends.{HeadView};

    ghost Value = { HeadView T };

    ghost use Rattle.ring_links.specs.Ends.{ring_id};
    ghost use Rattle.ring_links.specs.Tokens.{IsHead};

    ghost view = { λ h. record { ring = ring_id h.seat.table_id; popped = h.seat.me.0.head.items; pushed = h.seat.me.0.head.pushed; loads = h.seat.me.0.head.loads; told = h.seat.me.0.head.told } };

    ghost invariant = { λ h. IsHead h.seat h.taken };
}

impl<T> Head<T> {
    ghost use Rattle.std.specs.Prelude.{◌≡◌, [], ◌<◌};
    ghost use Rattle.ring_links.specs.Ends.{ring_id, new_head};
    ghost use Rattle.ring_links.specs.Order.{head_view, new_popping};

    pub(crate) fn new(seat: Seat<Option<T>, View<T>>) -> Head<T>
        requires { seat.me ≡ (head_view new_popping, []) }
        ensures { result ≡ new_head (ring_id seat.table_id) }
    {
        Head {
            seat,
            taken: Cursor::start(),
        }
    }
}

impl<T> fmt::Debug for Head<T> {
    fn fmt<W: fmt::Write>(&self, f: &mut fmt::Formatter<W>) -> fmt::Result {
        f.pad("Head { .. }")
    }
}

//! The rule of a ring's table, and what its seats know. No value of these types is made but in proofs.
use atomic_table::TableRule;
use std::collections::LinkedList;

/// What the tail knows: all that it pushed, the taken count that it loaded last, the number of
/// these loads, what a meeting told it of that count, and how many slots are out with it.
pub struct Pushing<T> {
    pub items: LinkedList<T>,
    pub taken: u64,
    pub loads: u64,
    pub told: u64,
    pub out: u64,
}

/// What the head knows: all that it popped, the pushed count that it loaded last, the number of
/// these loads, the further items of which a meeting told it, and how many slots are out with it.
pub struct Popping<T> {
    pub items: LinkedList<T>,
    pub pushed: u64,
    pub loads: u64,
    pub told: LinkedList<T>,
    pub out: u64,
}

/// A seat may be the tail, the head, both or neither.
pub struct View<T> {
    pub pushes: bool,
    pub tail: Pushing<T>,
    pub pops: bool,
    pub head: Popping<T>,
}

/// The rule of a ring, for each capacity. The first seat is both ends.
pub struct InOrder;

impl<T> TableRule<Option<T>, View<T>, usize> for InOrder {
    ghost use Rattle.ring_links.specs.Order.{Queue, both_view, new_pushing, new_popping};

    ghost holds = { λ n. Queue n };

    ghost first = { λ _. both_view new_pushing new_popping };
}

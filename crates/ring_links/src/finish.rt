//! How a ring ends.
ghost use Rattle.std.specs.Prelude.{◌≡◌, ◌+◌, ◌≤◌, [], ◌++◌, length, vec_len, vec_capacity, IfOk, IfErr};
ghost use Rattle.std.specs.Mem.Slots.{slots_items, IsFull};
ghost use Rattle.ring_links.specs.Order.{AreVacant};

use crate::ends::{Head, Tail};
use crate::plays::HeadMoves;
use crate::queue::Ring;
use atomic_table::Closed;
use gate_io::NoMemory;
use std::alloc::Global;

impl<T> Ring<T> {
    /// Ends the ring, and hands out what was pushed and not popped, in order. Where there is no
    /// memory for it, all comes back as it was.
    pub fn finish(
        self,
        alloc: Global,
        mut tail: Tail<T>,
        mut head: Head<T>,
    ) -> Result<Vec<T>, (NoMemory, Ring<T>, Tail<T>, Head<T>)>
        requires tail { tail.ring ≡ self }
        requires head { head.ring ≡ self }
        ensures left { IfOk result (λ items. head.popped ++ items.items ≡ tail.pushed) }
        ensures err { IfErr result (λ e. (e.1 ≡ self) × (e.2 ≡ tail) × (e.3 ≡ head)) }
    {
        let left = tail.pushed.count.saturating_sub(head.taken.count) as usize;
        let Ok(mut items) = Vec::with_capacity(alloc, left) else {
            return Err((NoMemory::OutOfMemory, self, tail, head));
        };
        self.meet(&mut tail, &mut head);
        self.pop_told(&mut head, &mut items, left);
        self.close(tail, head);
        Ok(items)
    }

    // Pops the items of which the head was told into a vector that has room for them.
    fn pop_told(&self, head: &mut Head<T>, items: &mut Vec<T>, count: usize)
        requires ring { head.old.ring ≡ self.now }
        requires count { count ≡ length head.old.told }
        requires room { vec_len items.old + count ≤ vec_capacity items.old }
        ensures ring { head.new.ring ≡ head.old.ring }
        ensures popped { head.new.popped ≡ head.old.popped ++ head.old.told }
        ensures items { items.new.items ≡ items.old.items ++ head.old.told }
    {
        for _ in 0..count {
            match self.pop(head) {
                Some(item) => items.push_reserved(item),
                None => unreachable!(),
            }
        }
    }

    // Ends a ring in which nothing is left.
    fn close(self, tail: Tail<T>, head: Head<T>)
        requires tail { tail.ring ≡ self }
        requires head { head.ring ≡ self }
        requires empty { head.popped ≡ tail.pushed }
    {
        let Ring { table } = self;
        let Tail {
            mut seat,
            pushed: _,
        } = tail;
        let Head {
            seat: head_seat,
            taken: _,
        } = head;
        table.shared.join_seat::<HeadMoves>(&mut seat, head_seat);
        discard(table.close_with(seat));
    }
}

// Frees a table whose slots are all empty.
fn discard<T>(mut closed: Closed<Option<T>, Global>)
    requires full { IsFull closed.slots }
    requires vacant { AreVacant (slots_items closed.slots) }
{
    for i in 0..closed.slot_count() {
        let slot = closed.take(i);
        let None = slot else { unreachable!() };
    }
    closed.free();
}

//! How a ring is made.
ghost use Rattle.std.specs.Prelude.{◌≡◌, ◌<◌, ◌≤◌, IfOk};
ghost use Rattle.ring_links.specs.Ends.{new_tail, new_head};

use crate::ends::{Head, Tail};
use crate::plays::HeadMoves;
use crate::queue::Ring;
use atomic_table::Table;
use gate_io::NoMemory;
use std::alloc::Global;

/// A ring with room for as many items, from 1 to 256, and its two ends.
pub fn ring<T>(alloc: Global, capacity: u64) -> Result<(Ring<T>, Tail<T>, Head<T>), NoMemory>
    requires some { 0 < capacity }
    requires most { capacity ≤ 256 }
    ensures capacity { IfOk result (λ r. r.0.capacity ≡ capacity) }
    ensures tail { IfOk result (λ r. r.1 ≡ new_tail r.0) }
    ensures head { IfOk result (λ r. r.2 ≡ new_head r.0) }
{
    let slots = capacity as usize;
    let (table, mut seat) = Table::vacant(alloc, &[0, 0], slots, &slots)?;
    let head_seat = table.shared.split_seat::<HeadMoves>(&mut seat);
    let tail = Tail::new(seat);
    let head = Head::new(head_seat);
    Ok((Ring { table }, tail, head))
}

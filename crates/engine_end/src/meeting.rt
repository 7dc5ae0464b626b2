//! The engine and a library meet.

ghost use Rattle.std.specs.Prelude.{◌≡◌, ◌-◌, ◌≤◌, length, slice_get, Some};
ghost use Rattle.engine_end.specs.Meeting.{RingsMeet, SeatsMeet};
ghost use Rattle.library_desk.specs.Serving.{IsInOrder, IsLinked};

use lease_core::{Command, Notice};
use lease_words::LibrarySeat;
use library_desk::{LibraryDesk, Shared};
use ring_links::{Head, Tail};

/// Tells the engine and a library what the other has done: at the lease table, at the ring of the
/// library's commands and at that of its notices. It changes no lease, lane, count, beat or item, and may
/// be called at any time between two other calls of either side.
pub fn meet(
    desk: &mut LibraryDesk,
    shared: &Shared,
    library: u8,
    seat: &mut LibrarySeat,
    tail: &mut Tail<Command>,
    head: &mut Head<Notice>,
)
    requires linked { IsLinked shared.now desk.old }
    requires ready { IsInOrder desk.old }
    requires library { (1 ≤ library) × (library ≤ length desk.old.ends.items) }
    requires seat { seat.old.table ≡ shared.now.leases }
    requires tail { slice_get shared.now.commands.items (library - 1) ≡ Some tail.old.ring }
    requires head { slice_get shared.now.notices.items (library - 1) ≡ Some head.old.ring }
    ensures seats { SeatsMeet desk.old.desk.seat desk.new.desk.seat seat.old seat.new }
    ensures rings { RingsMeet library desk.old desk.new tail.old tail.new head.old head.new }
    ensures rest { desk.new ≡ record desk.old { desk = record (desk.old.desk) { seat = desk.new.desk.seat }; ends = desk.new.ends } }
    ensures linked { IsLinked shared.now desk.new }
    ensures ready { IsInOrder desk.new }
{
    shared.leases.meet(&mut desk.desk.seat, seat);
    let place = usize::from(library - 1);
    let ends = &mut desk.ends[place];
    shared.commands[place].meet(tail, &mut ends.head);
    shared.notices[place].meet(&mut ends.tail, head);
}

//! The libraries' seats are taken in.

ghost use Rattle.std.specs.Prelude.{◌≡◌};
ghost use Rattle.std.specs.List.{All};
ghost use Rattle.engine_end.specs.Finishing.{after_settling};
ghost use Rattle.lease_words.specs.Views.{LibraryView};

use lease_desk::LeaseDesk;
use lease_words::{Leases, LibrarySeat};

/// Takes the seats of libraries in, in order. From then on each session's next look tells all that
/// these libraries did of it. It takes no memory.
pub(crate) fn settle_all(desk: &mut LeaseDesk, leases: &Leases, seats: Vec<LibrarySeat>)
    requires table { desk.old.seat.table ≡ leases.now }
    requires seats { All (λ (seat : LibraryView). seat.table ≡ leases.now) seats.items }
    ensures { desk.new ≡ after_settling seats.items desk.old }
{
    for seat in seats {
        leases.settle(&mut desk.seat, seat);
    }
}
